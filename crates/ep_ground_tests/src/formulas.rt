//! Formulas over the names of a ground task.

use crate::ground_tasks::COIN;
use crate::reading::{discard_formula, discard_task, formula_tree, ground_task};
use ep_ground::{FormulaFault, Task, ground_formula};
use ep_logic::{AgentId, AtomId, Formula, Node};
use ep_types::TypeFault;
use std::alloc::Global;
use std::process::Abort;
use std::test::Fail;

fn form(
    rt: &impl Abort,
    alloc: Global,
    task: &Task,
    text: &str,
) -> Result<Result<Formula, FormulaFault>, Fail> {
    let tree = formula_tree(rt, alloc, text)?;
    let formed = ground_formula(alloc, task, &tree);
    discard_formula(tree);
    Ok(formed)
}

fn check_coin(rt: &impl Abort, alloc: Global, task: &Task) -> Result<(), Fail> {
    let known = form(rt, alloc, task, "knows bob heads")??;
    assert!(rt; matches!(known.node(), Node::Knows(AgentId { n: 1 }, _)));
    let other = form(rt, alloc, task, "not tails")?.err();
    let wanted = FormulaFault::Typing {
        fault: TypeFault::Unknown,
        token: 1,
    };
    assert_eq!(rt; other, Some(wanted));
    Ok(())
}

#[test]
fn formulas_of_a_coin(rt: HostRuntime) -> Result<(), Fail> {
    let task = ground_task(&rt, rt.alloc(), COIN)??;
    let told = check_coin(&rt, rt.alloc(), &task);
    discard_task(task);
    told
}

const FAMILY: &str = "task family; types { child < agent; pet < object; ghost < object; } \
    objects { ann : agent; kid : child; rex : pet; } fluents { p; wet(child); likes(agent, object); } \
    init { world o { } designated { o } } goal true;";

// Over no binding a quantifier is a constant, and over one binding the one instance.
fn check_quantifiers(rt: &impl Abort, alloc: Global, task: &Task) -> Result<(), Fail> {
    let none = form(rt, alloc, task, "exists (g : ghost) p")??;
    assert!(rt; matches!(none.node(), Node::False));
    let all = form(rt, alloc, task, "forall (g : ghost) p")??;
    assert!(rt; matches!(all.node(), Node::True));
    let one = form(rt, alloc, task, "exists (c : child) (wet(c))")??;
    assert!(rt; matches!(one.node(), Node::Atom(AtomId { n: 1 })));
    Ok(())
}

fn check_groups(rt: &impl Abort, alloc: Global, task: &Task) -> Result<(), Fail> {
    let knows = form(rt, alloc, task, "knows kid likes(kid, rex)")??;
    assert!(rt; matches!(knows.node(), Node::Knows(AgentId { n: 1 }, _)));
    let common = form(rt, alloc, task, "common { kid } (ann = kid)")??;
    let Node::Common(group, inner) = common.node() else {
        return Err("no group".into());
    };
    assert!(rt; group.has(AgentId { n: 1 }) && !group.has(AgentId { n: 0 }));
    assert!(rt; matches!(inner.get(), Node::False));
    let fault = form(rt, alloc, task, "knows rex p")?.err();
    let wanted = FormulaFault::Typing {
        fault: TypeFault::NotAgent,
        token: 1,
    };
    assert_eq!(rt; fault, Some(wanted));
    Ok(())
}

fn check_family(rt: &impl Abort, alloc: Global, task: &Task) -> Result<(), Fail> {
    check_quantifiers(rt, alloc, task)?;
    check_groups(rt, alloc, task)
}

#[test]
fn formulas_of_a_family(rt: HostRuntime) -> Result<(), Fail> {
    let task = ground_task(&rt, rt.alloc(), FAMILY)??;
    let held = check_family(&rt, rt.alloc(), &task);
    discard_task(task);
    held
}

const LARGE: &str = "task large; types { big < object; small < big; } objects { ann : agent; \
    o1, o2, o3, o4, o5, o6, o7, o8, o9, o10, o11, o12, o13, o14, o15 : small; o16 : big; } \
    fluents { p; } init { world o { } designated { o } } goal true;";

const MOST: &str = "forall (a : small) forall (b : big) forall (c : big) forall (d : big) p";

// 1 + 15 * (1 + 16 * (1 + 16 * (1 + 16))) nodes, and one more.
fn check_most_nodes(rt: &impl Abort, alloc: Global, task: &Task) -> Result<(), Fail> {
    let most = form(rt, alloc, task, MOST)??;
    assert_eq!(rt; most.nodes(), 65_536);
    assert_eq!(rt; most.depth(), 5);
    let text = format!(in alloc; "not {MOST}")?;
    let more = form(rt, alloc, task, text.as_str())?.err();
    assert_eq!(rt; more, Some(FormulaFault::TooLarge { token: 0 }));
    Ok(())
}

#[test]
fn most_nodes(rt: HostRuntime) -> Result<(), Fail> {
    let task = ground_task(&rt, rt.alloc(), LARGE)??;
    let held = check_most_nodes(&rt, rt.alloc(), &task);
    discard_task(task);
    held
}
