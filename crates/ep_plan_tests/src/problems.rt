//! Problems and their parts.

use crate::actions::{Act, actions};
use crate::states::{Shape, state};
use crate::tasks::{list, posed};
use ep_event::Action;
use ep_kripke::State;
use ep_logic::{ActionId, AtomId, EventId, Formula, Node};
use ep_problem::{Problem, actions_fit};
use std::alloc::Global;
use std::process::Abort;
use std::test::Fail;

// Two worlds that the agent does not tell apart, at the first of which the atom is true.
const COIN: Shape = Shape {
    truth: &[true, false],
    links: &[(0, 0), (0, 1), (1, 0), (1, 1)],
    designated: &[0],
};

fn problem(rt: &impl Abort, alloc: Global) -> Result<Problem, Fail> {
    let initial = state(rt, alloc, &COIN)?;
    let actions = actions(rt, alloc, &[Act::Said(1, 0), Act::Nothing(1)])?;
    let goal = Formula::not(alloc, Formula::atom(AtomId { n: 0 }))?;
    let costs = list(alloc, &[1, 100])?;
    Ok(posed(rt, initial, actions, costs, goal))
}

// The precondition is an atom, or not.
fn check_action(rt: &impl Abort, action: &Action, is_atom: bool) {
    assert!(rt; action.agents() == 1 && action.events() == 1);
    let pre = action.pre(EventId { n: 0 }).node();
    assert_eq!(rt; matches!(pre, Node::Atom(_)), is_atom);
}

fn check_problem(rt: &impl Abort, problem: &Problem) {
    assert_eq!(rt; problem.initial().worlds(), 2);
    assert_eq!(rt; problem.goal().nodes(), 2);
    assert!(rt; problem.actions() == 2);
    check_action(rt, problem.action(ActionId { n: 0 }), true);
    check_action(rt, problem.action(ActionId { n: 1 }), false);
}

#[test]
fn a_problem_is_its_parts(rt: HostRuntime) -> Result<(), Fail> {
    let problem = problem(&rt, rt.alloc())?;
    check_problem(&rt, &problem);
    Ok(())
}

fn check_fit(
    rt: &impl Abort,
    alloc: Global,
    initial: &State,
    acts: &[Act],
    fit: bool,
) -> Result<(), Fail> {
    let actions = actions(rt, alloc, acts)?;
    assert_eq!(rt; actions_fit(initial, actions.as_slice()), fit);
    Ok(())
}

// One action of more agents, one of another atom, and none.
#[test]
fn actions_of_more_agents_or_another_atom_do_not_fit(rt: HostRuntime) -> Result<(), Fail> {
    let initial = state(&rt, rt.alloc(), &COIN)?;
    let rows: [(&[Act], bool); 4] = [
        (&[], true),
        (&[Act::Said(1, 0), Act::Said(1, 0)], true),
        (&[Act::Said(1, 0), Act::Said(2, 0)], false),
        (&[Act::Said(1, 0), Act::Said(1, 1)], false),
    ];
    for (acts, fit) in rows {
        check_fit(&rt, rt.alloc(), &initial, acts, fit)?;
    }
    Ok(())
}
