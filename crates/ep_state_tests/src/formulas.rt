// Numbers of nodes, depths, copies and refusals of formulas.

ghost use Rattle.std.specs.Prelude.{◌≡◌, ◌<◌, ◌^◌, length, IfOk};

use ep_logic::{AgentId, Agents, AtomId, Formula, FormulaError, List, OutOfMemory};
use std::alloc::Global;
use std::process::Abort;
use std::test::Fail;

// A formula of this depth, which is at least 1.
fn nested(alloc: Global, depth: u32) -> Result<Formula, FormulaError> {
    let mut formula = Formula::atom(AtomId { n: 3 });
    for _level in 1..depth {
        formula = Formula::not(alloc, formula)?;
    }
    Ok(formula)
}

fn leaves(alloc: Global, count: u32) -> Result<List<Formula>, OutOfMemory>
    ensures { IfOk result (λ leaves. length leaves ≡ count) }
{
    let mut leaves = List::new(alloc);
    for _leaf in 0..count {
        leaves.push(Formula::truth(false))?;
    }
    Ok(leaves)
}

fn check_sizes(rt: &impl Abort, formula: &Formula, nodes: u32, depth: u32) {
    assert_eq!(rt; (formula.nodes(), formula.depth()), (nodes, depth));
}

#[test]
fn depth_128_is_built(rt: HostRuntime) -> Result<(), Fail> {
    let alloc = rt.alloc();
    let not = Formula::not(alloc, nested(alloc, 127)?)?;
    check_sizes(&rt, &not, 128, 128);
    let common = Formula::common(alloc, Agents::first(8), nested(alloc, 127)?)?;
    check_sizes(&rt, &common, 128, 128);
    Ok(())
}

#[test]
fn depth_129_is_refused(rt: HostRuntime) -> Result<(), Fail> {
    let alloc = rt.alloc();
    let deep = Some(FormulaError::TooDeep { depth: 129 });
    let not = Formula::not(alloc, nested(alloc, 128)?).err();
    assert_eq!(rt; not, deep);
    let knows = Formula::knows(alloc, AgentId { n: 1 }, nested(alloc, 128)?).err();
    assert_eq!(rt; knows, deep);
    let common = Formula::common(alloc, Agents::first(8), nested(alloc, 128)?).err();
    assert_eq!(rt; common, deep);
    Ok(())
}

#[test]
fn empty_group_is_refused_before_depth(rt: HostRuntime) -> Result<(), Fail> {
    let alloc = rt.alloc();
    let empty = Formula::common(alloc, Agents::none(), nested(alloc, 128)?).err();
    assert_eq!(rt; empty, Some(FormulaError::EmptyGroup));
    Ok(())
}

#[test]
fn numbers_of_nodes(rt: HostRuntime) -> Result<(), Fail> {
    let alloc = rt.alloc();
    let most = Formula::or(alloc, leaves(alloc, 131_071)?)?;
    check_sizes(&rt, &most, 131_072, 2);
    let large = Some(FormulaError::TooLarge { nodes: 131_073 });
    let not = Formula::not(alloc, most).err();
    assert_eq!(rt; not, large);
    let and = Formula::and(alloc, leaves(alloc, 131_072)?).err();
    assert_eq!(rt; and, large);
    Ok(())
}

#[test]
fn depth_is_refused_before_nodes(rt: HostRuntime) -> Result<(), Fail> {
    let alloc = rt.alloc();
    let mut parts = leaves(alloc, 131_072)?;
    parts.push(nested(alloc, 128)?)?;
    let or = Formula::or(alloc, parts).err();
    assert_eq!(rt; or, Some(FormulaError::TooDeep { depth: 129 }));
    Ok(())
}

// A formula with nodes of each kind.
fn of_each_kind(alloc: Global) -> Result<Formula, Fail> {
    let knows = Formula::knows(alloc, AgentId { n: 7 }, nested(alloc, 2)?)?;
    let common = Formula::common(alloc, Agents::first(2), Formula::truth(true))?;
    let inner = List::from_vec(vec![in alloc; common, Formula::truth(false)]?);
    let parts = List::from_vec(vec![in alloc; knows, Formula::or(alloc, inner)?]?);
    Ok(Formula::and(alloc, parts)?)
}

#[test]
fn a_copy_is_the_same_tree(rt: HostRuntime) -> Result<(), Fail> {
    let alloc = rt.alloc();
    let formula = of_each_kind(alloc)?;
    check_sizes(&rt, &formula, 8, 4);
    let copy = formula.copy(alloc)?;
    check_sizes(&rt, &copy, 8, 4);
    let tree = format!(in alloc; "{:?}", formula.node())?;
    let copied = format!(in alloc; "{:?}", copy.node())?;
    assert_eq!(rt; tree, copied);
    Ok(())
}

#[test]
fn texts_of_refused_formulas(rt: HostRuntime) -> Result<(), Fail> {
    for (refusal, text) in [
        (FormulaError::EmptyGroup, "the group is empty"),
        (
            FormulaError::TooDeep { depth: 129 },
            "the formula has depth 129",
        ),
        (
            FormulaError::TooLarge { nodes: 131_073 },
            "the formula has 131073 nodes",
        ),
        (FormulaError::OutOfMemory, "out of memory"),
    ] {
        assert_eq!(rt; format!(in rt.alloc(); "{refusal}")?.as_str(), text);
    }
    Ok(())
}
