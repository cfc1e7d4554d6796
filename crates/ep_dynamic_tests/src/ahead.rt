//! Truth of formulas that look ahead, and products that are too large.

ghost use Rattle.std.specs.Prelude.{◌≡◌, ◌<◌};

use crate::formulas::{Layer, ann_knows_whether, heads, often, under};
use crate::problems::{ANN, BLUR, BOB, NEVER, PEEK, WAIT, problem};
use ep_dynamic::{DynFail, DynFormula, DynNode, holds_dynamic};
use ep_logic::{Bits, Steps};
use ep_problem::Problem;
use std::alloc::Global;
use std::marker::Brand;
use std::process::Abort;
use std::sync::ledger::{Blank, Ledger};
use std::test::Fail;

fn counted<L: Ledger>(
    rt: &impl Abort,
    alloc: Global,
    task: &Problem,
    f: &DynFormula,
    blank: Blank,
) -> Result<Bits, DynFail>
    requires name { blank.name ≡ L.name }
    requires parts { blank.parts ≡ L.parts }
    requires some { 0 < L.parts }
{
    assert!(rt; f.fits_problem(task));
    let mut steps = Steps::<L>::new(blank);
    holds_dynamic(alloc, task, task.initial(), f, &mut steps)
}

fn truth(rt: &impl Abort, alloc: Global, node: DynNode) -> Result<Result<Bits, DynFail>, Fail> {
    let task = problem(rt, alloc)?;
    match DynFormula::new(node) {
        None => assert!(rt; false),
        Some(f) => return Ok(counted::<Brand>(rt, alloc, &task, &f, Blank::new(1))),
    }
    Ok(Err(DynFail::OutOfMemory))
}

// Where the formula is true, of the worlds where heads is up and where it is not.
fn check_truth(
    rt: &impl Abort,
    alloc: Global,
    node: DynNode,
    wanted: [bool; 2],
) -> Result<(), Fail> {
    let row = truth(rt, alloc, node)??;
    assert!(rt; row.len() == 2);
    assert_eq!(rt; [row.get(0), row.get(1)], wanted);
    Ok(())
}

#[test]
fn what_is_known_after_a_look(rt: HostRuntime) -> Result<(), Fail> {
    let rows: [(&[Layer], [bool; 2]); 6] = [
        (&[Layer::Knows(ANN)], [false, false]),
        (&[Layer::Knows(ANN), Layer::After(PEEK)], [true, false]),
        (&[Layer::Knows(BOB), Layer::After(PEEK)], [false, false]),
        (
            &[Layer::Knows(ANN), Layer::After(PEEK), Layer::Knows(BOB)],
            [false, false],
        ),
        (&[Layer::After(NEVER)], [true, true]),
        (
            &[Layer::Not, Layer::After(WAIT), Layer::Common],
            [false, false],
        ),
    ];
    for (layers, wanted) in rows {
        let node = under(rt.alloc(), heads(), layers)?;
        check_truth(&rt, rt.alloc(), node, wanted)?;
    }
    Ok(())
}

// Bob knows that Ann knows which side is up once she has looked, though he does not know which side she sees.
#[test]
fn what_another_knows_after_a_look(rt: HostRuntime) -> Result<(), Fail> {
    let whether = ann_knows_whether(rt.alloc())?;
    let node = under(
        rt.alloc(),
        whether,
        &[Layer::After(PEEK), Layer::Knows(BOB)],
    )?;
    check_truth(&rt, rt.alloc(), node, [true, true])
}

// The first product that is too large, or nothing.
fn told(answer: &Result<Bits, DynFail>) -> (&'static str, u64) {
    match answer {
        Ok(_) => ("truth", 0),
        Err(DynFail::SpentWorlds { worlds }) => ("worlds", *worlds),
        Err(DynFail::SpentLinks { links }) => ("links", *links),
        Err(DynFail::OutOfMemory) => ("memory", 0),
    }
}

fn check_size(
    rt: &impl Abort,
    alloc: Global,
    node: DynNode,
    wanted: (&'static str, u64),
) -> Result<(), Fail> {
    let answer = truth(rt, alloc, node)?;
    assert_eq!(rt; told(&answer), wanted);
    Ok(())
}

// Two worlds and eight links: each wait doubles the worlds and the links, and each blur doubles the worlds and takes
// the links times four.
#[test]
fn the_first_product_that_is_too_large_is_told(rt: HostRuntime) -> Result<(), Fail> {
    let rows = [
        (WAIT, 15, ("truth", 0)),
        (WAIT, 16, ("worlds", 131_072)),
        (BLUR, 11, ("truth", 0)),
        (BLUR, 12, ("links", 134_217_728)),
    ];
    for (action, times, wanted) in rows {
        let node = often(rt.alloc(), heads(), Layer::After(action), times)?;
        check_size(&rt, rt.alloc(), node, wanted)?;
    }
    Ok(())
}

#[test]
fn no_product_is_needed_where_an_action_may_not_happen(rt: HostRuntime) -> Result<(), Fail> {
    let large = often(rt.alloc(), heads(), Layer::After(WAIT), 16)?;
    let node = under(rt.alloc(), large, &[Layer::After(NEVER)])?;
    check_size(&rt, rt.alloc(), node, ("truth", 0))
}

#[test]
fn a_formula_has_at_most_64_levels(rt: HostRuntime) -> Result<(), Fail> {
    for (times, is_formula) in [(63, true), (64, false)] {
        let node = often(rt.alloc(), heads(), Layer::Not, times)?;
        assert_eq!(rt; DynFormula::new(node).is_some(), is_formula);
    }
    Ok(())
}
