//! The costs of actions, and whether the relations of a task are to be equivalences.

use crate::reading::{discard_task, task_tree, tokens_of};
use ep_reader::SyntaxError;
use ep_syntax::read_task;
use ep_tree::TaskTree;
use std::alloc::Global;
use std::process::Abort;
use std::test::Fail;

// What stands before the signature and the cost of an action, and behind them.
const ACTION: [&str; 2] = [
    "task toll; objects { ann : agent; } fluents { mid; } init { world o { } designated { o } } action fly",
    "{ assign when true { mid := true; } } goal mid;",
];

// What stands before the part `frames` and behind it.
const FRAMES: [&str; 2] = [
    "task toll;",
    "objects { ann : agent; } fluents { mid; } init { world o { } designated { o } } goal mid;",
];

// In each row `@` stands before the token at fault.
const WRONG_COSTS: [&str; 9] = [
    "cost @0",
    "cost @101",
    "cost @07",
    "cost @100000",
    "cost @",
    "cost @ten",
    "cost 10 @cost 10",
    "cost 10 @(a : agent)",
    "(a : agent) cost 10 @distinct",
];

const WRONG_FRAMES: [&str; 7] = [
    "frames @s4;",
    "frames @S5;",
    "frames @5;",
    "frames @;",
    "frames s5 @",
    "frames s5; @frames s5;",
    "types { } @frames s5;",
];

// The task whose text is the row between the two parts is refused at the token behind `@`.
fn check_refused(rt: &impl Abort, alloc: Global, parts: [&str; 2], row: &str) -> Result<(), Fail> {
    let (before, after) = row.split_once('@').ok_or("no mark")?;
    let front = format!(in alloc; "{} {before}", parts[0])?;
    let token = tokens_of(rt, alloc, front.as_bytes())?.count();
    let whole = format!(in alloc; "{front}{after} {}", parts[1])?;
    let found = tokens_of(rt, alloc, whole.as_bytes())?;
    let error = read_task(alloc, whole.as_bytes(), &found).err();
    assert_eq!(rt; error, Some(SyntaxError::Syntax { token }), "{row}");
    Ok(())
}

#[test]
fn costs_that_are_refused(rt: HostRuntime) -> Result<(), Fail> {
    for row in WRONG_COSTS {
        check_refused(&rt, rt.alloc(), ACTION, row)?;
    }
    Ok(())
}

#[test]
fn frames_that_are_refused(rt: HostRuntime) -> Result<(), Fail> {
    for row in WRONG_FRAMES {
        check_refused(&rt, rt.alloc(), FRAMES, row)?;
    }
    Ok(())
}

fn check_cost(rt: &impl Abort, tree: &TaskTree, cost: Option<u32>) {
    let schemas = tree.schemas.as_slice();
    assert_eq!(rt; schemas.len(), 1);
    assert_eq!(rt; schemas[0].cost, cost);
}

#[test]
fn costs_of_actions(rt: HostRuntime) -> Result<(), Fail> {
    let rows = [
        ("", None),
        ("cost 1", Some(1)),
        ("cost 10", Some(10)),
        ("cost 100", Some(100)),
        ("(a : agent)", None),
        ("(a : agent) cost 7", Some(7)),
        ("(a : agent) distinct cost 7", Some(7)),
    ];
    for (row, cost) in rows {
        let text = format!(in rt.alloc(); "{} {row} {}", ACTION[0], ACTION[1])?;
        let tree = task_tree(&rt, rt.alloc(), text.as_bytes())?;
        check_cost(&rt, &tree, cost);
        discard_task(tree);
    }
    Ok(())
}

#[test]
fn frames_of_tasks(rt: HostRuntime) -> Result<(), Fail> {
    let rows = [
        ("", false),
        ("frames s5;", true),
        ("types { }", false),
        ("frames s5; types { }", true),
    ];
    for (row, s5) in rows {
        let text = format!(in rt.alloc(); "{} {row} {}", FRAMES[0], FRAMES[1])?;
        let tree = task_tree(&rt, rt.alloc(), text.as_bytes())?;
        assert_eq!(rt; tree.s5, s5, "{row}");
        discard_task(tree);
    }
    Ok(())
}
