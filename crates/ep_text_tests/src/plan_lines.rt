//! Plan files as trees, and the tokens at which they are refused.

use crate::reading::tokens_of;
use ep_reader::SyntaxError;
use ep_syntax::read_plan_lines;
use ep_tree::{CallTree, PlanTree};
use std::alloc::Global;
use std::process::Abort;
use std::test::Fail;

const SPREAD: &str = "# by hand
plan 1 task coin # its name
actions 12
twice peek
( ann # the first
, bob ) end";

// Version 2, token by token.
const COSTED: [&str; 15] = [
    "plan", "2", "task", "coin", "cost", "12", "actions", "1", "peek", "(", "ann", ",", "bob", ")",
    "end",
];

fn plan_tree(
    rt: &impl Abort,
    alloc: Global,
    text: &str,
) -> Result<Result<PlanTree, SyntaxError>, Fail> {
    let bytes = text.as_bytes();
    let found = tokens_of(rt, alloc, bytes)?;
    Ok(read_plan_lines(alloc, bytes, &found))
}

fn check_call(rt: &impl Abort, call: &CallTree, name: &str, token: u32, objects: &[&str]) {
    assert_eq!(rt; call.name.text.as_slice(), name.as_bytes());
    assert_eq!(rt; call.name.token, token);
    let args = call.args.as_slice();
    assert_eq!(rt; args.len(), objects.len());
    for (arg, object) in args.iter().zip(objects) {
        assert_eq!(rt; arg.text.as_slice(), object.as_bytes());
    }
}

// Each call with the number of its name's token and its objects.
fn check_spread(rt: &impl Abort, tree: &PlanTree) {
    let rows: [(&str, u32, &[&str]); 2] = [("twice", 6, &[]), ("peek", 7, &["ann", "bob"])];
    assert_eq!(rt; tree.task.text.as_slice(), b"coin".as_slice());
    assert_eq!(rt; tree.count, 12);
    let calls = tree.calls.as_slice();
    assert_eq!(rt; calls.len(), 2);
    for (call, (name, token, objects)) in calls.iter().zip(rows) {
        check_call(rt, call, name, token, objects);
    }
}

#[test]
fn calls_spread_over_lines(rt: HostRuntime) -> Result<(), Fail> {
    let tree = plan_tree(&rt, rt.alloc(), SPREAD)??;
    check_spread(&rt, &tree);
    Ok(())
}

// Texts, and the token that is at fault.
#[test]
fn refused_texts(rt: HostRuntime) -> Result<(), Fail> {
    let rows = [
        ("plan 1\ntask coin\nactions 1\npeek(an", 9),
        ("plan 01 task coin actions 0 end", 1),
        ("plan 3 task coin cost 7 actions 0 end", 1),
        ("plan 12 task coin actions 0 end", 1),
        ("plan two task coin cost 7 actions 0 end", 1),
        ("plan task coin actions 0 end", 1),
        ("plan 1 task coin cost 7 actions 0 end", 4),
        ("plan 2 task coin actions 0 end", 4),
        ("plan 2 task coin cost 07 actions 0 end", 5),
        ("plan 2 task coin cost actions 0 end", 5),
        ("plan 2 task coin cost 7 cost 7 actions 0 end", 6),
        ("plan 1 task end actions 0 end", 3),
        ("plan 1 task coin actions 01 peek end", 5),
        ("plan 1 task coin actions 1 peek() end", 8),
        ("plan 1 task coin actions 0", 6),
        ("plan 1 task coin actions 0 end end", 7),
        ("", 0),
    ];
    for (text, token) in rows {
        let found = plan_tree(&rt, rt.alloc(), text)?.err();
        assert_eq!(rt; found, Some(SyntaxError::Syntax { token }), "{text}");
    }
    Ok(())
}

fn check_costed(rt: &impl Abort, tree: &PlanTree, cost: Option<u32>) {
    assert_eq!(rt; tree.cost, cost);
    assert_eq!(rt; tree.task.text.as_slice(), b"coin".as_slice());
    assert_eq!(rt; tree.count, 1);
    let calls = tree.calls.as_slice();
    assert_eq!(rt; calls.len(), 1);
}

// The tokens that are left are the first tokens of a plan file, so the fault is their end.
#[test]
fn version_2_cut_at_each_token(rt: HostRuntime) -> Result<(), Fail> {
    let mut text = String::new(rt.alloc());
    for (left, word) in COSTED.iter().enumerate() {
        let found = plan_tree(&rt, rt.alloc(), text.as_str())?.err();
        let token = left as u32;
        assert_eq!(rt; found, Some(SyntaxError::Syntax { token }), "{text}");
        text = format!(in rt.alloc(); "{text} {word}")?;
    }
    let tree = plan_tree(&rt, rt.alloc(), text.as_str())??;
    check_costed(&rt, &tree, Some(12));
    Ok(())
}

#[test]
fn costs_of_plan_files(rt: HostRuntime) -> Result<(), Fail> {
    let rows = [
        ("plan 1 task coin actions 1 peek end", None),
        ("plan 2 task coin cost 0 actions 1 peek end", Some(0)),
        ("plan 2 task coin cost 101 actions 1 peek end", Some(101)),
        (
            "plan 2 task coin cost 999999999 actions 1 peek end",
            Some(999_999_999),
        ),
    ];
    for (text, cost) in rows {
        let tree = plan_tree(&rt, rt.alloc(), text)??;
        check_costed(&rt, &tree, cost);
    }
    Ok(())
}
