//! The most worlds of an explicit initial state.

use crate::reading::{discard_typed, typed_task};
use ep_initial::{InitialError, check_worlds};
use ep_tree::{InitTree, WorldTree};
use ep_types::Typed;
use std::alloc::Global;
use std::process::Abort;
use std::test::Fail;

fn worlds_of(init: &InitTree) -> Option<&[WorldTree]> {
    match init {
        InitTree::Explicit { worlds, .. } => Some(worlds.as_slice()),
        InitTree::Lawful { .. } => None,
    }
}

// A task with so many worlds.
fn worlds(alloc: Global, count: u32) -> Result<String, Fail> {
    let mut text = String::from_str(
        alloc,
        "task t; objects { ann : agent; } fluents { } init { ",
    )?;
    for number in 0..count {
        text.push_str(format!(in alloc; "world w{number} {{ }} ")?.as_str())?;
    }
    text.push_str("designated { w0 } } goal true;")?;
    Ok(text)
}

fn check_count(rt: &impl Abort, typed: &Typed, most: bool) -> Result<(), Fail> {
    let judged = check_worlds(worlds_of(&typed.tree().init).ok_or("no worlds")?);
    assert_eq!(rt; judged.is_ok(), most);
    assert!(rt; most || matches!(judged, Err(InitialError::TooManyWorlds { count: 257 })));
    Ok(())
}

fn check_task(rt: &impl Abort, alloc: Global, count: u32, most: bool) -> Result<(), Fail> {
    let text = worlds(alloc, count)?;
    let typed = typed_task(rt, alloc, text.as_str())?;
    let held = check_count(rt, &typed, most);
    discard_typed(typed);
    held
}

#[test]
fn most_explicit_worlds(rt: HostRuntime) -> Result<(), Fail> {
    for (count, most) in [(1, true), (256, true), (257, false)] {
        check_task(&rt, rt.alloc(), count, most)?;
    }
    Ok(())
}
