//! Printed states.

use crate::ground_tasks::{COIN, LETTER};
use crate::reading::{discard_task, ground_task};
use ep_base::{OutOfMemory, Text};
use ep_ground::{Task, print_state};
use std::alloc::Global;
use std::process::Abort;
use std::test::Fail;

// The text of the initial state of a task.
fn initial_text(rt: &impl Abort, alloc: Global, task: &Task) -> Result<Text, OutOfMemory> {
    let state = task.initial();
    assert!(rt; state.agents() == task.agents());
    assert!(rt; state.atoms() == task.atoms());
    print_state(alloc, task, state)
}

fn check_text(rt: &impl Abort, alloc: Global, text: &str, want: &str) -> Result<(), Fail> {
    let task = ground_task(rt, alloc, text)??;
    let told = initial_text(rt, alloc, &task);
    discard_task(task);
    assert_eq!(rt; told?.as_slice(), want.as_bytes());
    Ok(())
}

#[test]
fn texts_of_initial_states(rt: HostRuntime) -> Result<(), Fail> {
    let rows = [
        (
            COIN,
            "worlds 2\natom heads\nworld 0 1 designated\nworld 1 0\n\
            links ann 0: 0 1\nlinks ann 1: 0 1\nlinks bob 0: 0 1\nlinks bob 1: 0 1\n",
        ),
        (
            LETTER,
            "worlds 2\natom pass\nworld 0 0\nworld 1 1 designated\n\
            links ann 0: 0\nlinks ann 1: 1\nlinks bob 0: 0 1\nlinks bob 1: 0 1\n\
            links cat 0: 0 1\nlinks cat 1: 0 1\n",
        ),
    ];
    for (text, want) in rows {
        check_text(&rt, rt.alloc(), text, want)?;
    }
    Ok(())
}
