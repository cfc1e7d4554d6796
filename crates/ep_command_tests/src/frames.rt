// What is answered for tasks whose relations are to be equivalences.

use crate::memory::tells_of_task;
use crate::tasks::{COIN, COIN0, FAR, MSG};
use std::alloc::Global;
use std::process::Abort;
use std::test::Fail;

// A task, a part of it with what stands in its place, the words, and what is answered.
type Row = (
    &'static str,
    (&'static str, &'static str),
    &'static str,
    u8,
    &'static str,
);

const KEPT: (&'static str, &'static str) = ("goal", "goal");

const PEEKED: &str = "plan 1\ntask coin\n# shortest\nactions 1\npeek(ann)\nend\n";

const ROWS: [Row; 7] = [
    (COIN, KEPT, "plan", 0, PEEKED),
    (
        MSG,
        KEPT,
        "check",
        3,
        "refused: task: not s5: only, agent bob\n",
    ),
    (
        FAR,
        KEPT,
        "check",
        3,
        "refused: task: not s5: three, agent ann\n",
    ),
    (
        COIN0,
        ("links all all", "links { ann } { u -> v }"),
        "check",
        3,
        "refused: task: not s5: initial state, agent ann\n",
    ),
    // Reflexive, and still no equivalence.
    (
        COIN0,
        ("links all all", "links { bob } { u -> u, u -> v, v -> v }"),
        "check",
        3,
        "refused: task: not s5: initial state, agent bob\n",
    ),
    // The initial state comes before the actions.
    (
        MSG,
        ("links all all", "links { bob } { u -> v }"),
        "plan",
        3,
        "refused: task: not s5: initial state, agent bob\n",
    ),
    // A private message to everyone is an equivalence.
    (
        MSG,
        ("to { ann }", "to all"),
        "plan",
        0,
        "plan 1\ntask msg\n# shortest\nactions 1\nboth\nend\n",
    ),
];

fn answers_framed(rt: &impl Abort, alloc: Global, row: &Row) -> Result<(), Fail> {
    let (task, (part, other), word, code, text) = row;
    let changed = task.replace(alloc, *part, other)?;
    let framed = changed.replace(alloc, "objects {", "frames s5;\nobjects {")?;
    tells_of_task(rt, alloc, framed.as_str(), &[*word, "t"], *code, text)
}

#[test]
fn frames_are_tested(rt: HostRuntime) -> Result<(), Fail> {
    for row in ROWS {
        answers_framed(&rt, rt.alloc(), &row)?;
    }
    Ok(())
}

#[test]
fn other_frames_are_refused(rt: HostRuntime) -> Result<(), Fail> {
    let framed = COIN.replace(rt.alloc(), "objects {", "frames s4;\nobjects {")?;
    let text = "refused: task: syntax at token 4, line 2\n";
    tells_of_task(&rt, rt.alloc(), framed.as_str(), &["plan", "t"], 3, text)
}
