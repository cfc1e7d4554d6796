// Faults of types, tokens and nesting, and too many worlds.

use crate::memory::{answers, refuses};
use crate::texts::{INIT, PEOPLE, task_of};
use ep_cli::Status;
use std::alloc::{AllocError, Global};
use std::process::Abort;
use std::test::Fail;

#[test]
fn texts_past_the_limits_are_refused(rt: HostRuntime) -> Result<(), Fail> {
    for (byte, len, cause) in [
        (b' ', 1_048_576, "syntax at token 0, line 1"),
        (b' ', 1_048_577, "too long"),
        (b';', 262_144, "syntax at token 0, line 1"),
        (b';', 262_145, "too many tokens"),
    ] {
        let bytes = vec![in rt.alloc(); byte; len]?;
        refuses(&rt, rt.alloc(), &bytes, cause)?;
    }
    Ok(())
}

// An object that is no agent, and a fluent of it: they are behind `bob : agent;` and `heads;`.
const MIXED: &str = "ann, bob : agent; rex : object;";

const WET: &str = "heads; wet(agent);";

const TYPE_FAULTS: [([&str; 4], &str); 9] = [
    (
        [
            PEOPLE,
            "p(agent, agent, agent, agent, agent, agent, agent);",
            INIT,
            "true",
        ],
        "too many parameters at token 28, line 3",
    ),
    (
        ["ann, ann : agent;", "heads;", INIT, "true"],
        "duplicate name at token 7, line 2",
    ),
    (
        [PEOPLE, "heads;", INIT, "knows ann tails"],
        "unknown name at token 40, line 10",
    ),
    (
        [PEOPLE, "heads;", INIT, "heads(ann)"],
        "wrong number of arguments at token 38, line 10",
    ),
    (
        [MIXED, WET, INIT, "wet(rex)"],
        "wrong type at token 49, line 10",
    ),
    (
        [MIXED, WET, INIT, "knows rex heads"],
        "not an agent at token 48, line 10",
    ),
    (
        [PEOPLE, "heads;", INIT, "common { } heads"],
        "empty group at token 39, line 10",
    ),
    (
        [
            PEOPLE,
            "heads;",
            "init { vary { heads } law knows ann heads; designated true; }",
            "true",
        ],
        "knowledge not allowed at token 24, line 4",
    ),
    // The first of two.
    (
        ["ann : cat;", "heads;", INIT, "(heads and tails)"],
        "unknown name at token 7, line 2",
    ),
];

#[test]
fn type_faults_are_told_first(rt: HostRuntime) -> Result<(), Fail> {
    for (parts, cause) in TYPE_FAULTS {
        let task = task_of(rt.alloc(), parts)?;
        refuses(&rt, rt.alloc(), task.as_bytes(), cause)?;
    }
    Ok(())
}

// An initial state of so many worlds, all designated, with heads.
fn many_worlds(alloc: Global, count: u32) -> Result<String, Fail> {
    let mut worlds = String::new(alloc);
    let mut names = String::from_str(alloc, "w")?;
    for number in 0..count {
        worlds.push_str(format!(in alloc; "world w{number} {{ heads }} ")?.as_str())?;
        names.push_str(format!(in alloc; "{number}, w")?.as_str())?;
    }
    Ok(format!(in alloc; "init {{ {worlds} designated {{ {names}0 }} links all all; }}")?)
}

fn worlds(
    rt: &impl Abort,
    alloc: Global,
    count: u32,
    status: Status,
    text: &str,
) -> Result<(), Fail> {
    let init = many_worlds(alloc, count)?;
    let task = task_of(alloc, [PEOPLE, "heads;", init.as_str(), "knows bob heads"])?;
    answers(rt, alloc, task.as_bytes(), status, text)
}

#[test]
fn at_most_256_worlds(rt: HostRuntime) -> Result<(), Fail> {
    let rows = [
        (
            256,
            Status::Ok,
            "plan 1\ntask coin\n# shortest\nactions 0\nend\n",
        ),
        (
            257,
            Status::Refused,
            "refused: task: too many worlds: 257\n",
        ),
    ];
    for (count, status, text) in rows {
        worlds(&rt, rt.alloc(), count, status, text)?;
    }
    Ok(())
}

// That the goal is refused so, in the task of the coin.
fn refuses_goal(rt: &impl Abort, alloc: Global, goal: &str, cause: &str) -> Result<(), Fail> {
    let task = task_of(alloc, [PEOPLE, "heads;", INIT, goal])?;
    refuses(rt, alloc, task.as_bytes(), cause)
}

// So many negations, in the task of the coin.
fn nested(alloc: Global, count: usize) -> Result<String, Fail> {
    let nots = "not ".repeat(alloc, count)?;
    let goal = format!(in alloc; "{nots}heads")?;
    task_of(alloc, [PEOPLE, "heads;", INIT, goal.as_str()])
}

#[test]
fn faults_of_tokens_and_nesting(rt: HostRuntime) -> Result<(), Fail> {
    let whole = nested(rt.alloc(), 63)?;
    answers(&rt, rt.alloc(), whole.as_bytes(), Status::No, "none to 0\n")?;
    let deep = nested(rt.alloc(), 64)?;
    refuses(
        &rt,
        rt.alloc(),
        deep.as_bytes(),
        "too deep at token 102, line 10",
    )?;
    refuses_goal(&rt, rt.alloc(), "heads ?", "stray byte at 150")?;
    refuses_goal(&rt, rt.alloc(), "not", "syntax at token 39, line 10")
}

// The places at which tokens begin, where blanks stand between all of them.
fn starts(alloc: Global, bytes: &[u8]) -> Result<Vec<usize>, AllocError> {
    let mut all = Vec::new(alloc);
    let mut blank = true;
    for (i, byte) in bytes.iter().enumerate() {
        let is_blank = byte.is_ascii_whitespace();
        if blank && !is_blank {
            all.push(i)?;
        }
        blank = is_blank;
    }
    Ok(all)
}

const SPACED: &str = "task coin ;
objects { ann , bob : agent ; }
fluents { heads ; }
init {
world u { heads }
world v { }
designated { u }
links all all ;
}
goal knows ann heads ;
";

// The text before a token is refused at its end.
fn refuses_front(
    rt: &impl Abort,
    alloc: Global,
    bytes: &[u8],
    number: usize,
    start: usize,
) -> Result<(), Fail> {
    let front = bytes.get(..start).ok_or("no front")?;
    let feeds = front.iter().filter(|b| **b == b'\n').count();
    let line = feeds.checked_add(1).ok_or("too long")?;
    let cause = format!(in alloc; "syntax at token {number}, line {line}")?;
    refuses(rt, alloc, front, cause.as_str())
}

// The text up to each token goes on with that token: the end is at fault, with its line.
#[test]
fn a_task_cut_at_every_token(rt: HostRuntime) -> Result<(), Fail> {
    let starts = starts(rt.alloc(), SPACED.as_bytes())?;
    assert_eq!(rt; starts.len(), 42);
    for (number, start) in starts.iter().enumerate() {
        refuses_front(&rt, rt.alloc(), SPACED.as_bytes(), number, *start)?;
    }
    Ok(())
}
