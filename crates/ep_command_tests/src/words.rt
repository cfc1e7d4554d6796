// Words that are told apart, and what `check` answers.

use crate::memory::{library, ran, sink, tells_of_task};
use crate::tasks::{COIN0, KINDS, PAIR, TOLL};
use ep_io::MemorySink;
use std::alloc::Global;
use std::process::Abort;
use std::test::Fail;

// Words, the task file `t`, and what is answered.
type Row = (&'static [&'static str], &'static str, u8, &'static str);

fn serves(rt: &impl Abort, alloc: Global, rows: &[Row]) -> Result<(), Fail> {
    for (words, task, code, text) in rows {
        tells_of_task(rt, alloc, task, words, *code, text)?;
    }
    Ok(())
}

const USAGE: &str = "usage: plan|validate|eval|state|contract|same|check|trial|apart\n";

const WORDS: [Row; 12] = [
    (&[], COIN0, 2, USAGE),
    (&["fly"], COIN0, 2, USAGE),
    (&["plan", ""], COIN0, 2, USAGE),
    (&["plan", "-x"], COIN0, 2, USAGE),
    (&["plan", "t", "--depth", "08"], COIN0, 2, USAGE),
    (&["plan", "t", "--depth", "1001"], COIN0, 2, USAGE),
    (
        &["plan", "t", "--cost", "7", "--depth", "3"],
        TOLL,
        2,
        USAGE,
    ),
    (
        &["plan", "t", "--depth", "3", "--cost", "7"],
        TOLL,
        2,
        USAGE,
    ),
    (&["trial", "9"], COIN0, 2, USAGE),
    (
        &["plan", "t", "--guide", "worlds"],
        COIN0,
        2,
        "usage: no such guide\n",
    ),
    (&["plan", "u"], COIN0, 3, "refused: task: no such file\n"),
    (
        &["check", "t"],
        "",
        3,
        "refused: task: syntax at token 0, line 1\n",
    ),
];

#[test]
fn words_are_told_apart(rt: HostRuntime) -> Result<(), Fail> {
    serves(&rt, rt.alloc(), &WORDS)?;
    Ok(())
}

const COIN0_CHECKED: &str = "# agents 2 objects 2 atoms 1 actions 0 worlds 2
task coin ;
objects { ann , bob : agent ;
}
fluents { heads ;
}
init {
world u { heads }
world v { }
designated { u }
links all all ;
}
goal knows ann heads ;
";

const PRICED: &str =
    "task t; frames s5; objects { ann : agent; } fluents { p; } init { world o { } designated { o } }
    action go cost 10 { announce true; } action say(a : agent) distinct cost 2 { announce p; } goal true;";

const PRICED_CHECKED: &str = "# agents 1 objects 1 atoms 1 actions 2 worlds 1
task t ;
frames s5 ;
objects { ann : agent ;
}
fluents { p ;
}
init {
world o { }
designated { o } }
action go cost 10 { announce true ;
}
action say ( a : agent ) distinct cost 2 { announce p ;
}
goal true ;
";

const CHECKED: [Row; 4] = [
    (&["check", "t"], COIN0, 0, COIN0_CHECKED),
    (&["check", "t"], PRICED, 0, PRICED_CHECKED),
    (
        &["check", "t"],
        "task t; objects { ann, bob : agent; } fluents { has(agent); } init { world o { } designated { o } }
        action swap(a : agent, b : agent) { assign when true { has(a) := has(b); has(b) := has(a); } } goal true;",
        3,
        "refused: task: atom set twice: swap(ann,ann)\n",
    ),
    (
        &["plan", "t"],
        "task t; objects { a, b, c, d, e, f, g, h, i : agent; } fluents { } init { world o { } designated { o } } goal true;",
        3,
        "refused: task: too many agents: 9\n",
    ),
];

#[test]
fn tasks_are_checked(rt: HostRuntime) -> Result<(), Fail> {
    serves(&rt, rt.alloc(), &CHECKED)?;
    Ok(())
}

// That the text begins with this line.
fn begins_with(rt: &impl Abort, out: &MemorySink, line: &str) {
    assert!(rt; out.bytes().starts_with(line.as_bytes()), "{line}");
}

fn counts(rt: &impl Abort, alloc: Global, task: &str, line: &str) -> Result<(), Fail> {
    let mut files = library(alloc, task, &[])?;
    let mut out = sink(alloc, &[])?;
    let status = ran(alloc, &["check", "t"], &mut files, &mut out)?;
    assert_eq!(rt; status.code(), 0);
    begins_with(rt, &out, line);
    Ok(())
}

// The first line of what `check` answers.
#[test]
fn counts_are_told_first(rt: HostRuntime) -> Result<(), Fail> {
    for (task, line) in [
        (PAIR, "# agents 2 objects 2 atoms 2 actions 2 worlds 1\n"),
        (KINDS, "# agents 2 objects 2 atoms 1 actions 3 worlds 1\n"),
    ] {
        counts(&rt, rt.alloc(), task, line)?;
    }
    Ok(())
}
