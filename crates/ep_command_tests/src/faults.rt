// Faults of the library and the sink, and texts that are too long or come too late.

use crate::memory::{is_told, library, library_of_plans, ran, sink, tells, tells_of_plans};
use crate::tasks::{COIN, COIN0};
use ep_io::SinkFault;
use std::alloc::Global;
use std::process::Abort;
use std::test::Fail;

const PEEK: &str = "plan 1\ntask coin\nactions 1\npeek(ann)\nend\n";

fn cut_short(rt: &impl Abort, alloc: Global, kept: u32, text: &str) -> Result<(), Fail> {
    let mut files = library(alloc, COIN0, &[])?;
    let mut out = sink(alloc, &[SinkFault { call: 0, kept }])?;
    let status = ran(alloc, &["plan", "t", "--depth", "0"], &mut files, &mut out)?;
    is_told(rt, &out, status, 5, text);
    Ok(())
}

#[test]
fn a_failing_put_leaves_a_prefix(rt: HostRuntime) -> Result<(), Fail> {
    let prefixes = [
        "",
        "n",
        "no",
        "non",
        "none",
        "none ",
        "none t",
        "none to",
        "none to ",
        "none to 0",
        "none to 0\n",
    ];
    for kept in 0..11 {
        cut_short(&rt, rt.alloc(), kept, prefixes[kept as usize])?;
    }
    cut_short(&rt, rt.alloc(), 99, "none to 0\n")?;
    Ok(())
}

#[test]
fn a_failing_fetch_is_a_read_fault(rt: HostRuntime) -> Result<(), Fail> {
    let mut files = library(rt.alloc(), COIN0, &[0])?;
    let text = "fault: task cannot be read\n";
    tells(&rt, rt.alloc(), &mut files, &["check", "t"], 4, text)
}

// Neither the file nor the fault can be told.
#[test]
fn both_ends_fail(rt: HostRuntime) -> Result<(), Fail> {
    let mut files = library(rt.alloc(), COIN0, &[0])?;
    let mut out = sink(rt.alloc(), &[SinkFault { call: 0, kept: 0 }])?;
    let status = ran(
        rt.alloc(),
        &["plan", "t", "--depth", "0"],
        &mut files,
        &mut out,
    )?;
    is_told(&rt, &out, status, 5, "");
    Ok(())
}

fn fails_at(
    rt: &impl Abort,
    alloc: Global,
    words: &[&str],
    fetch: u32,
    text: &str,
) -> Result<(), Fail> {
    let mut files = library_of_plans(alloc, COIN, [PEEK, PEEK], &[fetch])?;
    tells(rt, alloc, &mut files, words, 4, text)
}

// The fetch with this number fails.
#[test]
fn faults_name_their_file(rt: HostRuntime) -> Result<(), Fail> {
    let rows: [(&[&str], u32, &str); 7] = [
        (&["validate", "t", "a"], 0, "fault: task cannot be read\n"),
        (&["validate", "t", "a"], 1, "fault: plan cannot be read\n"),
        (
            &["eval", "t", "a", "heads"],
            1,
            "fault: plan cannot be read\n",
        ),
        (&["same", "t", "a", "b"], 0, "fault: task cannot be read\n"),
        (
            &["same", "t", "a", "b"],
            1,
            "fault: first plan cannot be read\n",
        ),
        (
            &["same", "t", "a", "b"],
            2,
            "fault: second plan cannot be read\n",
        ),
        (
            &["apart", "t", "a", "b"],
            1,
            "fault: first plan cannot be read\n",
        ),
    ];
    for (words, fetch, text) in rows {
        fails_at(&rt, rt.alloc(), words, fetch, text)?;
    }
    Ok(())
}

// A text that is too long is told of its own subject.
#[test]
fn long_texts_are_refused(rt: HostRuntime) -> Result<(), Fail> {
    let blanks = " ".repeat(rt.alloc(), 1_048_577)?;
    let long = blanks.as_str();
    let plans = [long, ""];
    let plan = "refused: plan: too long\n";
    tells_of_plans(
        &rt,
        rt.alloc(),
        (COIN, plans),
        &["validate", "t", "a"],
        3,
        plan,
    )?;
    let words = ["eval", "t", "-", long];
    let formula = "refused: formula: too long\n";
    tells_of_plans(&rt, rt.alloc(), (COIN, ["", ""]), &words, 3, formula)
}

// The task is read before the plan file is fetched.
#[test]
fn the_task_comes_first(rt: HostRuntime) -> Result<(), Fail> {
    let text = "refused: task: syntax at token 0, line 1\n";
    let words = ["validate", "t", "u"];
    tells_of_plans(&rt, rt.alloc(), ("", ["", ""]), &words, 3, text)
}
