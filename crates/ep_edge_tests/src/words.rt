//! From words to a command.

use ep_bounds::{Measure, Mode};
use ep_words::{Command, Usage, read_words};
use std::alloc::{AllocError, Global};
use std::process::Abort;
use std::test::Fail;

// Words, the name of their command and its numbers. Those of a plan are the bound, the states, the worlds and
// the guide.
type Row = (&'static [&'static str], &'static str, &'static [u32]);

const PLANS: [Row; 7] = [
    (&["plan", "a"], "plan", &[8, 1000, 256, 0]),
    (&["plan", "a", "--depth", "0"], "plan", &[0, 1000, 256, 0]),
    (
        &["plan", "a", "--cost", "0"],
        "plan by cost",
        &[0, 1000, 256, 0],
    ),
    (
        &["plan", "a", "--worlds", "2", "--cost", "1000"],
        "plan by cost",
        &[1000, 1000, 2, 0],
    ),
    (
        &["plan", "a", "--guide", "unmet", "--depth", "1000"],
        "plan",
        &[1000, 1000, 256, 1],
    ),
    (
        &["plan", "a", "--guide", "depth", "--depth", "7"],
        "plan",
        &[7, 1000, 256, 0],
    ),
    (
        &[
            "plan", "a", "--first", "yes", "--worlds", "1", "--states", "16384", "--guide",
            "worlds",
        ],
        "first plan",
        &[8, 16384, 1, 2],
    ),
];

const OTHERS: [Row; 10] = [
    (&["validate", "a", "-"], "validate", &[]),
    (&["validate", "a", "b"], "validate", &[]),
    (&["eval", "a", "-", "--x"], "eval", &[]),
    (&["state", "a", "b"], "state", &[]),
    (&["contract", "a", "-"], "contract", &[]),
    (&["same", "a", "-", "b"], "same", &[]),
    (&["check", "a"], "check", &[]),
    (&["trial", "1"], "trial", &[1]),
    (&["trial", "8"], "trial", &[8]),
    (&["apart", "a", "-", "b"], "apart", &[]),
];

const REFUSED: [&[&str]; 30] = [
    &[],
    &["fly"],
    &["plan"],
    &["plan", ""],
    &["plan", "-x"],
    &["plan", "-"],
    &["plan", "a", "--depth"],
    &["plan", "a", "--depth", "1001"],
    &["plan", "a", "--depth", "08"],
    &["plan", "a", "--depth", "+8"],
    &["plan", "a", "--depth", "-0"],
    &["plan", "a", "--depth", ""],
    &["plan", "a", "--depth", "1", "--depth", "1"],
    &["plan", "a", "--cost", "1001"],
    &["plan", "a", "--cost", "1", "--cost", "1"],
    &["plan", "a", "--depth", "3", "--cost", "7"],
    &["plan", "a", "--cost", "7", "--depth", "3"],
    &["plan", "a", "--first", "yes", "--first", "yes"],
    &["plan", "a", "--states", "0"],
    &["plan", "a", "--states", "16385"],
    &["plan", "a", "--worlds", "257"],
    &["plan", "a", "--guide", "best"],
    &["plan", "a", "--first", "no"],
    &["validate", "a", "-x"],
    &["eval", "a", "-"],
    &["same", "a", "b"],
    &["check", "a", "b"],
    &["trial", "9"],
    &["trial", "0"],
    &["apart", "a", "-x", "-"],
];

fn strings(alloc: Global, words: &[&str]) -> Result<Vec<String>, AllocError> {
    let mut all = Vec::new(alloc);
    for word in words {
        all.push(String::from_str(alloc, word)?)?;
    }
    Ok(all)
}

fn read(alloc: Global, words: &[&str]) -> Result<Result<Command, Usage>, AllocError> {
    let words = strings(alloc, words)?;
    Ok(read_words(&words))
}

fn plan_name(measure: Measure, mode: Mode) -> &'static str {
    match measure {
        Measure::Cost => "plan by cost",
        Measure::Length => match mode {
            Mode::Prove => "plan",
            Mode::First => "first plan",
        },
    }
}

fn name(found: &Result<Command, Usage>) -> &'static str {
    match found {
        Ok(Command::Plan { bounds, mode, .. }) => plan_name(bounds.measure, *mode),
        Ok(Command::Validate) => "validate",
        Ok(Command::Eval) => "eval",
        Ok(Command::State) => "state",
        Ok(Command::Contract) => "contract",
        Ok(Command::Same) => "same",
        Ok(Command::Check) => "check",
        Ok(Command::Trial { .. }) => "trial",
        Ok(Command::Apart) => "apart",
        Err(Usage {}) => "usage",
    }
}

fn check_numbers(rt: &impl Abort, found: &Result<Command, Usage>, wanted: &[u32]) {
    match found {
        Ok(Command::Plan { bounds, guide, .. }) => {
            let numbers = [bounds.bound, bounds.states, bounds.worlds, *guide];
            assert_eq!(rt; numbers.as_slice(), wanted);
        }
        Ok(Command::Trial { children }) => assert_eq!(rt; [*children].as_slice(), wanted),
        _ => assert!(rt; wanted.is_empty()),
    }
}

fn check(rt: &impl Abort, alloc: Global, rows: &[Row]) -> Result<(), Fail> {
    for (words, wanted, numbers) in rows {
        let found = read(alloc, words)?;
        assert_eq!(rt; name(&found), *wanted);
        check_numbers(rt, &found, numbers);
    }
    Ok(())
}

#[test]
fn each_command_is_told(rt: HostRuntime) -> Result<(), Fail> {
    check(&rt, rt.alloc(), &PLANS)?;
    check(&rt, rt.alloc(), &OTHERS)
}

#[test]
fn other_words_are_refused(rt: HostRuntime) -> Result<(), Fail> {
    for words in REFUSED {
        let found = read(rt.alloc(), words)?;
        assert_eq!(rt; name(&found), "usage", "{words:?}");
    }
    Ok(())
}
