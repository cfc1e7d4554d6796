//! Certificates line by line, each with the verdict of its audit. All were worked out by hand.

use crate::tasks::{LOOK, Made, TALK, Task, build};
use ep_audit::{Audited, NamedTask, audit};
use std::alloc::Global;
use std::process::Abort;
use std::test::Fail;

// In state 0 nobody knows what the coin shows, in state 1 Ann does. At world 1 of each, the designated one, it shows heads.
const OF_LOOK: &[&str] = &[
    "cert 1\n",
    "task look\n",
    "none to cost 2\n",
    "states 2\n",
    "state 0 cost 0 000202000100010303030302\n",
    "state 1 cost 1 000202000100010102030302\n",
    "start map 1,0\n",
    "step 0 look to 1 map 0,1\n",
    "step 1 look to 1 map 0,1\n",
    "end\n",
];

const OF_TALK: &[&str] = &[
    "cert 1\n",
    "task talk\n",
    "none to cost 2\n",
    "states 2\n",
    "state 0 cost 0 000202000100010303030302\n",
    "state 1 cost 1 000202000100010102030302\n",
    "start map 1,0\n",
    "step 0 look to 1 map 0,1\n",
    "step 0 deny stuck 1\n",
    "step 1 look to 1 map 0,1\n",
    "end\n",
];

// Lines by their places, counted from 0, and what stands there.
type Changes = &'static [(usize, &'static str)];

fn line_at(place: usize, line: &'static str, changes: Changes) -> &'static str {
    for (at, other) in changes {
        if *at == place {
            return *other;
        }
    }
    line
}

fn changed(
    alloc: Global,
    lines: &'static [&'static str],
    changes: Changes,
) -> Result<Vec<u8>, Fail> {
    let mut bytes = Vec::new(alloc);
    for (place, line) in lines.iter().enumerate() {
        bytes.extend_from_slice(line_at(place, *line, changes).as_bytes())?;
    }
    Ok(bytes)
}

fn judged(rt: &impl Abort, alloc: Global, made: &Made, bytes: &[u8]) -> Result<Audited, Fail> {
    assert!(rt; made.action_names.as_slice().len() == made.problem.actions() as usize);
    assert!(rt; bytes.len() <= 1000);
    let names = made.action_names.as_slice();
    let task = NamedTask::new(&made.name, &made.problem, names);
    Ok(audit(alloc, &task, bytes)?)
}

fn check(
    rt: &impl Abort,
    alloc: Global,
    task: &Task,
    lines: &'static [&'static str],
    changes: Changes,
    verdict: Audited,
) -> Result<(), Fail> {
    let made = build(rt, alloc, task)?;
    let bytes = changed(alloc, lines, changes)?;
    assert_eq!(rt; judged(rt, alloc, &made, &bytes)?, verdict);
    Ok(())
}

// The certificate as it stands, with bounds at which the same lines are due and with one at which a step less is; with
// state 0 in another order of its worlds, so that its bytes are not canonical; and with a state that no plan leaves, where
// two pairs of its worlds are alike.
const RIGHT: &[(Changes, u32)] = &[
    (&[], 2),
    (&[(2, "none to cost 3\n")], 3),
    (&[(2, "none to cost 1000\n")], 1000),
    (&[(2, "none to cost 1\n"), (8, "")], 1),
    (
        &[
            (4, "state 0 cost 0 000202000101000303030301\n"),
            (6, "start map 0,1\n"),
            (7, "step 0 look to 1 map 1,0\n"),
        ],
        2,
    ),
    (
        &[
            (3, "states 3\n"),
            (
                6,
                "state 2 cost 1 0004020001000001010f0f0f0f0f0f0f0f08\nstart map 1,0\n",
            ),
            (9, "step 2 look to 1 map 0,0,1,1\nend\n"),
        ],
        2,
    ),
];

#[test]
fn right_certificates_prove_their_bounds(rt: HostRuntime) -> Result<(), Fail> {
    for (changes, bound) in RIGHT {
        let verdict = Audited::Proves { bound: *bound };
        check(&rt, rt.alloc(), &LOOK, OF_LOOK, *changes, verdict)?;
    }
    let verdict = Audited::Proves { bound: 2 };
    check(&rt, rt.alloc(), &TALK, OF_TALK, &[], verdict)
}

const WRONG: &[(Changes, u32)] = &[
    // another header, two spaces, a carriage return
    (&[(0, "cert 2\n")], 1),
    (&[(0, "cert  1\n")], 1),
    (&[(0, "cert 1\r\n")], 1),
    // another task, and one whose name goes on
    (&[(1, "task talk\n")], 2),
    (&[(1, "task looks\n")], 2),
    // a bound with a leading zero, with a sign, past the greatest
    (&[(2, "none to cost 02\n")], 3),
    (&[(2, "none to cost +2\n")], 3),
    (&[(2, "none to cost 1001\n")], 3),
    // a bound below the cost of a state, and one at which the second step is not due
    (&[(2, "none to cost 0\n")], 6),
    (&[(2, "none to cost 1\n")], 9),
    // no state, too many, one less than is listed, one more
    (&[(3, "states 0\n")], 4),
    (&[(3, "states 16385\n")], 4),
    (&[(3, "states 1\n")], 6),
    (&[(3, "states 3\n")], 7),
    // no digit, half a byte, a byte less, no designated world
    (&[(4, "state 0 cost 0 00020200010001030303030Z\n")], 5),
    (&[(4, "state 0 cost 0 00020200010001030303030\n")], 5),
    (&[(4, "state 0 cost 0 0002020001000103030303\n")], 5),
    (&[(4, "state 0 cost 0 000202000100010303030300\n")], 5),
    // upper-case digits
    (
        &[
            (3, "states 3\n"),
            (
                6,
                "state 2 cost 1 0004020001000001010F0F0F0F0F0F0F0F08\nstart map 1,0\n",
            ),
        ],
        7,
    ),
    // a first state that costs something, a state in another place, one past the bound
    (&[(4, "state 0 cost 1 000202000100010303030302\n")], 5),
    (&[(5, "state 2 cost 1 000202000100010102030302\n")], 6),
    (&[(5, "state 1 cost 3 000202000100010102030302\n")], 6),
    // a state where Bob knows that the coin shows heads, one of three agents
    (&[(5, "state 1 cost 1 000202000100010102010202\n")], 6),
    (&[(5, "state 1 cost 1 0002030001000101020303030302\n")], 6),
    // maps to worlds with other truth values, of too few worlds, of too many, to no world, of one world alone
    (&[(6, "start map 0,1\n")], 7),
    (&[(6, "start map 1\n")], 7),
    (&[(6, "start map 1,0,-\n")], 7),
    (&[(6, "start map 1,2\n")], 7),
    (&[(6, "start map 1,-\n")], 7),
    (&[(6, "start map 1,0")], 7),
    // each link of state 0 is one of the initial state, and not each the other way
    (&[(4, "state 0 cost 0 000202000100010102030302\n")], 7),
    // each link of the product is one of state 0, and not each the other way
    (&[(7, "step 0 look to 0 map 0,1\n")], 8),
    // no such action, another state
    (&[(7, "step 0 peek to 1 map 0,1\n")], 8),
    (&[(7, "step 1 look to 1 map 0,1\n")], 8),
    // a world where the action is not stuck, a state that costs too much, no such state
    (&[(7, "step 0 look stuck 1\n")], 8),
    (&[(5, "state 1 cost 2 000202000100010102030302\n")], 8),
    (&[(7, "step 0 look to 2 map 0,1\n")], 8),
    // another map, a space behind it, a step less
    (&[(7, "step 0 look to 1 map 1,1\n")], 8),
    (&[(7, "step 0 look to 1 map 0,1 \n")], 8),
    (&[(7, "")], 8),
    (&[(8, "")], 9),
    // no end, one without its line feed, more behind it
    (&[(9, "")], 10),
    (&[(9, "end")], 10),
    (&[(9, "end\nx")], 10),
    (&[(9, "end\n\n")], 10),
];

#[test]
fn the_first_line_that_breaks_its_rule_is_told(rt: HostRuntime) -> Result<(), Fail> {
    for (changes, line) in WRONG {
        let verdict = Audited::Wrong { line: *line };
        check(&rt, rt.alloc(), &LOOK, OF_LOOK, *changes, verdict)?;
    }
    Ok(())
}

// The action is stuck at world 1 alone, and past the bound in state 1.
const WRONGLY_STUCK: &[(Changes, u32)] = &[
    (&[(8, "step 0 deny stuck 0\n")], 9),
    (&[(8, "step 0 deny stuck 2\n")], 9),
    (&[(8, "step 0 deny stuck 01\n")], 9),
    (&[(8, "step 0 deny to 1 map 0,1\n")], 9),
    (&[(8, "")], 9),
    (&[(7, "step 0 look stuck 1\n")], 8),
    (&[(10, "step 1 deny stuck 1\nend\n")], 11),
];

#[test]
fn an_action_has_to_be_stuck(rt: HostRuntime) -> Result<(), Fail> {
    for (changes, line) in WRONGLY_STUCK {
        let verdict = Audited::Wrong { line: *line };
        check(&rt, rt.alloc(), &TALK, OF_TALK, *changes, verdict)?;
    }
    Ok(())
}
