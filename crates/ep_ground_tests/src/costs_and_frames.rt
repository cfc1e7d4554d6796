//! The costs of ground actions, and relations that are to be equivalences.

use crate::reading::{discard_task, ground_task};
use ep_ground::{GroundError, S5Place, Task};
use ep_logic::ActionId;
use std::alloc::Global;
use std::process::Abort;
use std::test::Fail;

// Its ground actions are fly, walk, rest(ann) and rest(bob).
const TOLL: &str = "task toll; objects { ann, bob : agent; } fluents { mid; done; } \
    init { world o { } designated { o } } \
    action fly cost 10 { assign when true { done := true; } } \
    action walk cost 1 { assign when not mid { mid := true; } } \
    action rest(a : agent) { assign when mid { mid := false; } } goal done;";

// What stands before the links of the initial state, and between them and the actions.
const PARTS: [&str; 2] = [
    "task coin; frames s5; objects { ann, bob : agent; } fluents { heads; } \
    init { world u { heads } world v { } designated { u }",
    "}",
];

fn check_cost(rt: &impl Abort, task: &Task, n: u32, cost: u32) {
    assert!(rt; n < task.problem().actions());
    assert_eq!(rt; task.cost(ActionId { n }), cost);
}

// An action whose schema states no cost costs what one does that states 1.
#[test]
fn costs_of_ground_actions(rt: HostRuntime) -> Result<(), Fail> {
    let task = ground_task(&rt, rt.alloc(), TOLL)??;
    for (n, cost) in [(0, 10), (1, 1), (2, 1), (3, 1)] {
        check_cost(&rt, &task, n, cost);
    }
    discard_task(task);
    Ok(())
}

fn says_s5(rt: &impl Abort, alloc: Global, text: &str) -> Result<bool, Fail> {
    let task = ground_task(rt, alloc, text)??;
    let s5 = task.s5();
    discard_task(task);
    Ok(s5)
}

// The relations of both are equivalences, and one task says so.
#[test]
fn tasks_that_say_frames(rt: HostRuntime) -> Result<(), Fail> {
    let rows = [
        (TOLL, false),
        (
            "task still; frames s5; objects { ann : agent; } fluents { } \
            init { world o { } designated { o } } goal true;",
            true,
        ),
    ];
    for (text, s5) in rows {
        assert_eq!(rt; says_s5(&rt, rt.alloc(), text)?, s5);
    }
    Ok(())
}

fn frames_fault(
    rt: &impl Abort,
    alloc: Global,
    links: &str,
    actions: &str,
) -> Result<Option<GroundError>, Fail> {
    let text = format!(in alloc; "{} {links} {} {actions} goal heads;", PARTS[0], PARTS[1])?;
    match ground_task(rt, alloc, text.as_str())? {
        Ok(task) => {
            discard_task(task);
            Ok(None)
        }
        Err(error) => Ok(Some(error)),
    }
}

// Links of a state and actions, and what is told of them.
const UNEQUAL: [(&str, &str, &str); 9] = [
    (
        "links all { u -> v };",
        "",
        "not s5: initial state, agent ann",
    ),
    (
        "links { bob } { u -> v };",
        "",
        "not s5: initial state, agent bob",
    ),
    (
        "links { ann } { u -> u };",
        "",
        "not s5: initial state, agent ann",
    ),
    (
        "links { ann } { u -> v, u -> u, v -> v };",
        "",
        "not s5: initial state, agent ann",
    ),
    (
        "links all all;",
        "action hear(a : agent) { event e pre true { } event f pre true { } designated { e } \
        links { bob } { e -> f, f -> f }; }",
        "not s5: hear(ann), agent bob",
    ),
    (
        "",
        "action hear { event e pre true { } designated { e } links all { }; }",
        "not s5: hear, agent ann",
    ),
    (
        "",
        "action look { sense heads by all; } action tell { event e pre true { } designated { e } \
        links { ann } { }; }",
        "not s5: tell, agent ann",
    ),
    (
        "",
        "action tell(a : agent) { private heads to { a }; }",
        "not s5: tell(ann), agent bob",
    ),
    (
        "links { bob } { u -> v };",
        "action hear { event e pre true { } designated { e } links all { }; }",
        "not s5: initial state, agent bob",
    ),
];

#[test]
fn relations_that_are_no_equivalences(rt: HostRuntime) -> Result<(), Fail> {
    for (links, actions, want) in UNEQUAL {
        let error = frames_fault(&rt, rt.alloc(), links, actions)?.ok_or("no fault")?;
        let text = format!(in rt.alloc(); "{error}")?;
        assert_eq!(rt; text.as_str(), want);
    }
    Ok(())
}

#[test]
fn relations_of_the_initial_state(rt: HostRuntime) -> Result<(), Fail> {
    let found = frames_fault(&rt, rt.alloc(), "links { bob } { u -> v };", "")?;
    let Some(GroundError::NotS5 { place, agent }) = found else {
        return Err("no relation is told".into());
    };
    assert!(rt; matches!(place, S5Place::Initial));
    assert_eq!(rt; agent.as_slice(), "bob".as_bytes());
    Ok(())
}

#[test]
fn relations_of_actions(rt: HostRuntime) -> Result<(), Fail> {
    let tell = "action tell(a : agent) { private heads to { a }; }";
    let found = frames_fault(&rt, rt.alloc(), "", tell)?;
    let Some(GroundError::NotS5 { place, agent }) = found else {
        return Err("no relation is told".into());
    };
    assert_eq!(rt; agent.as_slice(), "bob".as_bytes());
    let S5Place::Action { name } = place else {
        return Err("no relation of an action".into());
    };
    assert_eq!(rt; name.as_slice(), "tell(ann)".as_bytes());
    Ok(())
}

// Reflexive, symmetric and transitive relations are no fault, and others are none where the task does not say `frames`.
#[test]
fn relations_that_are_equivalences(rt: HostRuntime) -> Result<(), Fail> {
    let actions = "action look(a : agent) { sense heads by { a }; } action say { announce heads; }";
    for links in [
        "",
        "links all all;",
        "links { ann } all; links { bob } same;",
    ] {
        let found = frames_fault(&rt, rt.alloc(), links, actions)?;
        assert!(rt; found.is_none());
    }
    Ok(())
}
