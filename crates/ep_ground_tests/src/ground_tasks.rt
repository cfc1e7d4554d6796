//! Ground tasks: their names and parts, and the faults of those that are none.

use crate::reading::{discard_task, ground_task};
use ep_ground::{GroundError, Task};
use ep_logic::{ActionId, AgentId, AtomId, Node};
use std::alloc::Global;
use std::process::Abort;
use std::test::Fail;

const KINDS: &str = "task kinds; types { child < agent; } objects { ann : agent; kid : child; } \
    fluents { wet(child); } init { world o { wet(kid) } designated { o } } \
    action look(a : agent) { sense wet(kid) by { a }; } \
    action dry(c : child) { assign when wet(c) { wet(c) := false; } } goal not wet(kid);";

pub const COIN: &str = "task coin; objects { ann, bob : agent; } fluents { heads; } \
    init { world u { heads } world v { } designated { u } links all all; } \
    action peek(a : agent) { sense heads by { a }; } \
    goal (knows ann heads and not knows bob heads);";

const PAIR: &str = "task pair; objects { ann, bob : agent; } fluents { has(agent); } \
    init { world o { has(ann) } designated { o } } \
    action swap(a : agent, b : agent) { assign when true { has(a) := has(b); has(b) := has(a); } } \
    goal has(bob);";

const NINE: &str = "task nine; objects { a, b, c, d, e, f, g, h, i : agent; } fluents { } \
    init { world o { } designated { o } } goal true;";

pub const LETTER: &str = "task letter; objects { ann, bob, cat : agent; } fluents { pass; } init { \
    vary { pass } law true; sees { ann } { pass } designated pass; } \
    action whisper(a : agent, b : agent) distinct { private knows a pass to { a, b }; } \
    goal (knows bob pass and not knows cat pass and knows ann knows bob pass);";

const MANY: &str =
    "task many; objects { ann : agent; a, b, c, d, e, f, g, h, i, j, k, l : object; } \
    fluents { on(object); } init { vary { on(a), on(b), on(c), on(d), on(e), on(f), on(g), on(h), on(i), \
    on(j), on(k), on(l), on(ann) } law true; designated true; } goal true;";

const NOWHERE: &str = "task nowhere; objects { ann : agent; } fluents { p; } init { \
    vary { p } law p; designated not p; } goal true;";

fn check_agent(rt: &impl Abort, task: &Task, n: u32, name: &str) {
    assert!(rt; n < task.agents());
    assert_eq!(rt; task.agent_name(AgentId { n }).as_slice(), name.as_bytes());
}

fn check_atom(rt: &impl Abort, task: &Task, n: u32, name: &str) {
    assert!(rt; n < task.atoms());
    assert_eq!(rt; task.atom_name(AtomId { n }).as_slice(), name.as_bytes());
}

fn check_action(rt: &impl Abort, task: &Task, n: u32, name: &str) {
    assert!(rt; n < task.actions());
    assert_eq!(rt;
        task.action_name(ActionId { n }).as_slice(),
        name.as_bytes()
    );
}

fn check_names(rt: &impl Abort, task: &Task) {
    assert_eq!(rt; task.name().as_slice(), "kinds".as_bytes());
    check_agent(rt, task, 1, "kid");
    check_atom(rt, task, 0, "wet(kid)");
    for (n, name) in [(0, "look(ann)"), (1, "look(kid)"), (2, "dry(kid)")] {
        check_action(rt, task, n, name);
    }
}

fn check_look_up(rt: &impl Abort, task: &Task) {
    assert_eq!(rt; task.action_by_name(b"dry(kid)"), Some(ActionId { n: 2 }));
    assert_eq!(rt; task.action_by_name(b"dry(ann)"), None);
}

#[test]
fn names_of_a_ground_task(rt: HostRuntime) -> Result<(), Fail> {
    let task = ground_task(&rt, rt.alloc(), KINDS)??;
    check_names(&rt, &task);
    check_look_up(&rt, &task);
    discard_task(task);
    Ok(())
}

fn check_numbers(rt: &impl Abort, task: &Task) {
    let found = [task.agents(), task.objects(), task.atoms(), task.actions()];
    assert_eq!(rt; found, [2, 2, 1, 3]);
}

fn check_events(rt: &impl Abort, task: &Task) {
    assert_eq!(rt; task.problem().actions(), 3);
    assert_eq!(rt; task.action(ActionId { n: 2 }).events(), 1);
}

fn check_parts(rt: &impl Abort, task: &Task) {
    assert_eq!(rt; task.initial().worlds(), 1);
    assert!(rt; matches!(task.goal().node(), Node::Not(_)));
    assert_eq!(rt; task.typed().object_count(), 2);
}

#[test]
fn parts_of_a_ground_task(rt: HostRuntime) -> Result<(), Fail> {
    let task = ground_task(&rt, rt.alloc(), KINDS)??;
    check_numbers(&rt, &task);
    check_events(&rt, &task);
    check_parts(&rt, &task);
    discard_task(task);
    Ok(())
}

fn fault(grounded: Result<Task, GroundError>) -> Option<GroundError> {
    match grounded {
        Ok(task) => {
            discard_task(task);
            None
        }
        Err(error) => Some(error),
    }
}

fn ground_fault(rt: &impl Abort, alloc: Global, text: &str) -> Result<Option<GroundError>, Fail> {
    Ok(fault(ground_task(rt, alloc, text)?))
}

fn check_atom_twice(rt: &impl Abort, alloc: Global) -> Result<(), Fail> {
    let Some(GroundError::AtomTwice { name }) = ground_fault(rt, alloc, PAIR)? else {
        return Err("no atom set twice".into());
    };
    assert_eq!(rt; name.as_slice(), "swap(ann,ann)".as_bytes());
    Ok(())
}

#[test]
fn refused_tasks(rt: HostRuntime) -> Result<(), Fail> {
    check_atom_twice(&rt, rt.alloc())?;
    let nine = ground_fault(&rt, rt.alloc(), NINE)?;
    assert!(rt; matches!(nine, Some(GroundError::TooManyAgents { count: 9 })));
    let many = ground_fault(&rt, rt.alloc(), MANY)?;
    assert!(rt; matches!(many, Some(GroundError::TooManyVaried { count: 13 })));
    let nowhere = ground_fault(&rt, rt.alloc(), NOWHERE)?;
    assert!(rt; matches!(nowhere, Some(GroundError::NoDesignated)));
    Ok(())
}
