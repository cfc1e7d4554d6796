//! Initial states of the lawful form.

use crate::reading::{discard_task, ground_task};
use ep_ground::{GroundError, Task};
use ep_kripke::State;
use ep_logic::{AgentId, AtomId, OutOfMemory, WorldId};
use std::alloc::Global;
use std::process::Abort;
use std::test::Fail;

// The truth of each atom at a world, as digits.
fn check_row(rt: &impl Abort, state: &State, world: u32, row: &str) {
    assert!(rt; world < state.worlds());
    assert_eq!(rt; state.atoms() as usize, row.len());
    for (atom, digit) in row.as_bytes().iter().enumerate() {
        let p = AtomId { n: atom as u32 };
        assert!(rt; p.n < state.atoms());
        assert_eq!(rt; state.holds_atom(WorldId { n: world }, p), *digit == b'1');
    }
}

fn check_targets(
    rt: &impl Abort,
    alloc: Global,
    state: &State,
    link: (u32, u32),
    targets: &[u32],
) -> Result<(), OutOfMemory> {
    let (agent, world) = link;
    assert!(rt; agent < state.agents() && world < state.worlds());
    let mut found = Vec::new(alloc);
    state.read_targets(AgentId { n: agent }, WorldId { n: world }, &mut found)?;
    assert_eq!(rt; found.as_slice(), targets);
    Ok(())
}

// A letter that ann may have read.
fn letter(alloc: Global, law: &str, designated: &str) -> Result<String, Fail> {
    Ok(format!(in alloc;
        "task letter; objects {{ ann, bob, cat : agent; }} fluents {{ pass; }} init {{ \
        vary {{ pass }} law {law}; sees {{ ann }} {{ pass }} designated {designated}; }} goal true;"
    )?)
}

// Ann tells the two worlds apart, and an agent that sees nothing does not.
fn check_letter(rt: &impl Abort, alloc: Global, task: &Task) -> Result<(), OutOfMemory> {
    let state = task.initial();
    assert_eq!(rt; state.worlds(), 2);
    check_row(rt, state, 0, "0");
    check_row(rt, state, 1, "1");
    assert_eq!(rt; state.designated(), [1u32].as_slice());
    let rows: [(u32, u32, &[u32]); 6] = [
        (0, 0, &[0]),
        (0, 1, &[1]),
        (1, 0, &[0, 1]),
        (1, 1, &[0, 1]),
        (2, 0, &[0, 1]),
        (2, 1, &[0, 1]),
    ];
    for (agent, world, targets) in rows {
        check_targets(rt, alloc, state, (agent, world), targets)?;
    }
    Ok(())
}

#[test]
fn who_sees_the_letter(rt: HostRuntime) -> Result<(), Fail> {
    let text = letter(rt.alloc(), "true", "pass")?;
    let task = ground_task(&rt, rt.alloc(), text.as_str())??;
    check_letter(&rt, rt.alloc(), &task)?;
    discard_task(task);
    Ok(())
}

const CHOICE: &str = "task choice; objects { ann : agent; } fluents { p; q; r; s; } init { \
    vary { q, p, q } facts { r } law (p or q); sees { ann } { p, s } sees all { q } designated p; } goal true;";

// The worlds are in the order of the varied atoms as they are written, a fact is true, and the later `sees` item counts.
fn check_choice(rt: &impl Abort, alloc: Global, task: &Task) -> Result<(), OutOfMemory> {
    let state = task.initial();
    assert_eq!(rt; state.worlds(), 3);
    for (world, row) in [(0, "1010"), (1, "0110"), (2, "1110")] {
        check_row(rt, state, world, row);
    }
    assert_eq!(rt; state.designated(), [0u32, 2].as_slice());
    let rows: [(u32, &[u32]); 3] = [(0, &[0]), (1, &[1, 2]), (2, &[1, 2])];
    for (world, targets) in rows {
        check_targets(rt, alloc, state, (0, world), targets)?;
    }
    Ok(())
}

#[test]
fn worlds_in_the_order_of_varied_atoms(rt: HostRuntime) -> Result<(), Fail> {
    let task = ground_task(&rt, rt.alloc(), CHOICE)??;
    check_choice(&rt, rt.alloc(), &task)?;
    discard_task(task);
    Ok(())
}

// Twelve atoms that are varied, one of them twice.
fn most(alloc: Global, law: &str, designated: &str) -> Result<String, Fail> {
    Ok(format!(in alloc;
        "task most; objects {{ ann : agent; a, b, c, d, e, f, g, h, i, j, k : object; }} \
        fluents {{ on(object); }} init {{ vary {{ on(a), on(b), on(c), on(d), on(e), on(f), on(g), on(h), on(i), \
        on(j), on(k), on(ann), on(a) }} law {law}; designated {designated}; }} goal true;"
    )?)
}

fn fault(rt: &impl Abort, alloc: Global, text: &str) -> Result<Option<GroundError>, Fail> {
    match ground_task(rt, alloc, text)? {
        Ok(task) => {
            discard_task(task);
            Ok(None)
        }
        Err(error) => Ok(Some(error)),
    }
}

#[test]
fn refused_lawful_forms(rt: HostRuntime) -> Result<(), Fail> {
    let alloc = rt.alloc();
    for (law, designated) in [("false", "true"), ("pass", "not pass")] {
        let none = fault(&rt, alloc, letter(alloc, law, designated)?.as_str())?;
        assert!(rt; matches!(none, Some(GroundError::NoDesignated)));
    }
    let many = fault(&rt, alloc, most(alloc, "true", "false")?.as_str())?;
    assert!(rt; matches!(many, Some(GroundError::TooManyWorlds { count: 4_096 })));
    Ok(())
}

// Of twelve varied atoms the law leaves eight.
fn check_most_worlds(rt: &impl Abort, task: &Task) {
    let state = task.initial();
    assert_eq!(rt; state.worlds(), 256);
    assert_eq!(rt; state.links(), 65_536);
}

#[test]
fn most_worlds_of_a_law(rt: HostRuntime) -> Result<(), Fail> {
    let law = "(not on(a) and not on(b) and not on(c) and not on(d))";
    let text = most(rt.alloc(), law, "true")?;
    let task = ground_task(&rt, rt.alloc(), text.as_str())??;
    check_most_worlds(&rt, &task);
    discard_task(task);
    Ok(())
}
