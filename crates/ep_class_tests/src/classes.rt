// Reached worlds, the part of a state that is kept, and classes of bisimilar worlds.

use crate::made::{Given, state};
use ep_kripke::State;
use ep_logic::{AgentId, AtomId, Bits, OutOfMemory, WorldId};
use ep_refine::{classes, keeps_designated, reachable, restrict};
use std::alloc::Global;
use std::process::Abort;
use std::test::Fail;

// Worlds 0, 1, 2 are reached from 0 by agent 0 and then agent 1; worlds 3 and 4 lead there and back to one another.
const APART: Given<'static> = Given {
    agents: 2,
    atoms: 1,
    worlds: &[&[], &[], &[0], &[], &[]],
    links: &[(0, 0, 1), (1, 1, 2), (0, 3, 0), (1, 3, 4), (1, 4, 3)],
    designated: &[0],
};

#[test]
fn worlds_that_are_reached(rt: HostRuntime) -> Result<(), Fail> {
    let s = state(&rt, rt.alloc(), &APART)?;
    let reached = reachable(rt.alloc(), &s)?;
    assert_eq!(rt; reached.len(), 5);
    for w in 0..5 {
        assert_eq!(rt; reached.get(w), w < 3);
    }
    Ok(())
}

// World 0 is designated too, and is not kept.
const THREE: Given<'static> = Given {
    agents: 1,
    atoms: 1,
    worlds: &[&[], &[], &[0]],
    links: &[(0, 0, 1), (0, 0, 2), (0, 1, 2), (0, 2, 0), (0, 2, 2)],
    designated: &[0, 2],
};

fn check_keeps(rt: &impl Abort, s: &State, keep: &Bits, wanted: bool) {
    assert_eq!(rt; s.worlds(), keep.len());
    let keeps = keeps_designated(s, keep);
    assert_eq!(rt; keeps, wanted);
}

#[test]
fn whether_a_designated_world_is_kept(rt: HostRuntime) -> Result<(), Fail> {
    let s = state(&rt, rt.alloc(), &THREE)?;
    let mut keep = Bits::zeros(rt.alloc(), 3)?;
    check_keeps(&rt, &s, &keep, false);
    keep.set(1, true);
    check_keeps(&rt, &s, &keep, false);
    keep.set(2, true);
    check_keeps(&rt, &s, &keep, true);
    Ok(())
}

// Worlds 1 and 2 of three, under the numbers 0 and 1.
fn check_part(rt: &impl Abort, alloc: Global, part: &State) -> Result<(), OutOfMemory> {
    assert_eq!(rt;
        (part.worlds(), part.agents(), part.atoms(), part.links()),
        (2, 1, 1, 2)
    );
    assert_eq!(rt; part.designated(), [1].as_slice());
    let mut targets = Vec::new(alloc);
    for w in 0..2 {
        let holds = part.holds_atom(WorldId { n: w }, AtomId { n: 0 });
        assert_eq!(rt; holds, w == 1);
        part.read_targets(AgentId { n: 0 }, WorldId { n: w }, &mut targets)?;
        assert_eq!(rt; targets.as_slice(), [1].as_slice());
    }
    Ok(())
}

fn kept_part(rt: &impl Abort, alloc: Global, s: &State, keep: &Bits) -> Result<State, OutOfMemory> {
    assert_eq!(rt; s.worlds(), keep.len());
    assert!(rt; keeps_designated(s, keep));
    restrict(alloc, s, keep)
}

#[test]
fn the_part_that_is_kept(rt: HostRuntime) -> Result<(), Fail> {
    let s = state(&rt, rt.alloc(), &THREE)?;
    let mut keep = Bits::zeros(rt.alloc(), 3)?;
    keep.set(1, true);
    keep.set(2, true);
    let part = kept_part(&rt, rt.alloc(), &s, &keep)?;
    check_part(&rt, rt.alloc(), &part)?;
    Ok(())
}

// By truth and then by agent 0, where an empty list comes first; by whether there is a successor; two chains of
// three, which take two rounds; and two agents.
const CLASSES: [(Given<'static>, &'static [u32], u32); 4] = [
    (APART, &[2, 1, 4, 3, 0], 5),
    (
        Given {
            agents: 1,
            atoms: 1,
            worlds: &[&[], &[], &[]],
            links: &[(0, 0, 1), (0, 2, 2)],
            designated: &[0],
        },
        &[1, 0, 2],
        3,
    ),
    (
        Given {
            agents: 1,
            atoms: 1,
            worlds: &[&[], &[], &[], &[], &[], &[]],
            links: &[(0, 0, 1), (0, 1, 2), (0, 3, 4), (0, 4, 5)],
            designated: &[0],
        },
        &[2, 1, 0, 2, 1, 0],
        3,
    ),
    (
        Given {
            agents: 2,
            atoms: 1,
            worlds: &[&[], &[], &[]],
            links: &[(0, 1, 2), (1, 0, 2)],
            designated: &[0],
        },
        &[1, 2, 0],
        3,
    ),
];

fn check_classes(
    rt: &impl Abort,
    alloc: Global,
    s: &State,
    numbers: &[u32],
    count: u32,
) -> Result<(), OutOfMemory> {
    let found = classes(alloc, s)?;
    assert_eq!(rt; found.as_slice(), numbers);
    assert_eq!(rt; found.count(), count);
    assert!(rt; s.worlds() > 2);
    assert_eq!(rt; Some(&found.class(WorldId { n: 2 })), numbers.get(2));
    Ok(())
}

#[test]
fn numbers_of_classes(rt: HostRuntime) -> Result<(), Fail> {
    for (given, numbers, count) in CLASSES {
        let s = state(&rt, rt.alloc(), &given)?;
        check_classes(&rt, rt.alloc(), &s, numbers, count)?;
    }
    Ok(())
}
