// States from their parts, and what they show.

use crate::interned::interned;
use crate::made::{Given, Triple, built, links, state, worlds};
use ep_kripke::{RowTable, State, StateError, StateParts};
use ep_logic::{AgentId, AtomId, Bits, List, OutOfMemory, WorldId};
use std::alloc::{AllocError, Global};
use std::process::Abort;
use std::test::Fail;

// How long the row of a world is, and the atoms that are true there.
type Row<'a> = (u32, &'a [u32]);

// Parts of one agent and one atom.
fn parts(
    alloc: Global,
    given: &[Row<'_>],
    triples: &[Triple],
    designated: &[u32],
) -> Result<StateParts, OutOfMemory> {
    let mut truth = List::new(alloc);
    for (width, trues) in given {
        truth.push(Bits::from_places(alloc, *width, trues)?)?;
    }
    Ok(StateParts {
        agents: 1,
        atoms: 1,
        truth,
        links: links(alloc, triples)?,
        designated: worlds(alloc, designated)?,
    })
}

// Each fault stands before one that comes later in the order, or in its list.
#[test]
fn the_first_fault_is_told(rt: HostRuntime) -> Result<(), Fail> {
    let one: &[Row<'_>] = &[(1, &[]), (1, &[0])];
    let wide: &[Row<'_>] = &[(1, &[]), (2, &[]), (0, &[])];
    let far: &[Triple] = &[(0, 0, 1), (0, 0, 2), (1, 0, 0), (2, 9, 9)];
    let from: &[Triple] = &[(0, 1, 1), (0, 2, 0), (0, 0, 9)];
    let to: &[Triple] = &[(0, 1, 1), (0, 1, 0), (0, 0, 2), (0, 3, 0)];
    let rows: [(&[Row<'_>], &[Triple], &[u32], StateError); 7] = [
        (&[], far, &[], StateError::NoWorld),
        (wide, far, &[], StateError::WidthMismatch { world: 1 }),
        (one, far, &[9], StateError::AgentOutOfRange { link: 2 }),
        (one, from, &[9], StateError::WorldOutOfRange { link: 1 }),
        (one, to, &[], StateError::WorldOutOfRange { link: 2 }),
        (
            one,
            &[],
            &[0, 2, 9],
            StateError::DesignatedOutOfRange { place: 1 },
        ),
        (one, &[], &[], StateError::NoDesignated),
    ];
    for (truth, triples, designated, fault) in rows {
        let parts = parts(rt.alloc(), truth, triples, designated)?;
        assert_eq!(rt; built(&rt, rt.alloc(), parts).err(), Some(fault));
    }
    Ok(())
}

fn check_counts(rt: &impl Abort, s: &State, counts: (u32, u32, u32, u64), designated: &[u32]) {
    assert_eq!(rt; (s.worlds(), s.agents(), s.atoms(), s.links()), counts);
    assert_eq!(rt; s.designated(), designated);
}

// Atom 1 is true at world 0 and both atoms at world 2; worlds 0 and 2 are designated.
fn check_truth(rt: &impl Abort, s: &State) {
    assert_eq!(rt; (s.worlds(), s.atoms()), (3, 2));
    let trues = [(0, 1), (2, 0), (2, 1)];
    for w in 0..3 {
        for p in 0..2 {
            let holds = s.holds_atom(WorldId { n: w }, AtomId { n: p });
            assert_eq!(rt; holds, trues.contains(&(w, p)), "atom {p} at {w}");
        }
        assert_eq!(rt; s.is_designated(WorldId { n: w }), w != 1);
    }
    assert!(rt; !s.is_designated(WorldId { n: 3 }));
}

// Agent 0 links world 2 one way to world 0, and agent 1 links 1 to all.
fn check_links(rt: &impl Abort, s: &State) {
    assert_eq!(rt; (s.worlds(), s.agents()), (3, 2));
    for w in 0..3 {
        for v in 0..3 {
            for (a, joined) in [(0, w == 2 && v == 0), (1, w == 1)] {
                let linked = s.linked(AgentId { n: a }, WorldId { n: w }, WorldId { n: v });
                assert_eq!(rt; linked, joined, "{w} to {v} for {a}");
            }
        }
    }
}

fn check_targets(rt: &impl Abort, alloc: Global, s: &State) -> Result<(), OutOfMemory> {
    assert_eq!(rt; (s.worlds(), s.agents()), (3, 2));
    let mut targets = Vec::new(alloc);
    s.read_targets(AgentId { n: 0 }, WorldId { n: 2 }, &mut targets)?;
    assert_eq!(rt; targets.as_slice(), [0].as_slice());
    let after = s.successors(alloc, AgentId { n: 1 }, WorldId { n: 1 })?;
    let all = [WorldId { n: 0 }, WorldId { n: 1 }, WorldId { n: 2 }];
    assert_eq!(rt; after.as_slice(), all.as_slice());
    Ok(())
}

fn check_three_worlds(rt: &impl Abort, alloc: Global, s: &State) -> Result<(), OutOfMemory> {
    check_counts(rt, s, (3, 2, 2, 4), &[0, 2]);
    check_truth(rt, s);
    check_links(rt, s);
    check_targets(rt, alloc, s)
}

#[test]
fn repeated_parts_count_once(rt: HostRuntime) -> Result<(), Fail> {
    let given = Given {
        agents: 2,
        atoms: 2,
        worlds: &[&[1], &[], &[0, 1]],
        links: &[
            (1, 1, 2),
            (0, 2, 0),
            (1, 1, 0),
            (0, 2, 0),
            (1, 1, 1),
            (1, 1, 0),
        ],
        designated: &[2, 0, 2, 0],
    };
    let alloc = rt.alloc();
    let s = state(&rt, alloc, &given)?;
    check_three_worlds(&rt, alloc, &s)?;
    let copy = s.copy(alloc)?;
    check_three_worlds(&rt, alloc, &copy)?;
    let shared = interned(&rt, alloc, &s, &mut RowTable::new(alloc))?;
    check_three_worlds(&rt, alloc, &shared.state)?;
    Ok(())
}

#[test]
fn one_world_and_no_agent(rt: HostRuntime) -> Result<(), Fail> {
    let given = Given {
        agents: 0,
        atoms: 0,
        worlds: &[&[]],
        links: &[],
        designated: &[0],
    };
    let s = state(&rt, rt.alloc(), &given)?;
    check_counts(&rt, &s, (1, 0, 0, 0), &[0]);
    Ok(())
}

const MOST_WORLDS: u32 = 65_536;

// World w is linked to w + 1, to w + 2 and so on round a ring, first all to their next ones.
fn ring(rt: &impl Abort, alloc: Global, count: u32) -> Result<State, StateError> {
    let mut triples = Vec::new(alloc);
    for i in 0..count {
        let from = i % MOST_WORLDS;
        triples
            .push((0, from, (from + i / MOST_WORLDS + 1) % MOST_WORLDS))
            .map_err(AllocError::from)
            .map_err(OutOfMemory::from)?;
    }
    let no_atom: &[u32] = &[];
    let worlds = vec![in alloc; no_atom; MOST_WORLDS as usize].map_err(OutOfMemory::from)?;
    let given = Given {
        agents: 1,
        atoms: 0,
        worlds: &worlds,
        links: &triples,
        designated: &[0],
    };
    state(rt, alloc, &given)
}

fn check_ring(
    rt: &impl Abort,
    alloc: Global,
    s: &State,
    count: u32,
    targets: &[u32],
) -> Result<(), OutOfMemory> {
    check_counts(rt, s, (MOST_WORLDS, 1, 0, u64::from(count)), &[0]);
    assert_eq!(rt; (s.worlds(), s.agents()), (MOST_WORLDS, 1));
    let ann = AgentId { n: 0 };
    let mut last = Vec::new(alloc);
    s.read_targets(ann, WorldId { n: 65_535 }, &mut last)?;
    assert_eq!(rt; last.as_slice(), targets);
    assert!(rt; s.linked(ann, WorldId { n: 7 }, WorldId { n: 8 }));
    assert!(rt; !s.linked(ann, WorldId { n: 8 }, WorldId { n: 7 }));
    Ok(())
}

#[test]
fn a_ring_of_the_most_worlds(rt: HostRuntime) -> Result<(), Fail> {
    let last: [(u32, &[u32]); 2] = [
        (65_536, &[0]),
        (
            1_000_000,
            &[0, 1, 2, 3, 4, 5, 6, 7, 8, 9, 10, 11, 12, 13, 14],
        ),
    ];
    for (count, targets) in last {
        let s = ring(&rt, rt.alloc(), count)?;
        check_ring(&rt, rt.alloc(), &s, count, targets)?;
    }
    Ok(())
}
