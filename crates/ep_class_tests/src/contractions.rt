// Contractions of states.

use crate::made::{ALL_OF_TWO, Given, Triple, contracted, state};
use ep_canon::{Mapped, contract_map};
use ep_kripke::State;
use ep_logic::{AgentId, AtomId, OutOfMemory, WorldId};
use std::alloc::Global;
use std::process::Abort;
use std::test::Fail;

fn check_truth(rt: &impl Abort, s: &State, worlds: &[&[u32]]) {
    assert!(rt; s.worlds() as usize == worlds.len() && s.atoms() == 1);
    for w in 0..worlds.len() {
        let holds = s.holds_atom(WorldId { n: w as u32 }, AtomId { n: 0 });
        assert_eq!(rt; holds, worlds[w].contains(&0), "world {w}");
    }
}

fn check_links(rt: &impl Abort, s: &State, links: &[Triple]) {
    assert_eq!(rt; s.links(), links.len() as u64);
    for (agent, from, to) in links {
        assert!(rt; *agent < s.agents() && *from < s.worlds());
        let found = s.linked(
            AgentId { n: *agent },
            WorldId { n: *from },
            WorldId { n: *to },
        );
        assert!(rt; found, "{from} to {to}");
    }
}

fn check_state(rt: &impl Abort, s: &State, given: &Given<'_>) {
    assert_eq!(rt; s.agents(), given.agents);
    assert_eq!(rt; s.designated(), given.designated);
    check_truth(rt, s, given.worlds);
    check_links(rt, s, given.links);
}

const ALL_OF_FOUR: [Triple; 32] = [
    (0, 0, 0),
    (0, 0, 1),
    (0, 0, 2),
    (0, 0, 3),
    (0, 1, 0),
    (0, 1, 1),
    (0, 1, 2),
    (0, 1, 3),
    (0, 2, 0),
    (0, 2, 1),
    (0, 2, 2),
    (0, 2, 3),
    (0, 3, 0),
    (0, 3, 1),
    (0, 3, 2),
    (0, 3, 3),
    (1, 0, 0),
    (1, 0, 1),
    (1, 0, 2),
    (1, 0, 3),
    (1, 1, 0),
    (1, 1, 1),
    (1, 1, 2),
    (1, 1, 3),
    (1, 2, 0),
    (1, 2, 1),
    (1, 2, 2),
    (1, 2, 3),
    (1, 3, 0),
    (1, 3, 1),
    (1, 3, 2),
    (1, 3, 3),
];

// A state, its contraction, and for each world the world of the contraction that it goes to.
type Case = (Given<'static>, Given<'static>, &'static [Option<u32>]);

const CASES: [Case; 6] = [
    // A lone world, and one that is not reached.
    (
        Given {
            agents: 2,
            atoms: 1,
            worlds: &[&[0], &[]],
            links: &[(0, 0, 0), (0, 1, 1), (1, 0, 0), (1, 1, 1)],
            designated: &[0],
        },
        Given {
            agents: 2,
            atoms: 1,
            worlds: &[&[0]],
            links: &[(0, 0, 0), (1, 0, 0)],
            designated: &[0],
        },
        &[Some(0), None],
    ),
    // Each world of the coin twice: two worlds of each kind, and both of one kind designated.
    (
        Given {
            agents: 2,
            atoms: 1,
            worlds: &[&[0], &[0], &[], &[]],
            links: &ALL_OF_FOUR,
            designated: &[0, 1],
        },
        Given {
            agents: 2,
            atoms: 1,
            worlds: &[&[], &[0]],
            links: ALL_OF_TWO,
            designated: &[1],
        },
        &[Some(1), Some(1), Some(0), Some(0)],
    ),
    // The end of a chain comes first.
    (
        Given {
            agents: 2,
            atoms: 1,
            worlds: &[&[], &[], &[]],
            links: &[(0, 0, 1), (0, 1, 2)],
            designated: &[0],
        },
        Given {
            agents: 2,
            atoms: 1,
            worlds: &[&[], &[], &[]],
            links: &[(0, 1, 0), (0, 2, 1)],
            designated: &[2],
        },
        &[Some(2), Some(1), Some(0)],
    ),
    (
        Given {
            agents: 2,
            atoms: 1,
            worlds: &[&[], &[], &[], &[]],
            links: &[(0, 0, 1), (0, 1, 2), (0, 2, 3)],
            designated: &[0],
        },
        Given {
            agents: 2,
            atoms: 1,
            worlds: &[&[], &[], &[], &[]],
            links: &[(0, 1, 0), (0, 2, 1), (0, 3, 2)],
            designated: &[3],
        },
        &[Some(3), Some(2), Some(1), Some(0)],
    ),
    // Two ways that are one, found in two rounds.
    (
        Given {
            agents: 2,
            atoms: 1,
            worlds: &[&[], &[], &[], &[], &[]],
            links: &[(0, 0, 1), (0, 0, 3), (1, 1, 2), (1, 3, 4)],
            designated: &[0],
        },
        Given {
            agents: 2,
            atoms: 1,
            worlds: &[&[], &[], &[]],
            links: &[(0, 2, 1), (1, 1, 0)],
            designated: &[2],
        },
        &[Some(2), Some(1), Some(0), Some(1), Some(0)],
    ),
    // A world without successors beside one with.
    (
        Given {
            agents: 2,
            atoms: 1,
            worlds: &[&[], &[], &[]],
            links: &[(0, 0, 1), (0, 0, 2), (0, 2, 2)],
            designated: &[0],
        },
        Given {
            agents: 2,
            atoms: 1,
            worlds: &[&[], &[], &[]],
            links: &[(0, 1, 0), (0, 1, 2), (0, 2, 2)],
            designated: &[1],
        },
        &[Some(1), Some(0), Some(2)],
    ),
];

fn mapped(rt: &impl Abort, alloc: Global, s: &State) -> Result<Mapped, OutOfMemory> {
    assert!(rt; s.worlds() <= 4096);
    contract_map(alloc, s)
}

fn check_map(
    rt: &impl Abort,
    alloc: Global,
    s: &State,
    wanted: &Given<'_>,
    map: &[Option<u32>],
) -> Result<(), OutOfMemory> {
    let found = mapped(rt, alloc, s)?;
    check_state(rt, found.canon.state(), wanted);
    assert_eq!(rt; found.map.as_slice(), map);
    Ok(())
}

#[test]
fn worlds_go_to_their_classes(rt: HostRuntime) -> Result<(), Fail> {
    for (given, wanted, map) in CASES {
        let s = state(&rt, rt.alloc(), &given)?;
        check_map(&rt, rt.alloc(), &s, &wanted, map)?;
    }
    Ok(())
}

// The contraction of a contraction is that contraction, and a copy is its original.
fn check_contraction(
    rt: &impl Abort,
    alloc: Global,
    s: &State,
    wanted: &Given<'_>,
) -> Result<(), OutOfMemory> {
    let canon = contracted(rt, alloc, s)?;
    check_state(rt, canon.state(), wanted);
    let again = contracted(rt, alloc, canon.state())?;
    check_state(rt, again.state(), wanted);
    let copy = canon.copy(alloc)?;
    check_state(rt, copy.state(), wanted);
    Ok(())
}

#[test]
fn contractions_and_their_contractions(rt: HostRuntime) -> Result<(), Fail> {
    for (given, wanted, _map) in CASES {
        let s = state(&rt, rt.alloc(), &given)?;
        check_contraction(&rt, rt.alloc(), &s, &wanted)?;
    }
    Ok(())
}

// Agent 0 links each world to the next, and the last to the first where the line is a ring.
pub fn line(rt: &impl Abort, alloc: Global, count: u32, ring: bool) -> Result<State, Fail> {
    assert!(rt; count > 0);
    let none: &[u32] = &[];
    let worlds = vec![in alloc; none; count as usize]?;
    let mut links: Vec<Triple> = (1..count).map(|w| (0, w - 1, w)).collect(alloc)?;
    if ring {
        links.push((0, count - 1, 0))?;
    }
    let given = Given {
        agents: 2,
        atoms: 1,
        worlds: &worlds,
        links: &links,
        designated: &[0],
    };
    Ok(state(rt, alloc, &given)?)
}

#[test]
fn a_ring_of_512_worlds_has_one(rt: HostRuntime) -> Result<(), Fail> {
    let ring = line(&rt, rt.alloc(), 512, true)?;
    let one = contracted(&rt, rt.alloc(), &ring)?;
    let wanted = Given {
        agents: 2,
        atoms: 1,
        worlds: &[&[]],
        links: &[(0, 0, 0)],
        designated: &[0],
    };
    check_state(&rt, one.state(), &wanted);
    Ok(())
}

// Each world is linked to the one before it.
fn check_chain(rt: &impl Abort, alloc: Global, s: &State, count: u32) -> Result<(), OutOfMemory> {
    assert!(rt; count > 0);
    assert_eq!(rt;
        (s.worlds(), s.agents(), s.links()),
        (count, 2, u64::from(count - 1))
    );
    assert_eq!(rt; s.designated(), [count - 1].as_slice());
    let mut targets = Vec::new(alloc);
    for w in 1..count {
        s.read_targets(AgentId { n: 0 }, WorldId { n: w }, &mut targets)?;
        assert_eq!(rt; targets.as_slice(), [w - 1].as_slice());
    }
    Ok(())
}

#[test]
fn a_chain_of_300_worlds_keeps_all(rt: HostRuntime) -> Result<(), Fail> {
    let chain = line(&rt, rt.alloc(), 300, false)?;
    let canon = contracted(&rt, rt.alloc(), &chain)?;
    check_chain(&rt, rt.alloc(), canon.state(), 300)?;
    Ok(())
}
