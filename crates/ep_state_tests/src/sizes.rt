// States on both sides of 4,096 worlds, whose links are kept as bits up to there and as lists beyond.

ghost use Rattle.std.specs.Prelude.{◌≡◌, ◌≤◌, ◌<◌};

use crate::interned::interned;
use crate::made::{Triple, built, links, worlds};
use ep_kripke::{RowTable, State, StateError, StateParts};
use ep_logic::{AgentId, AtomId, Bits, List, OutOfMemory, WorldId};
use std::alloc::{AllocError, Global};
use std::process::Abort;
use std::test::Fail;

const ATOMS: u32 = 65;

// The world at the middle and the world before, round a ring: no two worlds have the same row.
fn own_targets(alloc: Global, count: u32, w: u32) -> Result<Vec<u32>, OutOfMemory>
    requires { 0 < count }
{
    let before = if w == 0 { count - 1 } else { w - 1 };
    let mut targets = Vec::new(alloc);
    targets.push(w / 2).map_err(AllocError::from)?;
    targets.push(before).map_err(AllocError::from)?;
    targets.dedup();
    Ok(targets)
}

// Agent 0 has rows that all differ, and agent 1 the same row at each world.
fn triples(alloc: Global, count: u32, same: &[u32]) -> Result<Vec<Triple>, OutOfMemory> {
    let mut triples = Vec::new(alloc);
    for w in 0..count {
        let own = own_targets(alloc, count, w)?;
        for v in &own {
            triples.push((0, w, *v)).map_err(AllocError::from)?;
        }
        for v in same {
            triples.push((1, w, *v)).map_err(AllocError::from)?;
        }
    }
    Ok(triples)
}

// At world w the atom w modulo 65 is true.
fn truth(alloc: Global, count: u32) -> Result<List<Bits>, OutOfMemory> {
    let mut rows = List::new(alloc);
    for w in 0..count {
        rows.push(Bits::from_places(alloc, ATOMS, &[w % ATOMS])?)?;
    }
    Ok(rows)
}

fn sized(rt: &impl Abort, alloc: Global, count: u32, same: &[u32]) -> Result<State, StateError> {
    let parts = StateParts {
        agents: 2,
        atoms: ATOMS,
        truth: truth(alloc, count)?,
        links: links(alloc, &triples(alloc, count, same)?)?,
        designated: worlds(alloc, &[count / 2, 0])?,
    };
    built(rt, alloc, parts)
}

fn check_truth(rt: &impl Abort, s: &State, w: u32) {
    assert!(rt; w < s.worlds() && s.atoms() == ATOMS);
    let (here, world) = (w % ATOMS, WorldId { n: w });
    for p in 0..ATOMS {
        assert_eq!(rt; s.holds_atom(world, AtomId { n: p }), p == here);
    }
}

fn check_targets(
    rt: &impl Abort,
    alloc: Global,
    s: &State,
    link: (u32, u32),
    targets: &[u32],
) -> Result<(), OutOfMemory> {
    let (agent, w) = link;
    assert!(rt; agent < s.agents() && w < s.worlds());
    let (a, world) = (AgentId { n: agent }, WorldId { n: w });
    let mut found = Vec::new(alloc);
    s.read_targets(a, world, &mut found)?;
    assert_eq!(rt; found.as_slice(), targets);
    let list = s.successors(alloc, a, world)?;
    assert_eq!(rt; list.as_slice().len(), targets.len());
    for v in targets {
        assert!(rt; s.linked(a, world, WorldId { n: *v }));
    }
    let mut set = Bits::from_places(alloc, s.worlds(), targets)?;
    assert!(rt; s.links_within(a, world, &set));
    if let Some(v) = targets.last() {
        assert!(rt; *v < set.len());
        set.set(*v, false);
        assert!(rt; !s.links_within(a, world, &set));
    }
    Ok(())
}

fn check_sized(
    rt: &impl Abort,
    alloc: Global,
    s: &State,
    count: u32,
    same: &[u32],
) -> Result<(), OutOfMemory> {
    assert!(rt; count > 4_000 && count < 5_000);
    let links = u64::from(6 * count - 2);
    assert_eq!(rt;
        (s.worlds(), s.agents(), s.atoms(), s.links()),
        (count, 2, ATOMS, links)
    );
    assert_eq!(rt; s.designated(), [0, count / 2].as_slice());
    for w in 0..count {
        check_truth(rt, s, w);
        let own = own_targets(alloc, count, w)?;
        check_targets(rt, alloc, s, (0, w), &own)?;
        check_targets(rt, alloc, s, (1, w), same)?;
    }
    Ok(())
}

// The 65 truth rows, the rows of agent 0, that of agent 1 and that of the designated worlds stand in the table.
fn check_interned(
    rt: &impl Abort,
    alloc: Global,
    s: &State,
    count: u32,
    same: &[u32],
) -> Result<(), OutOfMemory> {
    assert!(rt; count < 5_000);
    let mut table = RowTable::new(alloc);
    let shared = interned(rt, alloc, s, &mut table)?;
    assert_eq!(rt; table.len(), 65 + count as usize + 2);
    assert_eq!(rt; shared.key.as_slice().len(), 4 + 3 * count as usize);
    check_sized(rt, alloc, &shared.state, count, same)
}

#[test]
fn states_on_both_sides_of_4096_worlds(rt: HostRuntime) -> Result<(), Fail> {
    for count in [4_096u32, 4_097] {
        let same = [0, 63, 64, count - 1];
        let s = sized(&rt, rt.alloc(), count, &same)?;
        check_sized(&rt, rt.alloc(), &s, count, &same)?;
        let copy = s.copy(rt.alloc())?;
        check_sized(&rt, rt.alloc(), &copy, count, &same)?;
        if count <= 4_096 {
            check_interned(&rt, rt.alloc(), &s, count, &same)?;
        }
    }
    Ok(())
}
