//! States of one agent and one atom.

ghost use Rattle.std.specs.Prelude.{◌≡◌, ◌≤◌, ◌<◌, ◌^◌, IfOk, length};

use ep_kripke::{Link, State, StateParts};
use ep_logic::{AgentId, Bits, List, OutOfMemory, WorldId};
use std::alloc::Global;
use std::process::Abort;
use std::test::Fail;

/// What is true of the atom at each world, the worlds that the agent links, and the designated ones.
#[derive(Clone, Copy)]
pub struct Shape {
    pub truth: &'static [bool],
    pub links: &'static [(u32, u32)],
    pub designated: &'static [u32],
}

fn row(alloc: Global, value: bool) -> Result<Bits, OutOfMemory> {
    let mut row = Bits::zeros(alloc, 1)?;
    row.set(0, value);
    Ok(row)
}

fn rows(alloc: Global, values: &[bool]) -> Result<List<Bits>, OutOfMemory> {
    let mut rows = List::new(alloc);
    for value in values {
        rows.push(row(alloc, *value)?)?;
    }
    Ok(rows)
}

fn links(alloc: Global, pairs: &[(u32, u32)]) -> Result<List<Link>, OutOfMemory> {
    let mut links = List::new(alloc);
    for (from, to) in pairs {
        links.push(Link {
            agent: AgentId { n: 0 },
            from: WorldId { n: *from },
            to: WorldId { n: *to },
        })?;
    }
    Ok(links)
}

fn worlds(alloc: Global, numbers: &[u32]) -> Result<List<WorldId>, OutOfMemory> {
    let mut worlds = List::new(alloc);
    for n in numbers {
        worlds.push(WorldId { n: *n })?;
    }
    Ok(worlds)
}

fn parts(alloc: Global, shape: &Shape) -> Result<StateParts, OutOfMemory>
    ensures { IfOk result (λ parts. (parts.agents ≡ 1) × (parts.atoms ≡ 1)) }
{
    Ok(StateParts {
        agents: 1,
        atoms: 1,
        truth: rows(alloc, shape.truth)?,
        links: links(alloc, shape.links)?,
        designated: worlds(alloc, shape.designated)?,
    })
}

fn check_parts(rt: &impl Abort, parts: &StateParts)
    ensures truth { length parts.now.truth ≤ 65536 }
    ensures links { length parts.now.links < 2 ^ 32 }
    ensures designated { length parts.now.designated < 2 ^ 32 }
{
    assert!(rt; parts.truth.as_slice().len() <= 65_536);
    assert!(rt; parts.links.as_slice().len() < 1 << 32);
    assert!(rt; parts.designated.as_slice().len() < 1 << 32);
}

pub fn state(rt: &impl Abort, alloc: Global, shape: &Shape) -> Result<State, Fail> {
    let parts = parts(alloc, shape)?;
    check_parts(rt, &parts);
    Ok(State::build(alloc, parts)?)
}
