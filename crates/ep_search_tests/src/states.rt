//! States, from tables.

ghost use Rattle.std.specs.Prelude.{◌≤◌, ◌<◌, ◌^◌, length};

use ep_kripke::{Link, State, StateParts};
use ep_logic::{AgentId, Bits, List, OutOfMemory, WorldId};
use std::alloc::Global;
use std::process::Abort;
use std::test::Fail;

/// An agent, and the worlds that it links.
pub type Triple = (u32, u32, u32);

/// A state whose world 0 is designated. Each world is the list of the atoms that are true there.
#[derive(Clone, Copy)]
pub struct Shape {
    pub agents: u32,
    pub atoms: u32,
    pub worlds: &'static [&'static [u32]],
    pub links: &'static [Triple],
}

fn row(alloc: Global, width: u32, trues: &[u32]) -> Result<Bits, OutOfMemory> {
    let mut row = Bits::zeros(alloc, width)?;
    for p in 0..width {
        row.set(p, trues.contains(&p));
    }
    Ok(row)
}

fn rows(alloc: Global, width: u32, worlds: &[&[u32]]) -> Result<List<Bits>, OutOfMemory> {
    let mut rows = List::new(alloc);
    for trues in worlds {
        rows.push(row(alloc, width, trues)?)?;
    }
    Ok(rows)
}

fn links(alloc: Global, triples: &[Triple]) -> Result<List<Link>, OutOfMemory> {
    let mut links = List::new(alloc);
    for (agent, from, to) in triples {
        links.push(Link {
            agent: AgentId { n: *agent },
            from: WorldId { n: *from },
            to: WorldId { n: *to },
        })?;
    }
    Ok(links)
}

fn first_world(alloc: Global) -> Result<List<WorldId>, OutOfMemory> {
    let mut designated = List::new(alloc);
    designated.push(WorldId { n: 0 })?;
    Ok(designated)
}

fn parts(alloc: Global, shape: &Shape) -> Result<StateParts, OutOfMemory> {
    Ok(StateParts {
        agents: shape.agents,
        atoms: shape.atoms,
        truth: rows(alloc, shape.atoms, shape.worlds)?,
        links: links(alloc, shape.links)?,
        designated: first_world(alloc)?,
    })
}

fn check_parts(rt: &impl Abort, parts: &StateParts)
    ensures agents { parts.now.agents ≤ 8 }
    ensures atoms { parts.now.atoms ≤ 256 }
    ensures truth { length parts.now.truth ≤ 65536 }
    ensures links { length parts.now.links < 2 ^ 32 }
    ensures designated { length parts.now.designated < 2 ^ 32 }
{
    assert!(rt; parts.agents <= 8 && parts.atoms <= 256);
    assert!(rt; parts.truth.as_slice().len() <= 65_536);
    assert!(rt; parts.links.as_slice().len() < 1 << 32);
    assert!(rt; parts.designated.as_slice().len() < 1 << 32);
}

pub fn state(rt: &impl Abort, alloc: Global, shape: &Shape) -> Result<State, Fail> {
    let parts = parts(alloc, shape)?;
    check_parts(rt, &parts);
    Ok(State::build(alloc, parts)?)
}
