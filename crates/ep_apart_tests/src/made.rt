// States that several tests build.

ghost use Rattle.std.specs.Prelude.{◌≡◌, ◌≤◌, ◌<◌, ◌^◌, length};

use ep_kripke::{Link, State, StateError, StateParts};
use ep_logic::{AgentId, Bits, List, OutOfMemory, WorldId};
use std::alloc::Global;
use std::process::Abort;

/// An agent, and what it links.
pub type Triple = (u32, u32, u32);

/// The atoms that are true at each world, the links and the designated worlds.
#[derive(Clone, Copy)]
pub struct Given<'a> {
    pub agents: u32,
    pub atoms: u32,
    pub worlds: &'a [&'a [u32]],
    pub links: &'a [Triple],
    pub designated: &'a [u32],
}

fn row(alloc: Global, width: u32, trues: &[u32]) -> Result<Bits, OutOfMemory> {
    let mut row = Bits::zeros(alloc, width)?;
    for p in 0..width {
        row.set(p, trues.contains(&p));
    }
    Ok(row)
}

fn rows(alloc: Global, width: u32, worlds: &[&[u32]]) -> Result<List<Bits>, OutOfMemory> {
    let mut rows = List::new(alloc);
    for trues in worlds {
        rows.push(row(alloc, width, trues)?)?;
    }
    Ok(rows)
}

fn links(alloc: Global, triples: &[Triple]) -> Result<List<Link>, OutOfMemory> {
    let mut links = List::new(alloc);
    for (agent, from, to) in triples {
        links.push(Link {
            agent: AgentId { n: *agent },
            from: WorldId { n: *from },
            to: WorldId { n: *to },
        })?;
    }
    Ok(links)
}

fn points(alloc: Global, numbers: &[u32]) -> Result<List<WorldId>, OutOfMemory> {
    let mut worlds = List::new(alloc);
    for n in numbers {
        worlds.push(WorldId { n: *n })?;
    }
    Ok(worlds)
}

// The numbers that `State::build` requires.
fn check_parts(rt: &impl Abort, parts: &StateParts)
    ensures agents { parts.now.agents ≤ 8 }
    ensures atoms { parts.now.atoms ≤ 256 }
    ensures truth { length parts.now.truth ≤ 65536 }
    ensures links { length parts.now.links < 2 ^ 32 }
    ensures designated { length parts.now.designated < 2 ^ 32 }
{
    assert!(rt; parts.agents <= 8 && parts.atoms <= 256);
    assert!(rt; parts.truth.as_slice().len() <= 65_536);
    assert!(rt; parts.links.as_slice().len() < 1 << 32);
    assert!(rt; parts.designated.as_slice().len() < 1 << 32);
}

pub fn state(rt: &impl Abort, alloc: Global, given: &Given<'_>) -> Result<State, StateError> {
    let parts = StateParts {
        agents: given.agents,
        atoms: given.atoms,
        truth: rows(alloc, given.atoms, given.worlds)?,
        links: links(alloc, given.links)?,
        designated: points(alloc, given.designated)?,
    };
    check_parts(rt, &parts);
    State::build(alloc, parts)
}
