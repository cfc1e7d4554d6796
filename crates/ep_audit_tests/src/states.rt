//! The initial state.

ghost use Rattle.std.specs.Prelude.{◌≡◌, ◌≤◌, ◌<◌, ◌^◌, IfOk, length};

use ep_kripke::{Link, State, StateParts};
use ep_logic::{AgentId, Bits, List, OutOfMemory, WorldId};
use std::alloc::Global;
use std::process::Abort;
use std::test::Fail;

fn rows(alloc: Global) -> Result<List<Bits>, OutOfMemory> {
    let mut heads = Bits::zeros(alloc, 1)?;
    heads.set(0, true);
    let mut rows = List::new(alloc);
    rows.push(heads)?;
    rows.push(Bits::zeros(alloc, 1)?)?;
    Ok(rows)
}

fn links(alloc: Global) -> Result<List<Link>, OutOfMemory> {
    let mut links = List::new(alloc);
    for agent in 0..2 {
        for (from, to) in [(0, 0), (0, 1), (1, 0), (1, 1)] {
            links.push(Link {
                agent: AgentId { n: agent },
                from: WorldId { n: from },
                to: WorldId { n: to },
            })?;
        }
    }
    Ok(links)
}

fn parts(alloc: Global) -> Result<StateParts, OutOfMemory>
    ensures { IfOk result (λ parts. (parts.agents ≡ 2) × (parts.atoms ≡ 1)) }
{
    let mut designated = List::new(alloc);
    designated.push(WorldId { n: 0 })?;
    Ok(StateParts {
        agents: 2,
        atoms: 1,
        truth: rows(alloc)?,
        links: links(alloc)?,
        designated,
    })
}

fn check_parts(rt: &impl Abort, parts: &StateParts)
    ensures truth { length parts.now.truth ≤ 65536 }
    ensures links { length parts.now.links < 2 ^ 32 }
    ensures designated { length parts.now.designated < 2 ^ 32 }
{
    assert!(rt; parts.truth.as_slice().len() <= 65_536);
    assert!(rt; parts.links.as_slice().len() < 1 << 32);
    assert!(rt; parts.designated.as_slice().len() < 1 << 32);
}

/// Two worlds that two agents do not tell apart. The atom is true at the first, which is designated.
pub fn initial(rt: &impl Abort, alloc: Global) -> Result<State, Fail> {
    let parts = parts(alloc)?;
    check_parts(rt, &parts);
    Ok(State::build(alloc, parts)?)
}
