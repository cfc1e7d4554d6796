//! Actions, by short names.

ghost use Rattle.std.specs.Prelude.{◌≤◌, ◌<◌, ◌^◌, length};

use ep_event::{Action, ActionParts, Assign, EventLink, EventParts};
use ep_logic::{AgentId, Agents, AtomId, EventId, Formula, List, OutOfMemory};
use std::alloc::Global;
use std::process::Abort;
use std::test::Fail;

#[derive(Clone, Copy)]
pub enum Act {
    /// The agent learns whether atom 0 is true.
    Look(u32),
    /// Two events that look alike to all agents, both designated.
    Twice,
    /// Where the first atom is true it becomes false, and the second true.
    Move(u32, u32),
    /// Where the first atom is true the second becomes true too.
    Also(u32, u32),
    /// The same in an event that looks like another, which alone is designated.
    Maybe(u32, u32),
}

fn atom(n: u32) -> Formula {
    Formula::atom(AtomId { n })
}

// The assignments of truth values to atoms.
fn sets(alloc: Global, values: &[(u32, bool)]) -> Result<List<Assign>, OutOfMemory> {
    let mut sets = List::new(alloc);
    for (n, value) in values {
        sets.push(Assign {
            atom: AtomId { n: *n },
            value: Formula::truth(*value),
        })?;
    }
    Ok(sets)
}

// The event needs the atom, if one is given.
fn event(
    alloc: Global,
    needed: Option<u32>,
    values: &[(u32, bool)],
) -> Result<EventParts, OutOfMemory> {
    let sets = sets(alloc, values)?;
    let pre = match needed {
        Some(n) => atom(n),
        None => Formula::truth(true),
    };
    Ok(EventParts { pre, sets })
}

// An event that changes nothing, and one that sets these.
fn two_events(
    alloc: Global,
    needed: Option<u32>,
    values: &[(u32, bool)],
) -> Result<List<EventParts>, OutOfMemory> {
    let mut events = List::new(alloc);
    events.push(event(alloc, needed, &[])?)?;
    events.push(event(alloc, needed, values)?)?;
    Ok(events)
}

// Each agent links each of two events to both.
fn event_links(alloc: Global, agents: u32) -> Result<List<EventLink>, OutOfMemory> {
    let mut links = List::new(alloc);
    for agent in 0..agents {
        for (from, to) in [(0, 0), (0, 1), (1, 0), (1, 1)] {
            links.push(EventLink {
                agent: AgentId { n: agent },
                from: EventId { n: from },
                to: EventId { n: to },
            })?;
        }
    }
    Ok(links)
}

fn first_events(alloc: Global, count: u32) -> Result<List<EventId>, OutOfMemory> {
    let mut ids = List::new(alloc);
    for n in 0..count {
        ids.push(EventId { n })?;
    }
    Ok(ids)
}

fn check_parts(rt: &impl Abort, parts: &ActionParts)
    ensures agents { parts.now.agents ≤ 8 }
    ensures events { length parts.now.events < 2 ^ 32 }
    ensures links { length parts.now.links < 2 ^ 32 }
    ensures designated { length parts.now.designated < 2 ^ 32 }
{
    assert!(rt; parts.agents <= 8 && parts.events.as_slice().len() < 1 << 32);
    assert!(rt; parts.links.as_slice().len() < 1 << 32);
    assert!(rt; parts.designated.as_slice().len() < 1 << 32);
}

// Two events that look alike to everyone, of which so many are designated.
fn unseen(
    rt: &impl Abort,
    alloc: Global,
    agents: u32,
    events: List<EventParts>,
    designated: u32,
) -> Result<Action, Fail> {
    let parts = ActionParts {
        agents,
        events,
        links: event_links(alloc, agents)?,
        designated: first_events(alloc, designated)?,
    };
    check_parts(rt, &parts);
    Ok(Action::build(alloc, parts)?)
}

fn look(rt: &impl Abort, alloc: Global, agents: u32, agent: u32) -> Result<Action, Fail> {
    assert!(rt; agents <= 8 && agent < agents);
    let group = Agents::none().with(AgentId { n: agent });
    assert!(rt; !group.is_empty() && group.is_within(agents));
    let heads = atom(0);
    assert!(rt; heads.depth() < 128 && heads.nodes() < 131_072);
    Ok(Action::sense(alloc, agents, heads, group)?)
}

// Where an atom is true these are set.
fn set_where(
    rt: &impl Abort,
    alloc: Global,
    agents: u32,
    needed: u32,
    values: &[(u32, bool)],
) -> Result<Action, Fail> {
    assert!(rt; agents <= 8);
    let sets = sets(alloc, values)?;
    Ok(Action::assign(alloc, agents, atom(needed), sets)?)
}

pub fn action(rt: &impl Abort, alloc: Global, agents: u32, act: Act) -> Result<Action, Fail> {
    match act {
        Act::Look(agent) => look(rt, alloc, agents, agent),
        Act::Twice => unseen(rt, alloc, agents, two_events(alloc, None, &[])?, 2),
        Act::Move(from, to) => set_where(rt, alloc, agents, from, &[(from, false), (to, true)]),
        Act::Also(from, to) => set_where(rt, alloc, agents, from, &[(to, true)]),
        Act::Maybe(from, to) => {
            let events = two_events(alloc, Some(from), &[(to, true)])?;
            unseen(rt, alloc, agents, events, 1)
        }
    }
}
