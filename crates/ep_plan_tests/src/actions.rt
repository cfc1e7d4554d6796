//! Actions, by short names.

ghost use Rattle.std.specs.Prelude.{◌≡◌, ◌≤◌, ◌<◌, ◌^◌, IfOk, length};

use ep_event::{Action, ActionParts, Assign, EventLink, EventParts};
use ep_logic::{AgentId, Agents, AtomId, EventId, Formula, List, OutOfMemory};
use std::alloc::Global;
use std::process::Abort;
use std::test::Fail;

#[derive(Clone, Copy)]
pub enum Act {
    /// It is said that something true is true, among so many agents.
    Nothing(u32),
    /// It is said that the atom with the second number is true, among so many agents as the first.
    Said(u32, u32),
    /// Either of two events happens, which need and change nothing, and the agent links the events of these pairs.
    Either(&'static [(u32, u32)]),
    /// Atom 0 becomes true.
    MadeTrue,
    /// The one agent is told that the atom of this number is true.
    Told(u32),
}

fn events(alloc: Global) -> Result<List<EventParts>, OutOfMemory> {
    let mut events = List::new(alloc);
    for _n in 0..2 {
        events.push(EventParts {
            pre: Formula::truth(true),
            sets: List::new(alloc),
        })?;
    }
    Ok(events)
}

fn both(alloc: Global) -> Result<List<EventId>, OutOfMemory> {
    let mut both = List::new(alloc);
    for n in 0..2 {
        both.push(EventId { n })?;
    }
    Ok(both)
}

fn event_links(alloc: Global, pairs: &[(u32, u32)]) -> Result<List<EventLink>, OutOfMemory> {
    let mut links = List::new(alloc);
    for (from, to) in pairs {
        links.push(EventLink {
            agent: AgentId { n: 0 },
            from: EventId { n: *from },
            to: EventId { n: *to },
        })?;
    }
    Ok(links)
}

fn parts(alloc: Global, pairs: &[(u32, u32)]) -> Result<ActionParts, OutOfMemory>
    ensures { IfOk result (λ parts. parts.agents ≡ 1) }
{
    Ok(ActionParts {
        agents: 1,
        events: events(alloc)?,
        links: event_links(alloc, pairs)?,
        designated: both(alloc)?,
    })
}

fn check_parts(rt: &impl Abort, parts: &ActionParts)
    ensures events { length parts.now.events < 2 ^ 32 }
    ensures links { length parts.now.links < 2 ^ 32 }
    ensures designated { length parts.now.designated < 2 ^ 32 }
{
    assert!(rt; parts.events.as_slice().len() < 1 << 32);
    assert!(rt; parts.links.as_slice().len() < 1 << 32);
    assert!(rt; parts.designated.as_slice().len() < 1 << 32);
}

fn either(rt: &impl Abort, alloc: Global, pairs: &[(u32, u32)]) -> Result<Action, Fail> {
    let parts = parts(alloc, pairs)?;
    check_parts(rt, &parts);
    Ok(Action::build(alloc, parts)?)
}

fn made_true(alloc: Global) -> Result<Action, Fail> {
    let mut sets = List::new(alloc);
    sets.push(Assign {
        atom: AtomId { n: 0 },
        value: Formula::truth(true),
    })?;
    Ok(Action::assign(alloc, 1, Formula::truth(true), sets)?)
}

fn said(rt: &impl Abort, alloc: Global, agents: u32, formula: Formula) -> Result<Action, Fail> {
    assert!(rt; agents <= 8);
    Ok(Action::announce(alloc, agents, formula)?)
}

fn told(rt: &impl Abort, alloc: Global, formula: Formula) -> Result<Action, Fail> {
    let members = Agents::none().with(AgentId { n: 0 });
    assert!(rt; !members.is_empty() && members.is_within(1));
    Ok(Action::private(alloc, 1, formula, members)?)
}

fn action(rt: &impl Abort, alloc: Global, act: Act) -> Result<Action, Fail> {
    match act {
        Act::Nothing(agents) => said(rt, alloc, agents, Formula::truth(true)),
        Act::Said(agents, n) => said(rt, alloc, agents, Formula::atom(AtomId { n })),
        Act::Either(pairs) => either(rt, alloc, pairs),
        Act::MadeTrue => made_true(alloc),
        Act::Told(n) => told(rt, alloc, Formula::atom(AtomId { n })),
    }
}

pub fn actions(rt: &impl Abort, alloc: Global, acts: &[Act]) -> Result<List<Action>, Fail> {
    let mut actions = List::new(alloc);
    for act in acts {
        actions.push(action(rt, alloc, *act)?)?;
    }
    Ok(actions)
}
