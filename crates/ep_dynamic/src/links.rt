// The links of a composition, and its designated events.

ghost use Rattle.std.specs.Prelude.{◌≡◌, ◌<◌, ◌≤◌, ◌↔◌, ◌⊎◌, length, IfOk, OnOk, IsTrue};
ghost use Rattle.ep_logic.specs.declared.ids.EventId.{EventId};
ghost use Rattle.ep_theory.specs.Rising.{IsIn};
ghost use Rattle.ep_theory.specs.Events.{event_links};
ghost use Rattle.ep_event.specs.declared.parts.EventLink.{EventLink};
ghost use Rattle.ep_dynamic.specs.Composition.{IsDesignatedInTurn, IsLinkBetween, IsLinkInTurn, event_pairs};

use crate::events::all_pairs;
use ep_event::{Action, EventLink};
use ep_logic::{AgentId, EventId, List, OutOfMemory};
use std::alloc::Global;

// Whether the agent links the first events and the second events of two pairs.
fn are_linked(a: &Action, b: &Action, agent: AgentId, x: (u32, u32), y: (u32, u32)) -> bool
    requires agent { (agent.n < length a.now.links) × (agent.n < length b.now.links) }
    requires from { (x.0 < length a.now.events) × (x.1 < length b.now.events) }
    requires to { (y.0 < length a.now.events) × (y.1 < length b.now.events) }
    ensures { IsTrue result ↔ (IsIn (x.0, y.0) (event_links a.now agent.n) × IsIn (x.1, y.1) (event_links b.now agent.n)) }
{
    let first = a.linked(agent, EventId { n: x.0 }, EventId { n: y.0 });
    let second = b.linked(agent, EventId { n: x.1 }, EventId { n: y.1 });
    first & second
}

// Adds the links between the events at two places.
fn put_links(
    a: &Action,
    b: &Action,
    pairs: &[(u32, u32)],
    ends: (u32, u32),
    links: &mut List<EventLink>,
) -> Result<(), OutOfMemory>
    requires agents { length a.now.links ≡ length b.now.links }
    requires pairs { pairs.now ≡ event_pairs a.now b.now }
    requires from { ends.0 < length pairs.now }
    requires to { ends.1 < length pairs.now }
    ensures { OnOk result ((x : EventLink) → IsIn x links.new ↔ (IsIn x links.old ⊎ IsLinkBetween a.now b.now (length a.now.links) ends x)) }
{
    let x = pairs[ends.0 as usize];
    let y = pairs[ends.1 as usize];
    for n in 0..a.agents() {
        let agent = AgentId { n };
        if are_linked(a, b, agent, x, y) {
            links.push(EventLink {
                agent,
                from: EventId { n: ends.0 },
                to: EventId { n: ends.1 },
            })?;
        }
    }
    Ok(())
}

pub(crate) fn links_of_both(
    alloc: Global,
    a: &Action,
    b: &Action,
    pairs: &[(u32, u32)],
) -> Result<List<EventLink>, OutOfMemory>
    requires agents { length a.now.links ≡ length b.now.links }
    requires pairs { pairs.now ≡ event_pairs a.now b.now }
    requires few { length pairs.now ≤ 16 }
    ensures { IfOk result (λ links. (x : EventLink) → IsIn x links ↔ IsLinkInTurn a.now b.now x) }
{
    let count = pairs.len() as u32;
    let ends = all_pairs(alloc, count, count)?;
    let mut links = List::new(alloc);
    for at in ends.as_slice() {
        put_links(a, b, pairs, *at, &mut links)?;
    }
    Ok(links)
}

// Whether both events of the pair are designated.
fn are_designated(a: &Action, b: &Action, x: (u32, u32)) -> bool
    requires { (x.0 < length a.now.events) × (x.1 < length b.now.events) }
    ensures { IsTrue result ↔ (IsIn x.0 a.now.designated × IsIn x.1 b.now.designated) }
{
    let first = a.is_designated(EventId { n: x.0 });
    let second = b.is_designated(EventId { n: x.1 });
    first & second
}

pub(crate) fn designated_of_both(
    alloc: Global,
    a: &Action,
    b: &Action,
    pairs: &[(u32, u32)],
) -> Result<List<EventId>, OutOfMemory>
    requires pairs { pairs.now ≡ event_pairs a.now b.now }
    requires few { length pairs.now ≤ 16 }
    ensures { IfOk result (λ ids. (x : EventId) → IsIn x ids ↔ IsDesignatedInTurn a.now b.now x.n) }
{
    let mut ids = List::new(alloc);
    for k in 0..pairs.len() as u32 {
        if are_designated(a, b, pairs[k as usize]) {
            ids.push(EventId { n: k })?;
        }
    }
    Ok(ids)
}
