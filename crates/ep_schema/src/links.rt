//! Links between events, and the designated ones.

ghost use Rattle.std.specs.Prelude.{◌≡◌, ◌≤◌, ◌++◌, IfOk, OnOk, length, map};
ghost use Rattle.ep_logic.specs.declared.limits.TheConstants.{MOST_INITIAL_WORLDS};
ghost use Rattle.ep_binding.specs.Bindings.{IsApart};
ghost use Rattle.ep_types.specs.Tasks.{event_names};
ghost use Rattle.ep_universe.specs.Links.{agent_count, agent_pairs, place_of};
ghost use Rattle.ep_schema.specs.Made.{event, event_link, event_links};

use ep_event::EventLink;
use ep_logic::{AgentId, EventId, List, OutOfMemory};
use ep_name::NameTable;
use ep_tree::{EventTree, LinkTree, Name};
use ep_universe::links::{find_last_pairs, item_pairs, place_of};
use ep_universe::names::copy_text;
use ep_universe::objects::Bound;
use ep_universe::universe::Universe;
use std::alloc::Global;

/// The table of the names of events.
pub fn event_table(alloc: Global, events: &[EventTree]) -> Result<NameTable, OutOfMemory>
    requires few { length events.now ≤ MOST_INITIAL_WORLDS }
    requires apart { IsApart (event_names events.now) }
    ensures { IfOk result (λ names. names ≡ event_names events.now) }
{
    let mut names = NameTable::new(alloc);
    for event in events {
        names.push(copy_text(alloc, &event.name.text)?)?;
    }
    Ok(names)
}

/// The designated events, as they are written.
pub fn event_ids(
    alloc: Global,
    names: &NameTable,
    designated: &[Name],
) -> Result<List<EventId>, OutOfMemory>
    ensures { IfOk result (λ ids. ids ≡ map (λ x. event (place_of names.now x)) designated.now) }
{
    let mut ids = List::new(alloc);
    for name in designated {
        ids.push(EventId {
            n: place_of(names, name),
        })?;
    }
    Ok(ids)
}

fn push_event_links(
    links: &mut List<EventLink>,
    agent: AgentId,
    pairs: &[(u32, u32)],
) -> Result<(), OutOfMemory>
    ensures { OnOk result (links.new ≡ links.old ++ map (event_link agent.n) pairs.now) }
{
    for (from, to) in pairs {
        links.push(EventLink {
            agent,
            from: EventId { n: *from },
            to: EventId { n: *to },
        })?;
    }
    Ok(())
}

/// The links between events, agent by agent.
pub fn event_links(
    alloc: Global,
    universe: &Universe,
    binding: &[Bound],
    names: &NameTable,
    items: &[LinkTree],
) -> Result<List<EventLink>, OutOfMemory>
    ensures { IfOk result (λ links. links ≡ event_links (agent_pairs universe.now.names binding.now names.now items.now) (agent_count universe.now.names)) }
{
    let agents = universe.agents();
    let mut links = List::new(alloc);
    for n in 0..agents {
        let agent = AgentId { n };
        let pairs = item_pairs(
            alloc,
            names,
            find_last_pairs(universe, binding, items, agent),
        )?;
        push_event_links(&mut links, agent, pairs.as_slice())?;
    }
    Ok(links)
}
