//! Links between worlds, and the designated ones.

ghost use Rattle.std.specs.Prelude.{◌≡◌, ◌≤◌, [], ◌++◌, IfOk, OnOk, length, map};
ghost use Rattle.ep_logic.specs.declared.limits.TheConstants.{MOST_INITIAL_WORLDS};
ghost use Rattle.ep_binding.specs.Bindings.{IsApart};
ghost use Rattle.ep_kripke.specs.Parts.{world};
ghost use Rattle.ep_types.specs.Tasks.{world_names};
ghost use Rattle.ep_universe.specs.Links.{agent_count, agent_pairs, place_of};
ghost use Rattle.ep_initial.specs.Made.{world_link, world_links};

use ep_kripke::Link;
use ep_logic::{AgentId, List, OutOfMemory, WorldId};
use ep_name::NameTable;
use ep_tree::{LinkTree, Name, WorldTree};
use ep_universe::links::{find_last_pairs, item_pairs, place_of};
use ep_universe::names::copy_text;
use ep_universe::universe::Universe;
use std::alloc::Global;

/// The table of the names of worlds.
pub fn world_table(alloc: Global, worlds: &[WorldTree]) -> Result<NameTable, OutOfMemory>
    requires few { length worlds.now ≤ MOST_INITIAL_WORLDS }
    requires apart { IsApart (world_names worlds.now) }
    ensures { IfOk result (λ names. names ≡ world_names worlds.now) }
{
    let mut names = NameTable::new(alloc);
    for world in worlds {
        names.push(copy_text(alloc, &world.name.text)?)?;
    }
    Ok(names)
}

/// The designated worlds, as they are written.
pub fn world_ids(
    alloc: Global,
    names: &NameTable,
    designated: &[Name],
) -> Result<List<WorldId>, OutOfMemory>
    ensures { IfOk result (λ ids. ids ≡ map (λ x. world (place_of names.now x)) designated.now) }
{
    let mut ids = List::new(alloc);
    for name in designated {
        ids.push(WorldId {
            n: place_of(names, name),
        })?;
    }
    Ok(ids)
}

fn push_world_links(
    links: &mut List<Link>,
    agent: AgentId,
    pairs: &[(u32, u32)],
) -> Result<(), OutOfMemory>
    ensures { OnOk result (links.new ≡ links.old ++ map (world_link agent.n) pairs.now) }
{
    for (from, to) in pairs {
        links.push(Link {
            agent,
            from: WorldId { n: *from },
            to: WorldId { n: *to },
        })?;
    }
    Ok(())
}

/// The links between worlds, agent by agent.
pub fn world_links(
    alloc: Global,
    universe: &Universe,
    names: &NameTable,
    items: &[LinkTree],
) -> Result<List<Link>, OutOfMemory>
    ensures { IfOk result (λ links. links ≡ world_links (agent_pairs universe.now.names [] names.now items.now) (agent_count universe.now.names)) }
{
    let agents = universe.agents();
    let mut links = List::new(alloc);
    for n in 0..agents {
        let agent = AgentId { n };
        let pairs = item_pairs(alloc, names, find_last_pairs(universe, &[], items, agent))?;
        push_world_links(&mut links, agent, pairs.as_slice())?;
    }
    Ok(links)
}
