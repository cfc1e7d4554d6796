// The successors of each event, agent by agent.
ghost use Rattle.std.specs.Prelude.{◌≡◌, ◌<◌, ◌≤◌, [], ◌∷◌, IfOk};
ghost use Rattle.std.specs.List.{AllByRecursion};
ghost use Rattle.ep_logic.specs.declared.table.TheConstants.{MOST_ROWS};
ghost use Rattle.ep_logic.specs.Numbers.{table};
ghost use Rattle.ep_logic.specs.Rows.{value_at};
ghost use Rattle.ep_event.specs.Relations.{linked_rows, two_rows};

use crate::marks::marks;
use crate::numbers::Numbers;
use crate::parts::EventLink;
use ep_logic::{AgentId, Agents, List, OutOfMemory};
use std::alloc::Global;

// One agent's links.
fn rows(
    alloc: Global,
    agent: u32,
    events: u32,
    links: &[EventLink],
) -> Result<List<Numbers>, OutOfMemory>
    requires few { events ≤ MOST_ROWS }
    requires within { AllByRecursion (λ l. (l.from.n < events) × (l.to.n < events)) links.now }
    ensures { IfOk result (λ rows. rows ≡ linked_rows links.now events agent) }
{
    let square = marks(alloc, agent, events, links)?;
    let mut rows = List::new(alloc);
    for event in 0..events {
        let targets = square.places(alloc, event)?;
        rows.push(Numbers::from_slice(alloc, targets.as_slice())?)?;
    }
    Ok(rows)
}

/// Each agent's links.
pub fn relations(
    alloc: Global,
    agents: u32,
    events: u32,
    links: &[EventLink],
) -> Result<List<List<Numbers>>, OutOfMemory>
    requires few { events ≤ MOST_ROWS }
    requires within { AllByRecursion (λ l. (l.from.n < events) × (l.to.n < events)) links.now }
    ensures { IfOk result (λ relations. relations ≡ table (linked_rows links.now events) agents) }
{
    let mut relations = List::new(alloc);
    for agent in 0..agents {
        relations.push(rows(alloc, agent, events, links)?)?;
    }
    Ok(relations)
}

fn row(alloc: Global, events: &[u32]) -> Result<List<Numbers>, OutOfMemory>
    ensures { IfOk result (λ rows. rows ≡ events.now ∷ []) }
{
    let mut rows = List::new(alloc);
    rows.push(Numbers::from_slice(alloc, events)?)?;
    Ok(rows)
}

/// Each agent links the one event to itself.
pub fn loops(alloc: Global, agents: u32) -> Result<List<List<Numbers>>, OutOfMemory>
    ensures { IfOk result (λ relations. relations ≡ table (λ _. (0 ∷ []) ∷ []) agents) }
{
    let mut relations = List::new(alloc);
    for _agent in 0..agents {
        relations.push(row(alloc, &[0])?)?;
    }
    Ok(relations)
}

fn row_pair(alloc: Global, tells_apart: bool, seen: &[u32]) -> Result<List<Numbers>, OutOfMemory>
    ensures { IfOk result (λ rows. rows ≡ two_rows tells_apart seen.now) }
{
    let (first, second): (&[u32], &[u32]) = if tells_apart {
        (&[0], &[1])
    } else {
        (seen, seen)
    };
    let mut rows = row(alloc, first)?;
    rows.push(Numbers::from_slice(alloc, second)?)?;
    Ok(rows)
}

/// Members of the group tell the two events apart, and the others take either for those that are `seen`.
pub fn told_apart_by(
    alloc: Global,
    agents: u32,
    group: &Agents,
    seen: &[u32],
) -> Result<List<List<Numbers>>, OutOfMemory>
    ensures { IfOk result (λ relations. relations ≡ table (λ a. two_rows (value_at group.now a) seen.now) agents) }
{
    let mut relations = List::new(alloc);
    for n in 0..agents {
        relations.push(row_pair(alloc, group.has(AgentId { n }), seen)?)?;
    }
    Ok(relations)
}
