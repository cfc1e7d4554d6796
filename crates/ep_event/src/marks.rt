// Which events are linked or designated, as truth values.
ghost use Rattle.std.specs.Prelude.{◌≡◌, ◌<◌, ◌≤◌, map, IfOk};
ghost use Rattle.std.specs.List.{AllByRecursion};
ghost use Rattle.ep_logic.specs.declared.table.TheConstants.{MOST_ROWS};
ghost use Rattle.ep_logic.specs.Numbers.{numbers_where, table};
ghost use Rattle.ep_event.specs.Built.{has_link, has_event};

use crate::numbers::Numbers;
use crate::parts::EventLink;
use ep_logic::{BitTable, Bits, EventId, List, OutOfMemory};
use std::alloc::Global;

fn numbers_of(alloc: Global, ids: &[EventId]) -> Result<List<u32>, OutOfMemory>
    ensures { IfOk result (λ numbers. numbers ≡ map (λ e. e.n) ids.now) }
{
    let mut numbers = List::new(alloc);
    for id in ids {
        numbers.push(id.n)?;
    }
    Ok(numbers)
}

// The events that are named, each once and in rising order.
pub fn named(alloc: Global, events: u32, ids: &[EventId]) -> Result<Numbers, OutOfMemory>
    ensures { IfOk result (λ n. n ≡ numbers_where (has_event ids.now) events) }
{
    let numbers = numbers_of(alloc, ids)?;
    let row = Bits::from_places(alloc, events, numbers.as_slice())?;
    let places = row.places(alloc)?;
    Numbers::from_slice(alloc, places.as_slice())
}

// True where a link of the agent leads from the event of the row to the event of the place.
pub fn marks(
    alloc: Global,
    agent: u32,
    events: u32,
    links: &[EventLink],
) -> Result<BitTable, OutOfMemory>
    requires few { events ≤ MOST_ROWS }
    requires within { AllByRecursion (λ l. (l.from.n < events) × (l.to.n < events)) links.now }
    ensures { IfOk result (λ t. t ≡ record { width = events; rows = table (λ e. table (has_link links.now agent e) events) events }) }
{
    let mut square = BitTable::zeros(alloc, events, events)?;
    for link in links {
        if link.agent.n == agent {
            square.set(link.from.n, link.to.n, true);
        }
    }
    Ok(square)
}
