// The places of a world to whose events an agent links an event.

ghost use Rattle.std.specs.Prelude.{◌≡◌, ◌<◌, ◌≤◌, ◌++◌, length, OnOk};
ghost use Rattle.ep_logic.specs.Numbers.{has_pair, numbers_where};
ghost use Rattle.ep_theory.specs.Events.{event_links};
ghost use Rattle.ep_update.specs.Places.{block, is_linked_from, ArePlaces};

use crate::places::AgentProduct;
use ep_event::Action;
use ep_logic::{AgentId, EventId, OutOfMemory};

// Puts those of world v at the end.
pub(crate) fn put_block(
    row: &mut Vec<u32>,
    product: &AgentProduct,
    e: u32,
    v: u32,
) -> Result<(), OutOfMemory>
    requires agent { product.now.agent < length product.now.action.now.links }
    requires event { e < length product.now.action.now.events }
    requires world { v < product.now.state.now.worlds }
    requires places { ArePlaces product.now.state.now product.now.action.now product.now.found.now }
    ensures { OnOk result (row.new.items ≡ row.old.items ++ block product.now.state.now product.now.action.now product.now.agent e v) }
{
    let found = product.found;
    let (from, to) = (found.firsts[v as usize], found.firsts[v as usize + 1]);
    add_block(row, product, e, from, to)?;
    Ok(())
}

// Puts at the end the places from `from` on, and below `to`, to whose events the agent links the event.
fn add_block(
    row: &mut Vec<u32>,
    product: &AgentProduct,
    e: u32,
    from: u32,
    to: u32,
) -> Result<(), OutOfMemory>
    requires agent { product.now.agent < length product.now.action.now.links }
    requires event { e < length product.now.action.now.events }
    requires places { ArePlaces product.now.state.now product.now.action.now product.now.found.now }
    requires order { from ≤ to }
    requires within { to ≤ length product.now.found.now.list.items }
    ensures { OnOk result (row.new.items ≡ row.old.items ++
        numbers_where (is_linked_from from product.now.action.now product.now.agent e product.now.found.now.list.items) to) }
{
    let list = product.found.list.as_slice();
    for k in from..to {
        if leads_to(product.action, product.agent, e, list[k as usize].1) {
            row.push(k)?;
        }
    }
    Ok(())
}

// How many they are of world v.
pub(crate) fn block_length(product: &AgentProduct, e: u32, v: u32) -> u64
    requires agent { product.now.agent < length product.now.action.now.links }
    requires event { e < length product.now.action.now.events }
    requires world { v < product.now.state.now.worlds }
    requires places { ArePlaces product.now.state.now product.now.action.now product.now.found.now }
    ensures { result ≡ length (block product.now.state.now product.now.action.now product.now.agent e v) }
{
    let found = product.found;
    let (from, to) = (found.firsts[v as usize], found.firsts[v as usize + 1]);
    count_block(product, e, from, to)
}

fn count_block(product: &AgentProduct, e: u32, from: u32, to: u32) -> u64
    requires agent { product.now.agent < length product.now.action.now.links }
    requires event { e < length product.now.action.now.events }
    requires places { ArePlaces product.now.state.now product.now.action.now product.now.found.now }
    requires order { from ≤ to }
    requires within { to ≤ length product.now.found.now.list.items }
    ensures { result ≡ length (numbers_where (is_linked_from from product.now.action.now product.now.agent e product.now.found.now.list.items) to) }
{
    let list = product.found.list.as_slice();
    let mut count = 0;
    for k in from..to {
        if leads_to(product.action, product.agent, e, list[k as usize].1) {
            count += 1;
        }
    }
    count
}

// Whether the agent links the event to event f.
fn leads_to(a: &Action, agent: u32, e: u32, f: u32) -> bool
    requires agent { agent < length a.now.links }
    requires event { e < length a.now.events }
    requires other { f < length a.now.events }
    ensures { result ≡ has_pair (event_links a.now agent) e f }
{
    a.linked(AgentId { n: agent }, EventId { n: e }, EventId { n: f })
}
