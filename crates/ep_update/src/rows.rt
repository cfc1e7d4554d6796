// The links and the designated worlds of a product.

ghost use Rattle.std.specs.Prelude.{◌≡◌, ◌*◌, ◌<◌, ◌≤◌, ◌^◌, ◌++◌, length, flat_map, sum_by, IfOk, OnOk};
ghost use Rattle.std.specs.List.{AllByRecursion};
ghost use Rattle.ep_kripke.specs.declared.limits.TheConstants.{MOST_WORLDS};
ghost use Rattle.ep_logic.specs.Numbers.{numbers_where, table};
ghost use Rattle.ep_theory.specs.Fits.{ActionFits};
ghost use Rattle.ep_theory.specs.Product.{places, place_at, is_designated};
ghost use Rattle.ep_update.specs.Places.{block, place_row, place_rows, ArePlaces, AreOriginals};

use crate::blocks::{block_length, put_block};
use crate::originals::originals_of;
use crate::places::{AgentProduct, Places};
use ep_event::Action;
use ep_kripke::{Naming, Relation, State};
use ep_logic::{AgentId, EventId, List, OutOfMemory, WorldId};
use std::alloc::Global;

pub(crate) fn relations_of(
    alloc: Global,
    s: &State,
    a: &Action,
    found: &Places,
) -> Result<List<Relation>, OutOfMemory>
    requires fits { ActionFits s.now a.now }
    requires few { length (places s.now a.now) ≤ MOST_WORLDS }
    requires places { ArePlaces s.now a.now found.now }
    ensures { IfOk result (λ relations. relations ≡ table (place_rows s.now a.now) s.now.agents) }
{
    let mut relations = List::new(alloc);
    for agent in 0..s.agents() {
        let product = AgentProduct {
            state: s,
            action: a,
            agent,
            found,
        };
        let originals = originals_of(alloc, s, a, agent, &found.list)?;
        relations.push(relation_of(alloc, &product, &originals)?)?;
    }
    Ok(relations)
}

// Each row is made where its pair comes first, and named again at the other places.
fn relation_of(
    alloc: Global,
    product: &AgentProduct,
    originals: &[u32],
) -> Result<Relation, OutOfMemory>
    requires fits { ActionFits product.now.state.now product.now.action.now }
    requires agent { product.now.agent < product.now.state.now.agents }
    requires few { length (places product.now.state.now product.now.action.now) ≤ MOST_WORLDS }
    requires places { ArePlaces product.now.state.now product.now.action.now product.now.found.now }
    requires originals { AreOriginals product.now.state.now product.now.action.now product.now.agent originals.now }
    ensures { IfOk result (λ rows. rows ≡ place_rows product.now.state.now product.now.action.now product.now.agent) }
{
    let list = product.found.list.as_slice();
    let mut naming = Naming::new(alloc, list.len() as u32)?;
    let mut row = Vec::new(alloc);
    let mut targets = Vec::new(alloc);
    for i in 0..list.len() {
        let original = originals[i];
        if (original as usize) < i {
            naming.push_again(original)?;
        } else {
            fill_row(&mut row, &mut targets, product, i)?;
            naming.push(&row)?;
        }
    }
    let rows = naming.finish(alloc)?;
    Ok(rows)
}

// Writes the row of a place.
fn fill_row(
    row: &mut Vec<u32>,
    targets: &mut Vec<u32>,
    product: &AgentProduct,
    i: usize,
) -> Result<(), OutOfMemory>
    requires fits { ActionFits product.now.state.now product.now.action.now }
    requires agent { product.now.agent < product.now.state.now.agents }
    requires place { i < length (places product.now.state.now product.now.action.now) }
    requires places { ArePlaces product.now.state.now product.now.action.now product.now.found.now }
    ensures { OnOk result (row.new.items ≡ place_row product.now.state.now product.now.action.now product.now.agent i) }
{
    let (w, e) = product.found.list[i];
    let agent = AgentId { n: product.agent };
    product
        .state
        .read_targets(agent, WorldId { n: w }, targets)?;
    row.clear();
    put_blocks(row, product, e, targets)?;
    Ok(())
}

// Puts the places of these worlds at the end.
fn put_blocks(
    row: &mut Vec<u32>,
    product: &AgentProduct,
    e: u32,
    worlds: &[u32],
) -> Result<(), OutOfMemory>
    requires agent { product.now.agent < length product.now.action.now.links }
    requires event { e < length product.now.action.now.events }
    requires places { ArePlaces product.now.state.now product.now.action.now product.now.found.now }
    requires worlds { AllByRecursion (λ v. v < product.now.state.now.worlds) worlds.now }
    ensures { OnOk result (row.new.items ≡ row.old.items ++ flat_map (block product.now.state.now product.now.action.now product.now.agent e) worlds.now) }
{
    for v in worlds {
        put_block(row, product, e, *v)?;
    }
    Ok(())
}

/// The number of links of the product, which is not built for it.
pub(crate) fn count_links(
    alloc: Global,
    s: &State,
    a: &Action,
    found: &Places,
) -> Result<u64, OutOfMemory>
    requires fits { ActionFits s.now a.now }
    requires few { length (places s.now a.now) ≤ MOST_WORLDS }
    requires places { ArePlaces s.now a.now found.now }
    ensures { IfOk result (λ n. n ≡ sum_by (sum_by length) (table (place_rows s.now a.now) s.now.agents)) }
{
    let mut total = 0;
    for agent in 0..s.agents() {
        let product = AgentProduct {
            state: s,
            action: a,
            agent,
            found,
        };
        let originals = originals_of(alloc, s, a, agent, &found.list)?;
        total += count_of(alloc, &product, &originals)?;
    }
    Ok(total)
}

// The number of the agent's links. A row is counted where its pair comes first.
fn count_of(alloc: Global, product: &AgentProduct, originals: &[u32]) -> Result<u64, OutOfMemory>
    requires fits { ActionFits product.now.state.now product.now.action.now }
    requires agent { product.now.agent < product.now.state.now.agents }
    requires few { length (places product.now.state.now product.now.action.now) ≤ MOST_WORLDS }
    requires places { ArePlaces product.now.state.now product.now.action.now product.now.found.now }
    requires originals { AreOriginals product.now.state.now product.now.action.now product.now.agent originals.now }
    ensures count { IfOk result (λ n. n ≡ sum_by length (place_rows product.now.state.now product.now.action.now product.now.agent)) }
    ensures bound { IfOk result (λ n. n ≤ 65536 * 65536) }
{
    let mut lengths = Vec::new(alloc);
    let mut targets = Vec::new(alloc);
    let mut total = 0;
    for i in 0..originals.len() {
        let original = originals[i] as usize;
        let length = if original < i {
            lengths[original]
        } else {
            row_length(&mut targets, product, i)?
        };
        lengths.push(length)?;
        total += length;
    }
    Ok(total)
}

// How long the row of a place is.
fn row_length(targets: &mut Vec<u32>, product: &AgentProduct, i: usize) -> Result<u64, OutOfMemory>
    requires fits { ActionFits product.now.state.now product.now.action.now }
    requires agent { product.now.agent < product.now.state.now.agents }
    requires few { length (places product.now.state.now product.now.action.now) ≤ MOST_WORLDS }
    requires place { i < length (places product.now.state.now product.now.action.now) }
    requires places { ArePlaces product.now.state.now product.now.action.now product.now.found.now }
    ensures { IfOk result (λ n. n ≡ length (place_row product.now.state.now product.now.action.now product.now.agent i)) }
{
    let (w, e) = product.found.list[i];
    let agent = AgentId { n: product.agent };
    product
        .state
        .read_targets(agent, WorldId { n: w }, targets)?;
    let length = count_blocks(product, e, targets);
    Ok(length)
}

// How many places of these worlds there are.
fn count_blocks(product: &AgentProduct, e: u32, worlds: &[u32]) -> u64
    requires agent { product.now.agent < length product.now.action.now.links }
    requires event { e < length product.now.action.now.events }
    requires places { ArePlaces product.now.state.now product.now.action.now product.now.found.now }
    requires worlds { AllByRecursion (λ v. v < product.now.state.now.worlds) worlds.now }
    requires few { length (flat_map (block product.now.state.now product.now.action.now product.now.agent e) worlds.now) < 2 ^ 64 }
    ensures { result ≡ length (flat_map (block product.now.state.now product.now.action.now product.now.agent e) worlds.now) }
{
    let mut total = 0;
    for v in worlds {
        total += block_length(product, e, *v);
    }
    total
}

pub(crate) fn designated_of(
    alloc: Global,
    s: &State,
    a: &Action,
    list: &[(u32, u32)],
) -> Result<List<u32>, OutOfMemory>
    requires few { length list.now ≤ MOST_WORLDS }
    requires list { list.now ≡ places s.now a.now }
    ensures { IfOk result (λ v. v ≡ numbers_where (λ i. is_designated s.now a.now (place_at s.now a.now i)) (length (places s.now a.now))) }
{
    let mut designated = List::new(alloc);
    for i in 0..list.len() {
        if is_point(s, a, list[i]) {
            designated.push(i as u32)?;
        }
    }
    Ok(designated)
}

// Whether the world and the event of a place are designated.
fn is_point(s: &State, a: &Action, at: (u32, u32)) -> bool
    requires { at.1 < length a.now.events }
    ensures { result ≡ is_designated s.now a.now at }
{
    let (w, e) = at;
    let world = s.is_designated(WorldId { n: w });
    let event = a.is_designated(EventId { n: e });
    world && event
}
