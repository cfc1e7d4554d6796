// Places of a product whose rows are equal: a row depends on the old row and the event alone.

ghost use Rattle.std.specs.Prelude.{◌≡◌, ◌<◌, ◌≤◌, ◌+◌, ◌*◌, length, slice_index_or, IfOk};
ghost use Rattle.std.specs.List.{AllByRecursion};
ghost use Rattle.ep_kripke.specs.declared.limits.TheConstants.{MOST_WORLDS};
ghost use Rattle.ep_logic.specs.declared.limits.TheConstants.{MOST_EVENTS};
ghost use Rattle.ep_theory.specs.Product.{places};
ghost use Rattle.ep_update.specs.Places.{pair_of, AreOriginals};

use ep_event::Action;
use ep_kripke::State;
use ep_logic::{AgentId, OutOfMemory};
use std::alloc::Global;

/// For each place a place, no later, with an equal row of the agent: the first with the same old row and event.
pub(crate) fn originals_of(
    alloc: Global,
    s: &State,
    a: &Action,
    agent: u32,
    list: &[(u32, u32)],
) -> Result<Vec<u32>, OutOfMemory>
    requires agent { agent < s.now.agents }
    requires few { length list.now ≤ MOST_WORLDS }
    requires list { list.now ≡ places s.now a.now }
    ensures { IfOk result (λ found. AreOriginals s.now a.now agent found.items) }
{
    let events = a.events() as usize;
    let (names, rows) = s.relation(AgentId { n: agent }).names();
    // For each pair a place that may have it: only a hint, since the pairs are compared.
    let mut hint = vec![in alloc; 0u32; rows.len() * events]?;
    let mut originals = Vec::new(alloc);
    for i in 0..list.len() {
        let (r, e) = pair_at(names, list[i]);
        let at = slot(r, e, events);
        let original = original_at(names, list, i as u32, hint[at]);
        hint[at] = original;
        originals.push(original)?;
    }
    Ok(originals)
}

// The number of a place's old row, and its event.
fn pair_at(names: &[u32], at: (u32, u32)) -> (u32, u32)
    requires { at.0 < length names.now }
    ensures { result ≡ pair_of names.now at }
{
    let (w, e) = at;
    (names[w as usize], e)
}

// Where a pair stands among all pairs.
fn slot(r: u32, e: u32, events: usize) -> usize
    requires row { r < MOST_WORLDS }
    requires event { e < events }
    requires events { events ≤ MOST_EVENTS }
    ensures { result ≡ r * events + e }
{
    r as usize * events + e as usize
}

// The place that is hinted at, where it is earlier and has the same pair; else the place itself.
fn original_at(names: &[u32], list: &[(u32, u32)], i: u32, hinted: u32) -> u32
    requires worlds { AllByRecursion (λ at. at.0 < length names.now) list.now }
    requires place { i < length list.now }
    ensures no_later { result ≤ i }
    ensures same { pair_of names.now (slice_index_or list.now result (0, 0)) ≡ pair_of names.now (slice_index_or list.now i (0, 0)) }
{
    if hinted < i && pair_at(names, list[hinted as usize]) == pair_at(names, list[i as usize]) {
        return hinted;
    }
    i
}
