// For each agent the numbers of the lists of ranks of some worlds, where each row is listed once.

ghost use Rattle.std.specs.Prelude.{◌≡◌, ℕ, ◌+◌, ◌<◌, ◌≤◌, length, slice_index, map, IfOk, OnOk, MatchBool};
ghost use Rattle.std.specs.List.{AllByRecursion};
ghost use Rattle.ep_theory.specs.Kripke.{links_of};
ghost use Rattle.ep_kripke.specs.declared.limits.TheConstants.{MOST_WORLDS};
ghost use Rattle.ep_refine.specs.Groups.{IsWithin};
ghost use Rattle.ep_refine.specs.Columns.{ranks_of, HasSlot, Slotted, OrdersRanks, AreColumns};

use crate::numbering::{Numbered, number};
use crate::signing::distinct_ranks;
use ep_kripke::State;
use ep_logic::{AgentId, List, OutOfMemory, WorldId};
use std::alloc::Global;

// Whether the row of this name has a slot: the first world of its slot has this name. What stands in the slots from
// earlier rounds does no harm.
fn has_slot(names: &[u32], name: u32, slots: &[u32], firsts: &[u32]) -> bool
    requires name { name < length slots.now }
    requires firsts { IsWithin (length names.now) firsts.now }
    ensures { MatchBool result (HasSlot names.now slots.now firsts.now name) (HasSlot names.now slots.now firsts.now name → ⊥) }
{
    let slot = slots[name as usize] as usize;
    slot < firsts.len() && names[firsts[slot] as usize] == name
}

// Gives the row of a world a slot, unless it has one.
fn note_row(
    names: &[u32],
    w: u32,
    slots: &mut Vec<u32>,
    firsts: &mut Vec<u32>,
) -> Result<(), OutOfMemory>
    requires world { w < length names.now }
    requires name { slice_index names.now w < length slots.old.items }
    requires firsts { IsWithin (length names.now) firsts.old.items }
    requires few { length firsts.old.items ≤ MOST_WORLDS }
    ensures firsts { OnOk result (IsWithin (length names.now) firsts.new.items) }
    ensures slotted { OnOk result (Slotted names.now w slots.old.items firsts.old.items slots.new.items firsts.new.items) }
{
    let name = names[w as usize];
    if has_slot(names, name, slots, firsts) {
        return Ok(());
    }
    slots[name as usize] = firsts.len() as u32;
    firsts.push(w)?;
    Ok(())
}

// One world for each row that one of these worlds has.
fn first_worlds(
    alloc: Global,
    names: &[u32],
    worlds: &[u32],
    slots: &mut Vec<u32>,
) -> Result<Vec<u32>, OutOfMemory>
    requires names { AllByRecursion (λ i. i < length slots.old.items) names.now }
    requires worlds { IsWithin (length names.now) worlds.now }
    requires few { length worlds.now ≤ MOST_WORLDS }
    ensures long { OnOk result (length slots.new.items ≡ length slots.old.items) }
    ensures few { IfOk result (λ firsts. length firsts.items ≤ length worlds.now) }
    ensures firsts { IfOk result (λ firsts. IsWithin (length names.now) firsts.items) }
    ensures slots { IfOk result (λ firsts. (k : ℕ) → k < length worlds.now →
        HasSlot names.now slots.new.items firsts.items (slice_index names.now (slice_index worlds.now k))) }
{
    let mut firsts = Vec::new(alloc);
    for w in worlds {
        note_row(names, *w, slots, &mut firsts)?;
    }
    Ok(firsts)
}

// The lists of ranks of these worlds.
fn lists_of(
    alloc: Global,
    s: &State,
    a: AgentId,
    ranks: &[u32],
    worlds: &[u32],
) -> Result<Vec<Vec<u32>>, OutOfMemory>
    requires agent { a.n < s.now.agents }
    requires one_each { length ranks.now ≡ s.now.worlds }
    requires within { IsWithin s.now.worlds worlds.now }
    ensures { IfOk result (λ v. map (λ l. l.items) v.items ≡ map (ranks_of (links_of s.now a.n) (slice_index ranks.now)) worlds.now) }
{
    let mut lists = Vec::new(alloc);
    let mut targets = Vec::new(alloc);
    for w in worlds {
        s.read_targets(a, WorldId { n: *w }, &mut targets)?;
        lists.push(distinct_ranks(alloc, &targets, ranks)?)?;
    }
    Ok(lists)
}

// For each world the number of its row's slot.
fn spread(
    alloc: Global,
    names: &[u32],
    worlds: &[u32],
    slots: &[u32],
    numbers: &[u32],
) -> Result<List<u32>, OutOfMemory>
    requires worlds { IsWithin (length names.now) worlds.now }
    requires names { AllByRecursion (λ i. i < length slots.now) names.now }
    requires slots { (k : ℕ) → k < length worlds.now →
        slice_index slots.now (slice_index names.now (slice_index worlds.now k)) < length numbers.now }
    ensures { IfOk result (λ column. column ≡
        map (λ w. slice_index numbers.now (slice_index slots.now (slice_index names.now w))) worlds.now) }
{
    let mut column = List::new(alloc);
    for w in worlds {
        let name = names[*w as usize];
        column.push(numbers[slots[name as usize] as usize])?;
    }
    Ok(column)
}

// Makes sure that there are so many slots.
fn fit(slots: &mut Vec<u32>, len: usize) -> Result<(), OutOfMemory>
    ensures { OnOk result (len ≤ length slots.new.items) }
{
    if len <= slots.len() {
        return Ok(());
    }
    slots.resize(len, 0)?;
    Ok(())
}

// The numbers of the lists of ranks by an agent.
fn column(
    alloc: Global,
    s: &State,
    a: AgentId,
    ranks: &[u32],
    worlds: &[u32],
    slots: &mut Vec<u32>,
) -> Result<List<u32>, OutOfMemory>
    requires agent { a.n < s.now.agents }
    requires one_each { length ranks.now ≡ s.now.worlds }
    requires within { IsWithin s.now.worlds worlds.now }
    requires few { length worlds.now ≤ MOST_WORLDS }
    ensures { IfOk result (OrdersRanks (links_of s.now a.n) (slice_index ranks.now) worlds.now) }
{
    let (names, rows) = s.relation(a).names();
    fit(slots, rows.len())?;
    let firsts = first_worlds(alloc, names, worlds, slots)?;
    let lists = lists_of(alloc, s, a, ranks, &firsts)?;
    let Numbered {
        numbers,
        count: _count,
    } = number(alloc, lists)?;
    let column = spread(alloc, names, worlds, slots, &numbers)?;
    Ok(column)
}

/// For each agent the numbers of the worlds' lists of ranks: they compare as the lists do.
pub fn columns(
    alloc: Global,
    s: &State,
    ranks: &[u32],
    worlds: &[u32],
    slots: &mut Vec<u32>,
) -> Result<List<List<u32>>, OutOfMemory>
    requires one_each { length ranks.now ≡ s.now.worlds }
    requires within { IsWithin s.now.worlds worlds.now }
    requires few { length worlds.now ≤ MOST_WORLDS }
    ensures { IfOk result (AreColumns s.now (slice_index ranks.now) worlds.now) }
{
    let mut columns = List::new(alloc);
    for a in 0..s.agents() {
        columns.push(column(alloc, s, AgentId { n: a }, ranks, worlds, slots)?)?;
    }
    Ok(columns)
}
