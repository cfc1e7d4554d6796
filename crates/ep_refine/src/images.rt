// A state of kept worlds, under new numbers.

ghost use Rattle.std.specs.Prelude.{◌≡◌, ◌<◌, ◌≤◌, All, length, map, slice_index, IfOk};
ghost use Rattle.ep_kripke.specs.declared.limits.TheConstants.{MOST_WORLDS};
ghost use Rattle.ep_theory.specs.Kripke.{IsState, links_of, successors, truth_of};
ghost use Rattle.ep_theory.specs.Image.{IsImage};
ghost use Rattle.ep_logic.specs.Rows.{value_at};
ghost use Rattle.ep_refine.specs.Choices.{kept_numbers, IsChoice};
ghost use Rattle.ep_refine.specs.Originals.{AreOriginals};
ghost use Rattle.std.specs.List.{AllByRecursion};

use ep_kripke::{Naming, Relation, State};
use ep_logic::{AgentId, BitTable, Bits, List, OutOfMemory, WorldId};
use std::alloc::{AllocError, Global};
use std::rc::Rc;

/// What is left of a state when the worlds that are kept are renumbered and the others dropped. `chosen` has a kept
/// world for each new number; it stands for all kept worlds of that number.
pub fn image(
    alloc: Global,
    s: &State,
    keep: &Bits,
    numbers: &[u32],
    chosen: &[u32],
) -> Result<State, OutOfMemory>
    requires kept { length keep.now ≡ s.now.worlds }
    requires numbered { length numbers.now ≡ s.now.worlds }
    requires few { length chosen.now ≤ MOST_WORLDS }
    requires choice { IsChoice s.now (value_at keep.now) (slice_index numbers.now) chosen.now }
    ensures image { IfOk result (IsImage s.now (value_at keep.now) (slice_index numbers.now)) }
    ensures worlds { IfOk result (λ q. q.worlds ≡ length chosen.now) }
    ensures valid { IfOk result IsState }
{
    let truth = shared_truth(alloc, s, chosen)?;
    let relations = relations_of(alloc, s, keep, numbers, chosen)?;
    let designated = renumbered(alloc, s.designated(), keep, numbers)?;
    let designated = List::from_vec(designated);
    Ok(State::from_relations(s.agents(), s.atoms(), truth, relations, designated))
}

// The numbers of the kept worlds among these, in rising order, each once.
fn renumbered(
    alloc: Global,
    worlds: &[u32],
    keep: &Bits,
    numbers: &[u32],
) -> Result<Vec<u32>, OutOfMemory>
    requires kept { All (λ w. w < length keep.now) worlds.now }
    requires numbered { length numbers.now ≡ length keep.now }
    ensures { IfOk result (λ r. r.items ≡ kept_numbers (value_at keep.now) (slice_index numbers.now) worlds.now) }
{
    let mut list = Vec::new(alloc);
    for w in worlds {
        if keep.get(*w) {
            list.push(numbers[*w as usize])?;
        }
    }
    list.sort_unstable();
    list.dedup();
    Ok(list)
}

// For each chosen world the numbers of its successors. A row is made where it comes first, and named again at the
// other worlds.
fn relation_of(
    alloc: Global,
    s: &State,
    a: AgentId,
    keep: &Bits,
    numbers: &[u32],
    chosen: &[u32],
) -> Result<Relation, OutOfMemory>
    requires agent { a.n < s.now.agents }
    requires kept { length keep.now ≡ s.now.worlds }
    requires numbered { length numbers.now ≡ s.now.worlds }
    requires few { length chosen.now ≤ MOST_WORLDS }
    requires choice { IsChoice s.now (value_at keep.now) (slice_index numbers.now) chosen.now }
    ensures { IfOk result (λ rows. rows ≡
        map (λ w. kept_numbers (value_at keep.now) (slice_index numbers.now) (successors (links_of s.now a.n) w)) chosen.now) }
{
    let originals = originals_of(alloc, s, a, chosen)?;
    let mut naming = Naming::new(alloc, chosen.len() as u32)?;
    let mut targets = Vec::new(alloc);
    for i in 0..chosen.len() {
        let original = originals[i];
        if (original as usize) < i {
            naming.push_again(original)?;
        } else {
            s.read_targets(a, WorldId { n: chosen[i] }, &mut targets)?;
            let row = renumbered(alloc, &targets, keep, numbers)?;
            naming.push(&row)?;
        }
    }
    let rows = naming.finish(alloc)?;
    Ok(rows)
}

// For each chosen world a place, no later, of one with the same successors: the first with the same name.
fn originals_of(
    alloc: Global,
    s: &State,
    a: AgentId,
    chosen: &[u32],
) -> Result<Vec<u32>, OutOfMemory>
    requires agent { a.n < s.now.agents }
    requires few { length chosen.now ≤ MOST_WORLDS }
    requires worlds { AllByRecursion (λ w. w < s.now.worlds) chosen.now }
    ensures { IfOk result (λ found. AreOriginals s.now a.n chosen.now found.items) }
{
    let (names, rows) = s.relation(a).names();
    // For each row a place that may have it: only a hint, since the names are compared.
    let mut hint = vec![in alloc; 0u32; rows.len()]?;
    let mut originals = Vec::new(alloc);
    for i in 0..chosen.len() {
        let name = names[chosen[i] as usize] as usize;
        let original = original_at(names, chosen, i as u32, hint[name]);
        hint[name] = original;
        originals.push(original)?;
    }
    Ok(originals)
}

// The place that is hinted at, where it is earlier and its world has the same name; else the place itself.
fn original_at(names: &[u32], chosen: &[u32], i: u32, hinted: u32) -> u32
    requires worlds { AllByRecursion (λ w. w < length names.now) chosen.now }
    requires place { i < length chosen.now }
    ensures no_later { result ≤ i }
    ensures same { slice_index names.now (slice_index chosen.now result) ≡ slice_index names.now (slice_index chosen.now i) }
{
    if hinted < i && name_at(names, chosen, hinted) == name_at(names, chosen, i) {
        return hinted;
    }
    i
}

fn name_at(names: &[u32], chosen: &[u32], i: u32) -> u32
    requires worlds { AllByRecursion (λ w. w < length names.now) chosen.now }
    requires place { i < length chosen.now }
    ensures { result ≡ slice_index names.now (slice_index chosen.now i) }
{
    names[chosen[i as usize] as usize]
}

fn relations_of(
    alloc: Global,
    s: &State,
    keep: &Bits,
    numbers: &[u32],
    chosen: &[u32],
) -> Result<List<Relation>, OutOfMemory>
    requires kept { length keep.now ≡ s.now.worlds }
    requires numbered { length numbers.now ≡ s.now.worlds }
    requires few { length chosen.now ≤ MOST_WORLDS }
    requires choice { IsChoice s.now (value_at keep.now) (slice_index numbers.now) chosen.now }
    ensures { IfOk result (λ relations. relations ≡
        map (λ pairs. map (λ w. kept_numbers (value_at keep.now) (slice_index numbers.now) (successors pairs w)) chosen.now) s.now.links) }
{
    let mut relations = List::new(alloc);
    for a in 0..s.agents() {
        relations.push(relation_of(alloc, s, AgentId { n: a }, keep, numbers, chosen)?)?;
    }
    Ok(relations)
}

fn shared_truth(alloc: Global, s: &State, worlds: &[u32]) -> Result<Rc<BitTable>, OutOfMemory>
    requires few { length worlds.now ≤ MOST_WORLDS }
    requires worlds { All (λ w. w < s.now.worlds) worlds.now }
    ensures { IfOk result (λ t. t.value ≡ record { width = s.now.atoms; rows = map (truth_of s.now) worlds.now }) }
{
    let table = truth_table(alloc, s, worlds)?;
    Ok(Rc::new(alloc, table).map_err(AllocError::from)?)
}

// The truth lists of worlds.
fn truth_table(alloc: Global, s: &State, worlds: &[u32]) -> Result<BitTable, OutOfMemory>
    requires few { length worlds.now ≤ MOST_WORLDS }
    requires worlds { All (λ w. w < s.now.worlds) worlds.now }
    ensures { IfOk result (λ t. t ≡ record { width = s.now.atoms; rows = map (truth_of s.now) worlds.now }) }
{
    let mut table = BitTable::zeros(alloc, 0, s.atoms())?;
    for w in worlds {
        table.push(s.truth_words(WorldId { n: *w }))?;
    }
    Ok(table)
}
