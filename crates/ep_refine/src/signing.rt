// What the worlds are ordered by: first their truth lists, and then in each round their signatures.

ghost use Rattle.std.specs.Prelude.{◌≡◌, ℕ, ◌+◌, ◌<◌, ◌≤◌, [], All, length, slice_index, slice_index_or, map, IfOk};
ghost use Rattle.std.specs.List.{range_with_len};
ghost use Rattle.std.specs.Ordering.{nat_cmp};
ghost use Rattle.ep_theory.specs.Rising.{rising};
ghost use Rattle.ep_theory.specs.Kripke.{IsState, truth_of};
ghost use Rattle.ep_theory.specs.Ranks.{signature};
ghost use Rattle.ep_kripke.specs.States.{IsBounded};
ghost use Rattle.ep_logic.specs.declared.limits.TheConstants.{MOST_AGENTS};
ghost use Rattle.ep_kripke.specs.declared.limits.TheConstants.{MOST_WORLDS};
ghost use Rattle.ep_refine.specs.Signing.{rows_of, IsKey, HaveKeys, KeysOrder};
ghost use Rattle.ep_refine.specs.Groups.{IsWithin};

use crate::columns::columns;
use crate::numbering::Keyed;
use ep_kripke::State;
use ep_logic::{AgentId, AtomId, List, OutOfMemory, Steps, WorldId};
use std::alloc::Global;
use std::sync::ledger::Ledger;

/// For each agent the distinct ranks of a world's successors, in rising order. Signatures are ordered agent by agent.
#[derive(Debug, PartialEq, Eq, PartialOrd, Ord, Drop)]
pub struct Signature {
    pub lists: Vec<Vec<u32>>,
}

/// A world's old rank, and for each agent the number of its list of ranks among those that are numbered with it. Where
/// there are fewer than 8 agents the rest is 0.
#[derive(Clone, Copy, Debug, PartialEq, Eq, PartialOrd, Ord)]
pub struct Key {
    pub older: u32,
    pub numbers: [u32; 8],
}

/// The distinct ranks of the worlds, in rising order.
pub fn distinct_ranks(alloc: Global, worlds: &[u32], ranks: &[u32]) -> Result<Vec<u32>, OutOfMemory>
    requires { All (λ w. w < length ranks.now) worlds.now }
    ensures { IfOk result (λ r. r.items ≡ rising nat_cmp (map (slice_index ranks.now) worlds.now)) }
{
    let mut list = Vec::new(alloc);
    for w in worlds {
        list.push(ranks[*w as usize])?;
    }
    list.sort_unstable();
    list.dedup();
    Ok(list)
}

/// Signs a world, which is a step.
pub fn sign<L: Ledger>(
    alloc: Global,
    s: &State,
    w: WorldId,
    ranks: &[u32],
    steps: &mut Steps<L>,
) -> Result<Signature, OutOfMemory>
    requires world { w.n < s.now.worlds }
    requires one_each { length ranks.now ≡ s.now.worlds }
    ensures rows { IfOk result (λ x. rows_of x ≡ (signature s.now (slice_index ranks.now) w.n).rows) }
    ensures step { steps.new ≡ steps.old + 1 }
{
    steps.tick();
    let mut lists = Vec::new(alloc);
    let mut targets = Vec::new(alloc);
    for a in 0..s.agents() {
        s.read_targets(AgentId { n: a }, w, &mut targets)?;
        let list = distinct_ranks(alloc, &targets, ranks)?;
        lists.push(list)?;
    }
    Ok(Signature { lists })
}

// Forms the key of the k-th world anew, which is a step: this is how a world is signed.
fn form_key<L: Ledger>(older: u32, columns: &[List<u32>], k: usize, steps: &mut Steps<L>) -> Key
    requires agents { length columns.now ≤ MOST_AGENTS }
    requires inside { (a : ℕ) → a < length columns.now → k < length (slice_index_or columns.now a []) }
    ensures key { IsKey older columns.now k result }
    ensures step { steps.new ≡ steps.old + 1 }
{
    steps.tick();
    let mut numbers = [0u32; 8];
    for a in 0..columns.len() {
        numbers[a] = columns[a].as_slice()[k];
    }
    Key { older, numbers }
}

// The keys of these worlds.
fn form_keys<L: Ledger>(
    alloc: Global,
    ranks: &[u32],
    worlds: &[u32],
    columns: &[List<u32>],
    steps: &mut Steps<L>,
) -> Result<Vec<Keyed<Key>>, OutOfMemory>
    requires within { IsWithin (length ranks.now) worlds.now }
    requires agents { length columns.now ≤ MOST_AGENTS }
    requires inside { (a : ℕ) → a < length columns.now → length (slice_index_or columns.now a []) ≡ length worlds.now }
    ensures worlds { IfOk result (λ v. map (λ x. x.world) v.items ≡ worlds.now) }
    ensures keys { IfOk result (λ v. HaveKeys (slice_index ranks.now) worlds.now columns.now v.items) }
    ensures few { steps.new ≤ steps.old + length worlds.now }
{
    let mut keyed = Vec::new(alloc);
    for k in 0..worlds.len() {
        let world = worlds[k];
        let key = form_key(ranks[world as usize], columns, k, steps);
        keyed.push(Keyed { key, world })?;
    }
    Ok(keyed)
}

/// Signs these worlds: their keys compare as their signatures do.
pub fn sign_these<L: Ledger>(
    alloc: Global,
    s: &State,
    ranks: &[u32],
    worlds: &[u32],
    slots: &mut Vec<u32>,
    steps: &mut Steps<L>,
) -> Result<Vec<Keyed<Key>>, OutOfMemory>
    requires one_each { length ranks.now ≡ s.now.worlds }
    requires within { IsWithin s.now.worlds worlds.now }
    requires few { length worlds.now ≤ MOST_WORLDS }
    ensures worlds { IfOk result (λ v. map (λ x. x.world) v.items ≡ worlds.now) }
    ensures keys { IfOk result (λ v. KeysOrder (signature s.now (slice_index ranks.now)) v.items) }
    ensures few { steps.new ≤ steps.old + length worlds.now }
{
    s.known();
    let columns = columns(alloc, s, ranks, worlds, slots)?;
    let keyed = form_keys(alloc, ranks, worlds, columns.as_slice(), steps)?;
    Ok(keyed)
}

fn truth_row(alloc: Global, s: &State, w: WorldId) -> Result<Vec<bool>, OutOfMemory>
    requires { w.n < s.now.worlds }
    ensures { IfOk result (λ row. row.items ≡ truth_of s.now w.n) }
{
    let mut row = Vec::new(alloc);
    for p in 0..s.atoms() {
        row.push(s.holds_atom(w, AtomId { n: p }))?;
    }
    Ok(row)
}

/// The truth lists of all worlds.
pub fn truth_rows(alloc: Global, s: &State) -> Result<Vec<Vec<bool>>, OutOfMemory>
    ensures rows { IfOk result (λ rows. map (λ row. row.items) rows.items ≡ s.now.truth) }
    ensures valid { IsState s.now }
    ensures bounded { IsBounded s.now }
{
    let mut rows = Vec::new(alloc);
    for w in 0..s.worlds() {
        rows.push(truth_row(alloc, s, WorldId { n: w })?)?;
    }
    Ok(rows)
}
