// The links of an agent backwards, by way of its rows.

ghost use Rattle.std.specs.Prelude.{◌≡◌, ℕ, ◌+◌, ◌<◌, ◌≤◌, ◌^◌, [], length, slice_index_or, sum_by, IfOk, OnOk};
ghost use Rattle.std.specs.List.{AllByRecursion};
ghost use Rattle.ep_theory.specs.Kripke.{links_of};
ghost use Rattle.ep_kripke.specs.declared.limits.TheConstants.{MOST_WORLDS};
ghost use Rattle.ep_kripke.specs.Relations.{named_rows};
ghost use Rattle.ep_refine.specs.Backward.{Users, Holding, HoldsMore, Holders, IsShaped, LeadsBack, AreBackward};

use ep_kripke::{RowSet, Sources, State};
use ep_logic::{AgentId, Bits, List, OutOfMemory};
use std::alloc::Global;

/// For each world the rows that have it, and for each row the worlds whose successors it gives.
#[derive(Drop)]
pub struct Backward {
    pub holders: Sources,
    pub users: Sources,
    pub count: u32,
}

// For each row the worlds that name it.
fn users_of(alloc: Global, names: &[u32], count: u32) -> Result<Sources, OutOfMemory>
    requires few { length names.now ≤ MOST_WORLDS }
    requires within { AllByRecursion (λ i. i < count) names.now }
    ensures { IfOk result (Users names.now count (length names.now)) }
{
    let mut users = Sources::new(alloc, count)?;
    for w in 0..names.len() {
        users.add(w as u32, names[w])?;
    }
    Ok(users)
}

// Adds a row for each of its worlds, unless it was added.
fn hold(
    rows: &RowSet,
    name: u32,
    members: &mut Vec<u32>,
    left: &mut Bits,
    holders: &mut Sources,
) -> Result<(), OutOfMemory>
    requires holding { Holding rows.now left.old holders.old }
    requires name { name < length rows.now }
    requires members { AllByRecursion (λ v. v < length holders.old) (slice_index_or rows.now name []) }
    requires room { sum_by length holders.old + length (slice_index_or rows.now name []) < 2 ^ 32 }
    ensures { OnOk result (HoldsMore rows.now name left.old left.new holders.old holders.new) }
{
    if !left.get(name) {
        return Ok(());
    }
    left.set(name, false);
    members.clear();
    rows.put_row(name, members)?;
    holders.add_all(name, members)?;
    Ok(())
}

// For each world the rows that have it, of those that some world names.
fn holders_of(alloc: Global, names: &[u32], rows: &RowSet) -> Result<Sources, OutOfMemory>
    requires worlds { length names.now ≤ MOST_WORLDS }
    requires few { length rows.now ≤ MOST_WORLDS }
    requires within { AllByRecursion (λ i. i < length rows.now) names.now }
    requires fit { AllByRecursion (AllByRecursion (λ v. v < length names.now)) (named_rows names.now rows.now) }
    requires links { sum_by length (named_rows names.now rows.now) < 2 ^ 32 }
    ensures { IfOk result (Holders names.now rows.now) }
{
    let mut holders = Sources::new(alloc, names.len() as u32)?;
    let mut left = Bits::ones(alloc, rows.len() as u32)?;
    let mut members = Vec::new(alloc);
    for name in names {
        hold(rows, *name, &mut members, &mut left, &mut holders)?;
    }
    Ok(holders)
}

fn turned(alloc: Global, s: &State, a: AgentId) -> Result<Backward, OutOfMemory>
    requires { a.n < s.now.agents }
    ensures shaped { IfOk result (IsShaped s.now.worlds) }
    ensures back { IfOk result (LeadsBack (links_of s.now a.n)) }
{
    let (names, rows) = s.relation(a).names();
    let holders = holders_of(alloc, names, rows)?;
    let count = rows.len() as u32;
    let users = users_of(alloc, names, count)?;
    Ok(Backward {
        holders,
        users,
        count,
    })
}

/// The links of each agent backwards.
pub fn all_backward(alloc: Global, s: &State) -> Result<List<Backward>, OutOfMemory>
    ensures { IfOk result (AreBackward s.now) }
{
    let mut all = List::new(alloc);
    for a in 0..s.agents() {
        all.push(turned(alloc, s, AgentId { n: a })?)?;
    }
    Ok(all)
}
