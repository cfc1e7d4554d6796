// The contraction of a state, and the classes of its worlds.

ghost use Rattle.std.specs.Prelude.{◌≡◌, ℕ, ◌<◌, ◌≤◌, ◌↔◌, length, true, slice_index, IfOk, IsTrue};
ghost use Rattle.ep_logic.specs.Rows.{value_at};
ghost use Rattle.ep_theory.specs.Kripke.{IsState};
ghost use Rattle.ep_theory.specs.Canonical.{Reached, Contracts};
ghost use Rattle.ep_theory.specs.Image.{IsImage};
ghost use Rattle.ep_theory.specs.Maps.{Maps};
ghost use Rattle.ep_theory.specs.Ranks.{RanksAt};
ghost use Rattle.ep_refine.specs.Kept.{kept_before};
ghost use Rattle.ep_canon.specs.Contracting.{class_map};

use crate::quotient::quotient;
use ep_kripke::State;
use ep_logic::{Bits, List, OutOfMemory};
use ep_refine::{ClassList, classes, restrict};
use std::alloc::Global;

/// The contraction of a state, and the classes of its reached worlds in their order.
#[derive(Drop)]
pub struct Contracted {
    pub state: State,
    pub classes: ClassList,
}

/// The contraction of the state, where the worlds that are reached are known.
pub fn contract_reached(alloc: Global, s: &State, reached: &Bits) -> Result<Contracted, OutOfMemory>
    requires one_each { length reached.now ≡ s.now.worlds }
    requires reached { (w : ℕ) → w < s.now.worlds → IsTrue (value_at reached.now w) ↔ Reached s.now w }
    ensures contraction { IfOk result (λ c. Contracts s.now c.state) }
    ensures fewer { IfOk result (λ c. c.state.worlds ≤ s.now.worlds) }
    ensures classes { IfOk result (λ c. length c.classes ≡ kept_before reached.now s.now.worlds) }
    ensures maps { IfOk result (λ c. Maps s.now c.state (class_map reached.now c.classes)) }
    ensures valid { IsState s.now }
{
    if all_reached(s, reached) {
        let whole = contract_whole(alloc, s)?;
        return Ok(whole);
    }
    let part = restrict(alloc, s, reached)?;
    let whole = contract_whole(alloc, &part)?;
    Ok(whole)
}

fn all_reached(s: &State, reached: &Bits) -> bool
    requires { length reached.now ≡ s.now.worlds }
    ensures value { IsTrue result ↔ ((w : ℕ) → w < s.now.worlds → IsTrue (value_at reached.now w)) }
    ensures valid { IsState s.now }
{
    for w in 0..s.worlds() {
        if !reached.get(w) {
            return false;
        }
    }
    true
}

// The contraction of a state whose worlds are all reached.
fn contract_whole(alloc: Global, s: &State) -> Result<Contracted, OutOfMemory>
    requires { (w : ℕ) → w < s.now.worlds → Reached s.now w }
    ensures contraction { IfOk result (λ c. Contracts s.now c.state) }
    ensures fewer { IfOk result (λ c. c.state.worlds ≤ s.now.worlds) }
    ensures one_each { IfOk result (λ c. length c.classes ≡ s.now.worlds) }
    ensures ordered { IfOk result (λ c. RanksAt s.now s.now.worlds (slice_index c.classes)) }
    ensures image { IfOk result (λ c. IsImage s.now (λ _. true) (slice_index c.classes) c.state) }
{
    let classes = classes(alloc, s)?;
    let state = quotient(alloc, s, &classes)?;
    Ok(Contracted { state, classes })
}

/// For each reached world its class, where `classes` has those of the reached worlds in their order.
pub fn map_of(
    alloc: Global,
    reached: &Bits,
    classes: &[u32],
) -> Result<List<Option<u32>>, OutOfMemory>
    requires { length classes.now ≡ kept_before reached.now (length reached.now) }
    ensures { IfOk result (λ map. map ≡ class_map reached.now classes.now) }
{
    let mut map = List::new(alloc);
    let mut next = 0;
    for w in 0..reached.len() {
        if reached.get(w) {
            map.push(Some(classes[next]))?;
            next += 1;
        } else {
            map.push(None)?;
        }
    }
    Ok(map)
}
