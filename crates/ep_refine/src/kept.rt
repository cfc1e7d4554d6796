// The part of a state that is kept.

ghost use Rattle.std.specs.Prelude.{◌≡◌, ◌↔◌, length, map, IfOk, IsTrue};
ghost use Rattle.std.specs.List.{range_with_len};
ghost use Rattle.ep_theory.specs.Kripke.{IsState};
ghost use Rattle.ep_kripke.specs.States.{IsBounded};
ghost use Rattle.ep_refine.specs.Kept.{KeepsDesignated, IsRestriction, kept_below, kept_before};

use crate::images::image;
use ep_kripke::State;
use ep_logic::{Bits, OutOfMemory};
use std::alloc::Global;

/// Whether some designated world is kept. `keep` has a value for each world.
pub fn keeps_designated(s: &State, keep: &Bits) -> bool
    requires { length keep.now ≡ s.now.worlds }
    ensures { IsTrue result ↔ KeepsDesignated s.now keep.now }
{
    for w in s.designated() {
        if keep.get(*w) {
            return true;
        }
    }
    false
}

/// The kept worlds in their order, with the links among them. `keep` has a value for each world.
pub fn restrict(alloc: Global, s: &State, keep: &Bits) -> Result<State, OutOfMemory>
    requires one_each { length keep.now ≡ s.now.worlds }
    requires designated { KeepsDesignated s.now keep.now }
    ensures restriction { IfOk result (IsRestriction s.now keep.now) }
    ensures worlds { IfOk result (λ q. q.worlds ≡ kept_before keep.now s.now.worlds) }
    ensures valid { IfOk result IsState }
{
    let Kept { worlds, numbers } = kept_worlds(alloc, s, keep)?;
    image(alloc, s, keep, &numbers, &worlds)
}

// The kept worlds, and for each world how many of them come before it.
#[derive(Debug, Drop)]
struct Kept {
    worlds: Vec<u32>,
    numbers: Vec<u32>,
}

fn kept_worlds(alloc: Global, s: &State, keep: &Bits) -> Result<Kept, OutOfMemory>
    requires { length keep.now ≡ s.now.worlds }
    ensures worlds { IfOk result (λ k. k.worlds.items ≡ kept_below keep.now s.now.worlds) }
    ensures numbers { IfOk result (λ k. k.numbers.items ≡
        map (kept_before keep.now) (range_with_len 0 s.now.worlds)) }
    ensures valid { IsState s.now }
    ensures bounded { IsBounded s.now }
{
    let mut worlds = Vec::new(alloc);
    let mut numbers = Vec::new(alloc);
    for w in 0..s.worlds() {
        numbers.push(worlds.len() as u32)?;
        if keep.get(w) {
            worlds.push(w)?;
        }
    }
    Ok(Kept { worlds, numbers })
}
