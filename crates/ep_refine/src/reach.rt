// The worlds that are reached.

ghost use Rattle.std.specs.Prelude.{◌≡◌, ℕ, ◌<◌, ◌↔◌, length, IfOk, IsTrue};
ghost use Rattle.ep_theory.specs.Canonical.{Reached};
ghost use Rattle.ep_theory.specs.Kripke.{IsState};
ghost use Rattle.ep_logic.specs.Rows.{value_at};

use crate::marking::{mark, mark_targets};
use ep_kripke::State;
use ep_logic::{Bits, OutOfMemory, WorldId};
use std::alloc::Global;

/// For each world whether a walk of any agents leads to it from a designated world.
pub fn reachable(alloc: Global, s: &State) -> Result<Bits, OutOfMemory>
    ensures one_each { IfOk result (λ row. length row ≡ s.now.worlds) }
    ensures reached { IfOk result (λ row. (w : ℕ) → w < s.now.worlds →
        IsTrue (value_at row w) ↔ Reached s.now w) }
    ensures valid { IsState s.now }
{
    let mut marked = Bits::zeros(alloc, s.worlds())?;
    let mut waiting = Vec::new(alloc);
    mark(&mut marked, &mut waiting, s.designated())?;
    while let Some(w) = waiting.pop() {
        mark_targets(alloc, s, WorldId { n: w }, &mut marked, &mut waiting)?;
    }
    Ok(marked)
}
