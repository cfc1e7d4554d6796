// The goal in a state.

ghost use Rattle.std.specs.Prelude.{◌≡◌, ◌<◌, ◌≤◌, ◌^◌, ◌↔◌, IfOk, length, IsTrue};
ghost use Rattle.std.specs.List.{AllByRecursion};
ghost use Rattle.ep_theory.specs.Fits.{Fits};
ghost use Rattle.ep_theory.specs.Truth.{Satisfies};
ghost use Rattle.ep_search.specs.Goal.{is_satisfied, unmet_count};

use ep_kripke::State;
use ep_logic::{Formula, OutOfMemory};
use ep_truth::holds_all;
use std::alloc::Global;

// Whether the state satisfies the formula.
fn satisfies(alloc: Global, s: &State, f: &Formula) -> Result<bool, OutOfMemory>
    requires { Fits s.now f.now }
    ensures test { IfOk result (λ b. b ≡ is_satisfied s.now f.now) }
    ensures truth { IfOk result (λ b. IsTrue b ↔ Satisfies s.now f.now) }
{
    s.known();
    holds_all(alloc, s, f)
}

// How many of the formulas are not true at every designated world.
pub fn count_unmet(alloc: Global, s: &State, parts: &[Formula]) -> Result<u32, OutOfMemory>
    requires fit { AllByRecursion (Fits s.now) parts.now }
    requires few { length parts.now < 2 ^ 32 }
    ensures number { IfOk result (λ n. n ≡ unmet_count s.now parts.now) }
    ensures none { IfOk result (λ n. (n ≡ 0) ↔ AllByRecursion (Satisfies s.now) parts.now) }
{
    let mut unmet = 0u32;
    for part in parts {
        if !satisfies(alloc, s, part)? {
            unmet += 1;
        }
    }
    Ok(unmet)
}
