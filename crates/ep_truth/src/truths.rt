ghost use Rattle.std.specs.Prelude.{◌<◌, IfOk, IsTrue, ◌↔◌};
ghost use Rattle.ep_theory.specs.Truth.{Truth, Satisfies};
ghost use Rattle.ep_theory.specs.Fits.{Fits};

use crate::labels::label;
use crate::rows::is_true_at_all;
use ep_kripke::State;
use ep_logic::{Formula, OutOfMemory, WorldId};
use std::alloc::Global;

/// Truth at one world, by the label of the formula.
pub fn holds(alloc: Global, s: &State, w: WorldId, f: &Formula) -> Result<bool, OutOfMemory>
    requires fits { Fits s.now f.now }
    requires world { w.n < s.now.worlds }
    ensures { IfOk result (λ b. IsTrue b ↔ Truth s.now w.n f.now) }
{
    let row = label(alloc, s, f)?;
    Ok(row.get(w.n))
}

/// Truth at every designated world, by the label of the formula.
pub fn holds_all(alloc: Global, s: &State, f: &Formula) -> Result<bool, OutOfMemory>
    requires { Fits s.now f.now }
    ensures { IfOk result (λ b. IsTrue b ↔ Satisfies s.now f.now) }
{
    let row = label(alloc, s, f)?;
    Ok(is_true_at_all(s.designated(), &row))
}
