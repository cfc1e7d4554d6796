ghost use Rattle.std.specs.Prelude.{◌≡◌, ◌<◌, ◌↔◌, None, IsTrue, IfOk, option_map};
ghost use Rattle.std.specs.List.{list_any};
ghost use Rattle.ep_kripke.specs.Parts.{world};
ghost use Rattle.ep_theory.specs.Fits.{ActionFits};
ghost use Rattle.ep_theory.specs.Product.{IsApplicable, applies, stuck_world};
ghost use Rattle.ep_update.specs.Places.{precondition_labels};

use crate::labelling::{LabelTable, labels};
use ep_event::Action;
use ep_kripke::State;
use ep_logic::{Bits, OutOfMemory, WorldId};
use std::alloc::Global;

/// Whether at each designated world some designated event has its precondition true.
pub fn applicable(alloc: Global, s: &State, a: &Action) -> Result<bool, OutOfMemory>
    requires { ActionFits s.now a.now }
    ensures { IfOk result (λ b. IsTrue b ↔ IsApplicable s.now a.now) }
{
    Ok(stuck_at(alloc, s, a)?.is_none())
}

/// The same by the labels of the preconditions. It takes no memory.
pub fn applicable_labelled(s: &State, a: &Action, l: &LabelTable) -> bool
    requires { l.now ≡ precondition_labels s.now a.now }
    ensures { IsTrue result ↔ IsApplicable s.now a.now }
{
    first_stuck(s, a, l.rows()).is_none()
}

/// The first designated world where no designated event has its precondition true.
pub fn stuck_at(alloc: Global, s: &State, a: &Action) -> Result<Option<WorldId>, OutOfMemory>
    requires { ActionFits s.now a.now }
    ensures value { IfOk result (λ w. w ≡ option_map world (stuck_world s.now a.now)) }
    ensures none { IfOk result (λ w. (w ≡ None) ↔ IsApplicable s.now a.now) }
{
    let l = labels(alloc, s, a)?;
    Ok(first_stuck(s, a, l.rows()))
}

// The first designated world where the labels say of no designated event that it applies.
pub(crate) fn first_stuck(s: &State, a: &Action, rows: &[Bits]) -> Option<WorldId>
    requires { rows.now ≡ precondition_labels s.now a.now }
    ensures value { result ≡ option_map world (stuck_world s.now a.now) }
    ensures none { (result ≡ None) ↔ IsApplicable s.now a.now }
{
    for w in s.designated() {
        if !goes_on(s, a, rows, *w) {
            return Some(WorldId { n: *w });
        }
    }
    None
}

// Whether some designated event applies at the world.
pub(crate) fn goes_on(s: &State, a: &Action, rows: &[Bits], w: u32) -> bool
    requires rows { rows.now ≡ precondition_labels s.now a.now }
    requires world { w < s.now.worlds }
    ensures { result ≡ list_any (applies s.now a.now w) a.now.designated }
{
    for e in a.designated() {
        if rows[*e as usize].get(w) {
            return true;
        }
    }
    false
}
