//! Whether an action is shown to be stuck.

ghost use Rattle.std.specs.Prelude.{◌↔◌, IsTrue, IfOk};
ghost use Rattle.ep_theory.specs.Fits.{ActionFits};
ghost use Rattle.ep_theory.specs.Product.{IsStuckAt};
ghost use Rattle.ep_audit.specs.Shown.{ShowsStuck};

use crate::number::number;
use ep_event::Action;
use ep_kripke::State;
use ep_logic::{EventId, OutOfMemory, WorldId};
use ep_truth::holds;
use std::alloc::Global;

// Whether the world is designated, and no designated event of the action has its precondition true there.
#[tactic(auto, using(crate::proofs::AnswerLemmas::world_within, crate::proofs::AnswerLemmas::pre_fits, crate::proofs::AnswerLemmas::event_within))]
fn is_stuck(alloc: Global, s: &State, a: &Action, w: WorldId) -> Result<bool, OutOfMemory>
    requires fits { ActionFits s.now a.now }
    ensures { IfOk result (λ b. IsTrue b ↔ IsStuckAt s.now a.now w.n) }
{
    if !s.is_designated(w) {
        return Ok(false);
    }
    for e in a.designated() {
        if holds(alloc, s, w, a.pre(EventId { n: *e }))? {
            return Ok(false);
        }
    }
    Ok(true)
}

/// Whether the digits are those of a world where the action is stuck.
pub fn shows_stuck(alloc: Global, s: &State, a: &Action, digits: &[u8]) -> Result<bool, OutOfMemory>
    requires fits { ActionFits s.now a.now }
    ensures { IfOk result (λ b. IsTrue b ↔ ShowsStuck s.now a.now digits.now) }
{
    match number(digits, s.worlds()) {
        Some(w) => is_stuck(alloc, s, a, WorldId { n: w }),
        None => Ok(false),
    }
}
