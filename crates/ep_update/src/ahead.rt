// What is needed to look ahead: where an action may happen, and which worlds its product has.

ghost use Rattle.std.specs.Prelude.{◌≡◌, IfOk};
ghost use Rattle.ep_theory.specs.Events.{IsAction};
ghost use Rattle.ep_theory.specs.Product.{places};
ghost use Rattle.ep_update.specs.Ahead.{openings};
ghost use Rattle.ep_update.specs.Places.{precondition_labels};

use crate::labelling::LabelTable;
use crate::places::find_places;
use crate::stuck::goes_on;
use ep_event::Action;
use ep_kripke::State;
use ep_logic::{List, OutOfMemory};
use std::alloc::Global;

/// The worlds where some designated event applies, by the labels of the preconditions.
pub fn openings(
    alloc: Global,
    s: &State,
    a: &Action,
    l: &LabelTable,
) -> Result<List<u32>, OutOfMemory>
    requires { l.now ≡ precondition_labels s.now a.now }
    ensures { IfOk result (λ worlds. worlds ≡ openings s.now a.now) }
{
    let mut worlds = List::new(alloc);
    for w in 0..s.worlds() {
        if goes_on(s, a, l.rows(), w) {
            worlds.push(w)?;
        }
    }
    Ok(worlds)
}

/// The pairs that become the worlds of the product, by the labels of the preconditions.
pub fn places_of(
    alloc: Global,
    s: &State,
    a: &Action,
    l: &LabelTable,
) -> Result<Vec<(u32, u32)>, OutOfMemory>
    requires rows { l.now ≡ precondition_labels s.now a.now }
    requires action { IsAction a.now }
    ensures { IfOk result (λ list. list.items ≡ places s.now a.now) }
{
    let found = find_places(alloc, s.worlds(), l.rows())?;
    Ok(found.list)
}
