// The truth lists of a product.

ghost use Rattle.std.specs.Prelude.{◌≡◌, ℕ, ◌<◌, ◌≤◌, ◌++◌, ◌∷◌, [], length, map, IfOk, OnOk};
ghost use Rattle.ep_kripke.specs.declared.limits.TheConstants.{MOST_WORLDS};
ghost use Rattle.ep_theory.specs.Fits.{ActionFits};
ghost use Rattle.ep_theory.specs.Product.{places, truth_after};
ghost use Rattle.ep_update.specs.Places.{value_labels};

use crate::labelling::value_labels_of;
use ep_event::Action;
use ep_kripke::State;
use ep_logic::{BitTable, Bits, EventId, List, OutOfMemory, WorldId};
use std::alloc::{AllocError, Global};
use std::rc::Rc;

pub(crate) fn shared_truth(
    alloc: Global,
    s: &State,
    a: &Action,
    list: &[(u32, u32)],
) -> Result<Rc<BitTable>, OutOfMemory>
    requires fits { ActionFits s.now a.now }
    requires few { length list.now ≤ MOST_WORLDS }
    requires list { list.now ≡ places s.now a.now }
    ensures { IfOk result (λ t. t.value ≡ record { width = s.now.atoms; rows = map (truth_after s.now a.now) (places s.now a.now) }) }
{
    let table = truth_table(alloc, s, a, list)?;
    Ok(Rc::new(alloc, table).map_err(AllocError::from)?)
}

fn truth_table(
    alloc: Global,
    s: &State,
    a: &Action,
    list: &[(u32, u32)],
) -> Result<BitTable, OutOfMemory>
    requires fits { ActionFits s.now a.now }
    requires few { length list.now ≤ MOST_WORLDS }
    requires list { list.now ≡ places s.now a.now }
    ensures { IfOk result (λ t. t ≡ record { width = s.now.atoms; rows = map (truth_after s.now a.now) (places s.now a.now) }) }
{
    let values = value_labels_of(alloc, s, a)?;
    let values = values.as_slice();
    let mut table = BitTable::zeros(alloc, 0, s.atoms())?;
    for at in list {
        push_truth(&mut table, s, a, *at, values)?;
    }
    Ok(table)
}

// Puts the truth list of a place at the end: the world's, and then what the event assigns, by the labels of the old
// worlds.
fn push_truth(
    table: &mut BitTable,
    s: &State,
    a: &Action,
    at: (u32, u32),
    values: &[List<Bits>],
) -> Result<(), OutOfMemory>
    requires fits { ActionFits s.now a.now }
    requires width { table.old.width ≡ s.now.atoms }
    requires few { length table.old.rows < MOST_WORLDS }
    requires world { at.0 < s.now.worlds }
    requires event { at.1 < length a.now.events }
    requires values { values.now ≡ value_labels s.now a.now }
    ensures { OnOk result (table.new ≡ record table.old { rows = table.old.rows ++ truth_after s.now a.now at ∷ [] }) }
{
    let (w, e) = at;
    let sets = a.sets(EventId { n: e }).as_slice();
    let values = values[e as usize].as_slice();
    let row = table.len();
    table.push(s.truth_words(WorldId { n: w }))?;
    for i in 0..sets.len() {
        table.set(row, sets[i].atom.n, values[i].get(w));
    }
    Ok(())
}
