// The truth of an action's formulas at each world.

ghost use Rattle.std.specs.Prelude.{◌≡◌, map, IfOk};
ghost use Rattle.std.specs.List.{AllByRecursion};
ghost use Rattle.ep_theory.specs.Events.{IsAction};
ghost use Rattle.ep_theory.specs.Fits.{ActionFits};
ghost use Rattle.ep_update.specs.Places.{label_of, precondition_labels, value_labels};
ghost use Rattle.ep_update.specs.Assigned.{AssignFits};

use ep_event::{Action, Assign};
use ep_kripke::State;
use ep_logic::{Bits, EventId, List, OutOfMemory};
use ep_truth::label;
use std::alloc::Global;
use std::marker::Model;

/// For each event of an action the truth of its precondition at each world of a state, which contracts see as one list
/// of truth values per event.
#[derive(Drop)]
pub struct LabelTable {
    rows: List<Bits>,
}

impl Model for LabelTable {
    ghost use Rattle.std.specs.Prelude.{Bool, List};

    ghost Value = { List (List Bool) };

    ghost view = { λ l. l.rows };
}

impl LabelTable {
    /// The truth values of each event, in the order of the events.
    pub fn rows(&self) -> &[Bits]
        ensures { result.now ≡ self.now }
    {
        self.rows.as_slice()
    }
}

/// The truth of each event's precondition at each world.
pub fn labels(alloc: Global, s: &State, a: &Action) -> Result<LabelTable, OutOfMemory>
    requires { ActionFits s.now a.now }
    ensures rows { IfOk result (λ rows. rows ≡ precondition_labels s.now a.now) }
    ensures action { IsAction a.now }
{
    let mut rows = List::new(alloc);
    for e in 0..a.events() {
        rows.push(label(alloc, s, a.pre(EventId { n: e }))?)?;
    }
    Ok(LabelTable { rows })
}

// The truth of the formulas that each event assigns.
pub(crate) fn value_labels_of(
    alloc: Global,
    s: &State,
    a: &Action,
) -> Result<List<List<Bits>>, OutOfMemory>
    requires { ActionFits s.now a.now }
    ensures { IfOk result (λ all. all ≡ value_labels s.now a.now) }
{
    let mut all = List::new(alloc);
    for e in 0..a.events() {
        all.push(assigned_labels(alloc, s, a.sets(EventId { n: e }).as_slice())?)?;
    }
    Ok(all)
}

fn assigned_labels(alloc: Global, s: &State, sets: &[Assign]) -> Result<List<Bits>, OutOfMemory>
    requires { AllByRecursion (AssignFits s.now) sets.now }
    ensures { IfOk result (λ rows. rows ≡ map (λ set. label_of s.now set.value) sets.now) }
{
    let mut rows = List::new(alloc);
    for set in sets {
        rows.push(label(alloc, s, &set.value)?)?;
    }
    Ok(rows)
}
