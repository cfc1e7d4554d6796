//! The formulas of schemas in file order, each with the number of its ground forms.

ghost use Rattle.std.specs.Prelude.{◌≡◌, [], ◌∷◌, ◌++◌, ◌≤◌, All, OnOk, length, map};
ghost use Rattle.std.specs.List.{flat_map};
ghost use Rattle.ep_binding.specs.declared.limits.TheConstants.{MOST_PARAMETERS};
ghost use Rattle.ep_schema.specs.Written as spec;

use crate::counts::schema_count;
use ep_logic::{List, OutOfMemory};
use ep_tree::{BodyTree, EventTree, FormulaTree, SchemaTree, SetTree};
use ep_universe::universe::Universe;
use std::alloc::Global;
use std::marker::Model;

/// A formula of a task, and how many ground forms it has.
#[derive(Drop)]
pub struct WrittenFormula<'a> {
    pub times: u64,
    pub formula: &'a FormulaTree,
}

impl<'a> Model for WrittenFormula<'a> {
    ghost use Rattle.ep_schema.specs.Written.{Written, written};

    ghost Value = { Written };

    ghost use Rattle.ep_tree.specs.contracts.tree.FormulaTree as formulas;
    ghost use Rattle.std.specs.Coded.{codes};

    ghost coded = { Prim.hlevel (codes, formulas.the_row.coded) };

    ghost view = { λ w. written w.times w.formula.now };
}

/// Adds a formula with so many ground forms.
pub fn push_formula<'a>(
    formulas: &mut List<WrittenFormula<'a>>,
    times: u64,
    formula: &'a FormulaTree,
) -> Result<(), OutOfMemory>
    ensures { OnOk result (formulas.new ≡ formulas.old ++ map (spec.written times) (formula.now ∷ [])) }
{
    formulas.push(WrittenFormula { times, formula })?;
    Ok(())
}

fn push_values<'a>(
    formulas: &mut List<WrittenFormula<'a>>,
    times: u64,
    sets: &'a [SetTree],
) -> Result<(), OutOfMemory>
    ensures { OnOk result (formulas.new ≡ formulas.old ++ map (spec.written times) (spec.values_of sets.now)) }
{
    for set in sets {
        push_formula(formulas, times, &set.value)?;
    }
    Ok(())
}

fn push_event<'a>(
    formulas: &mut List<WrittenFormula<'a>>,
    times: u64,
    event: &'a EventTree,
) -> Result<(), OutOfMemory>
    ensures { OnOk result (formulas.new ≡ formulas.old ++ map (spec.written times) (spec.event_formulas event.now)) }
{
    push_formula(formulas, times, &event.pre)?;
    push_values(formulas, times, event.sets.as_slice())
}

fn push_events<'a>(
    formulas: &mut List<WrittenFormula<'a>>,
    times: u64,
    events: &'a [EventTree],
) -> Result<(), OutOfMemory>
    ensures { OnOk result (formulas.new ≡ formulas.old ++ map (spec.written times) (flat_map spec.event_formulas events.now)) }
{
    for event in events {
        push_event(formulas, times, event)?;
    }
    Ok(())
}

fn push_body<'a>(
    formulas: &mut List<WrittenFormula<'a>>,
    times: u64,
    body: &'a BodyTree,
) -> Result<(), OutOfMemory>
    ensures { OnOk result (formulas.new ≡ formulas.old ++ map (spec.written times) (spec.body_formulas body.now)) }
{
    match body {
        BodyTree::Announce { what } => push_formula(formulas, times, what),
        BodyTree::Private { what, .. } => push_formula(formulas, times, what),
        BodyTree::Sense { what, .. } => push_formula(formulas, times, what),
        BodyTree::Assign { guard, sets } => {
            push_formula(formulas, times, guard)?;
            push_values(formulas, times, sets.as_slice())
        }
        BodyTree::Events { events, .. } => push_events(formulas, times, events.as_slice()),
    }
}

fn push_schema<'a>(
    alloc: Global,
    formulas: &mut List<WrittenFormula<'a>>,
    universe: &Universe,
    schema: &'a SchemaTree,
) -> Result<(), OutOfMemory>
    requires { length schema.now.params ≤ MOST_PARAMETERS }
    ensures { OnOk result (formulas.new ≡ formulas.old ++ spec.schema_formulas universe.now.names schema.now) }
{
    let times = schema_count(alloc, universe, schema)?;
    push_body(formulas, times, &schema.body)
}

/// Adds the formulas of schemas, each once for each ground action.
pub fn push_schemas<'a>(
    alloc: Global,
    formulas: &mut List<WrittenFormula<'a>>,
    universe: &Universe,
    schemas: &'a [SchemaTree],
) -> Result<(), OutOfMemory>
    requires { All (λ s. length s.params ≤ MOST_PARAMETERS) schemas.now }
    ensures { OnOk result (formulas.new ≡ formulas.old ++ flat_map (spec.schema_formulas universe.now.names) schemas.now) }
{
    for schema in schemas {
        push_schema(alloc, formulas, universe, schema)?;
    }
    Ok(())
}
