//! The printed names of the ground actions, and their table.

ghost use Rattle.std.specs.Prelude.{◌≡◌, ◌≤◌, ◌++◌, All, IfOk, OnOk, length};
ghost use Rattle.ep_binding.specs.declared.limits.TheConstants.{MOST_PARAMETERS};
ghost use Rattle.ep_logic.specs.declared.limits.TheConstants.{MOST_GROUND_ACTIONS};
ghost use Rattle.ep_binding.specs.Bindings.{IsApart};
ghost use Rattle.ep_schema.specs.ActionNames as spec;

use crate::schemas::schema_bindings;
use ep_logic::{List, OutOfMemory, Text};
use ep_name::{NameTable, print_name};
use ep_tree::SchemaTree;
use ep_universe::names::copy_text;
use ep_universe::universe::Universe;
use std::alloc::Global;

/// Adds the names of the actions of a schema.
fn push_names(
    alloc: Global,
    universe: &Universe,
    schema: &SchemaTree,
    actions: &mut List<Text>,
) -> Result<(), OutOfMemory>
    requires { length schema.now.params ≤ MOST_PARAMETERS }
    ensures { OnOk result (actions.new ≡ actions.old ++ spec.schema_names universe.now.names schema.now) }
{
    let names = universe.object_names();
    let all = schema_bindings(alloc, universe, schema)?;
    for objects in all.as_slice() {
        let objects = objects.as_slice();
        actions.push(print_name(alloc, &schema.name.text, names, objects)?)?;
    }
    Ok(())
}

/// The names of the ground actions, in order.
pub fn action_names(
    alloc: Global,
    universe: &Universe,
    schemas: &[SchemaTree],
) -> Result<List<Text>, OutOfMemory>
    requires { All (λ s. length s.params ≤ MOST_PARAMETERS) schemas.now }
    ensures { IfOk result (λ actions. actions ≡ spec.action_names universe.now.names schemas.now) }
{
    let mut actions = List::new(alloc);
    for schema in schemas {
        push_names(alloc, universe, schema, &mut actions)?;
    }
    Ok(actions)
}

fn table_of(alloc: Global, texts: &[Text]) -> Result<NameTable, OutOfMemory>
    requires few { length texts.now ≤ MOST_GROUND_ACTIONS }
    requires apart { IsApart texts.now }
    ensures { IfOk result (λ table. table ≡ texts.now) }
{
    let mut table = NameTable::new(alloc);
    for text in texts {
        table.push(copy_text(alloc, text)?)?;
    }
    Ok(table)
}

/// The table of the names of the ground actions, each at the number of its action.
pub fn action_table(alloc: Global, universe: &Universe) -> Result<NameTable, OutOfMemory>
    requires { length (spec.action_names universe.now.names universe.now.tree.schemas) ≤ MOST_GROUND_ACTIONS }
    ensures { IfOk result (λ table. table ≡ spec.action_names universe.now.names universe.now.tree.schemas) }
{
    let tree = universe.tree();
    let texts = action_names(alloc, universe, tree.schemas.as_slice())?;
    table_of(alloc, texts.as_slice())
}
