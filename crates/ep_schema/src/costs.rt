//! The costs of the ground actions.

ghost use Rattle.std.specs.Prelude.{◌≡◌, ◌≤◌, ◌++◌, All, IfOk, OnOk, length};
ghost use Rattle.std.specs.List.{AllByRecursion};
ghost use Rattle.ep_binding.specs.declared.limits.TheConstants.{MOST_PARAMETERS};
ghost use Rattle.ep_bounds.specs.declared.bounds.TheConstants.{MOST_COST};
ghost use Rattle.ep_schema.specs.Actions as spec;

use crate::schemas::schema_bindings;
use ep_logic::{List, OutOfMemory};
use ep_tree::SchemaTree;
use ep_universe::universe::Universe;
use std::alloc::Global;

/// Adds the costs of the actions of a schema.
fn push_costs(
    alloc: Global,
    universe: &Universe,
    schema: &SchemaTree,
    costs: &mut List<u32>,
) -> Result<(), OutOfMemory>
    requires { length schema.now.params ≤ MOST_PARAMETERS }
    ensures { OnOk result (costs.new ≡ costs.old ++ spec.schema_costs universe.now.names schema.now) }
{
    let cost = schema.cost.unwrap_or(1);
    let all = schema_bindings(alloc, universe, schema)?;
    for _objects in all.as_slice() {
        costs.push(cost)?;
    }
    Ok(())
}

/// The costs of the ground actions of schemas, in order.
fn costs_of(
    alloc: Global,
    universe: &Universe,
    schemas: &[SchemaTree],
) -> Result<List<u32>, OutOfMemory>
    requires { All (λ s. length s.params ≤ MOST_PARAMETERS) schemas.now }
    ensures { IfOk result (λ costs. costs ≡ spec.costs_of universe.now.names schemas.now) }
{
    let mut costs = List::new(alloc);
    for schema in schemas {
        push_costs(alloc, universe, schema, &mut costs)?;
    }
    Ok(costs)
}

/// The costs of the ground actions, in order: that which the schema states, or 1.
pub fn action_costs(alloc: Global, universe: &Universe) -> Result<List<u32>, OutOfMemory>
    ensures value { IfOk result (λ costs. costs ≡ spec.costs_of universe.now.names universe.now.tree.schemas) }
    ensures counted { IfOk result (λ costs. length costs ≡ length (spec.actions_of universe.now.names universe.now.tree.schemas)) }
    ensures least { IfOk result (AllByRecursion (λ cost. 1 ≤ cost)) }
    ensures most { IfOk result (AllByRecursion (λ cost. cost ≤ MOST_COST)) }
{
    let tree = universe.tree();
    costs_of(alloc, universe, tree.schemas.as_slice())
}
