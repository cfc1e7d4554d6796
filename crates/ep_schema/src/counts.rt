//! Ground actions, counted before any is made.

ghost use Rattle.std.specs.Prelude.{◌≡◌, ◌≤◌, ◌^◌, All, IfOk, length};
ghost use Rattle.ep_binding.specs.declared.limits.TheConstants.{MOST_PARAMETERS};
ghost use Rattle.ep_lex.specs.declared.limits.TheConstants.{MOST_TOKENS};
ghost use Rattle.ep_schema.specs.Actions as spec;

use ep_binding::{binding_count, distinct_count};
use ep_logic::OutOfMemory;
use ep_tree::SchemaTree;
use ep_universe::universe::Universe;
use std::alloc::Global;

/// The exact number of ground actions of a schema, however large.
pub fn schema_count(
    alloc: Global,
    universe: &Universe,
    schema: &SchemaTree,
) -> Result<u64, OutOfMemory>
    requires { length schema.now.params ≤ MOST_PARAMETERS }
    ensures value { IfOk result (λ count. count ≡ length (spec.schema_bindings universe.now.names schema.now)) }
    ensures most { IfOk result (λ count. count ≤ 2 ^ 36) }
{
    universe.known();
    let lists = universe.candidates(alloc, schema.params.as_slice())?;
    if schema.distinct {
        Ok(distinct_count(lists.as_slice()))
    } else {
        Ok(binding_count(lists.as_slice()))
    }
}

fn count_all(alloc: Global, universe: &Universe, schemas: &[SchemaTree]) -> Result<u64, OutOfMemory>
    requires few { length schemas.now ≤ MOST_TOKENS }
    requires params { All (λ s. length s.params ≤ MOST_PARAMETERS) schemas.now }
    ensures { IfOk result (λ count. count ≡ length (spec.actions_of universe.now.names schemas.now)) }
{
    let mut count = 0;
    for schema in schemas {
        count += schema_count(alloc, universe, schema)?;
    }
    Ok(count)
}

/// The exact number of ground actions, however large.
pub fn action_count(alloc: Global, universe: &Universe) -> Result<u64, OutOfMemory>
    ensures { IfOk result (λ count. count ≡ length (spec.actions_of universe.now.names universe.now.tree.schemas)) }
{
    let tree = universe.tree();
    count_all(alloc, universe, tree.schemas.as_slice())
}
