//! The ground actions, in order.

ghost use Rattle.std.specs.Prelude.{◌≡◌, ◌<◌, ◌≤◌, ◌∷◌, [], ◌++◌, All, IfErr, IfOk, None, OnOk, length};
ghost use Rattle.ep_binding.specs.declared.limits.TheConstants.{MOST_PARAMETERS};
ghost use Rattle.ep_binding.specs.Bindings.{IsObjects, distinct_bindings};
ghost use Rattle.ep_binding.specs.Laminar.{IsLaminar};
ghost use Rattle.ep_schema.specs.Actions as spec;
ghost use Rattle.ep_schema.specs.Bodies.{IsBuildableBody, IsBuildableSchema};
ghost use Rattle.ep_base.specs.Refusals.{Reports};
ghost use Rattle.ep_schema.specs.Faults.{atom_twice};
ghost use Rattle.ep_schema.specs.ActionNames.{action_name, action_names, schema_names};

use crate::actions::action_of;
use crate::body_error::BodyError;
use crate::fault::SchemaError;
use ep_binding::{bindings, distinct_bindings, distinct_count};
use ep_event::Action;
use ep_logic::{List, OutOfMemory};
use ep_name::print_name;
use ep_tree::SchemaTree;
use ep_universe::objects::widen;
use ep_universe::universe::Universe;
use std::alloc::Global;

/// The distinct bindings, where a count comes first: 0 means that no list is made.
fn list_distinct(alloc: Global, lists: &[List<u32>]) -> Result<List<List<u32>>, OutOfMemory>
    requires few { length lists.now ≤ MOST_PARAMETERS }
    requires objects { All IsObjects lists.now }
    requires laminar { IsLaminar lists.now }
    ensures { IfOk result (λ bs. bs ≡ distinct_bindings lists.now) }
{
    if distinct_count(lists) == 0 {
        return Ok(List::new(alloc));
    }
    distinct_bindings(alloc, lists)
}

/// The objects that are bound to the parameters of a schema, in order.
pub fn schema_bindings(
    alloc: Global,
    universe: &Universe,
    schema: &SchemaTree,
) -> Result<List<List<u32>>, OutOfMemory>
    requires { length schema.now.params ≤ MOST_PARAMETERS }
    ensures { IfOk result (λ bs. bs ≡ spec.schema_bindings universe.now.names schema.now) }
{
    universe.known();
    let candidates = universe.candidates(alloc, schema.params.as_slice())?;
    if schema.distinct {
        list_distinct(alloc, candidates.as_slice())
    } else {
        bindings(alloc, candidates.as_slice())
    }
}

/// The action of a schema at objects.
fn ground_action(
    alloc: Global,
    universe: &Universe,
    schema: &SchemaTree,
    objects: &[u32],
) -> Result<Action, SchemaError>
    requires body { IsBuildableBody universe.now.names schema.now.body }
    requires objects { All (λ o. o < length universe.now.names.objects) objects.now }
    ensures value { IfOk result (λ action. action ≡ spec.action_at universe.now.names schema.now objects.now) }
    ensures once { OnOk result (atom_twice (action_name universe.now.names schema.now objects.now ∷ []) (spec.action_at universe.now.names schema.now objects.now ∷ []) ≡ None) }
    ensures err { IfErr result (Reports SchemaError.OutOfMemory (atom_twice (action_name universe.now.names schema.now objects.now ∷ []) (spec.action_at universe.now.names schema.now objects.now ∷ []))) }
{
    let names = universe.object_names();
    let binding = widen(alloc, &[], schema.params.as_slice(), objects)?;
    match action_of(alloc, universe, binding.as_slice(), &schema.body) {
        Ok(action) => Ok(action),
        Err(BodyError::OutOfMemory) => Err(SchemaError::OutOfMemory),
        Err(BodyError::AtomTwice) => {
            let name = print_name(alloc, &schema.name.text, names, objects)?;
            Err(SchemaError::AtomTwice { name })
        }
    }
}

/// Adds the actions of a schema, each at its binding, up to the first that assigns to one atom twice.
fn push_actions(
    alloc: Global,
    universe: &Universe,
    schema: &SchemaTree,
    actions: &mut List<Action>,
) -> Result<(), SchemaError>
    requires { IsBuildableSchema universe.now.names schema.now }
    ensures value { OnOk result (actions.new ≡ actions.old ++ spec.schema_actions universe.now.names schema.now) }
    ensures once { OnOk result (atom_twice (schema_names universe.now.names schema.now) (spec.schema_actions universe.now.names schema.now) ≡ None) }
    ensures err { IfErr result (Reports SchemaError.OutOfMemory (atom_twice (schema_names universe.now.names schema.now) (spec.schema_actions universe.now.names schema.now))) }
{
    let all = schema_bindings(alloc, universe, schema)?;
    for objects in all.as_slice() {
        let objects = objects.as_slice();
        actions.push(ground_action(alloc, universe, schema, objects)?)?;
    }
    Ok(())
}

/// The ground actions: the schemas in order, each at its bindings. The first that assigns to one atom twice is told by
/// its printed name.
pub fn ground_actions(
    alloc: Global,
    universe: &Universe,
    schemas: &[SchemaTree],
) -> Result<List<Action>, SchemaError>
    requires { All (IsBuildableSchema universe.now.names) schemas.now }
    ensures value { IfOk result (λ actions. actions ≡ spec.actions_of universe.now.names schemas.now) }
    ensures once { OnOk result (atom_twice (action_names universe.now.names schemas.now) (spec.actions_of universe.now.names schemas.now) ≡ None) }
    ensures err { IfErr result (Reports SchemaError.OutOfMemory (atom_twice (action_names universe.now.names schemas.now) (spec.actions_of universe.now.names schemas.now))) }
{
    let mut actions = List::new(alloc);
    for schema in schemas {
        push_actions(alloc, universe, schema, &mut actions)?;
    }
    Ok(actions)
}
