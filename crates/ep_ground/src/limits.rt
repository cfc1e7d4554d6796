//! The limits of a ground task, tested by exact counts before any action is made.

ghost use Rattle.std.specs.Prelude.{◌≡◌, ◌≤◌, ◌∷◌, [], IfOk, length};
ghost use Rattle.ep_base.specs.Refusals.{IsJudged, above, first_some, told};
ghost use Rattle.ep_lex.specs.declared.limits.TheConstants.{MOST_TOKENS};
ghost use Rattle.ep_schema.specs.Actions.{actions_of};
ghost use Rattle.ep_schema.specs.Bodies as bodies;
ghost use Rattle.ep_ground.specs.Faults.{limit_fault, node_total, too_large, too_many_events};
ghost use Rattle.ep_ground.specs.Within.{IsWithinLimits};
ghost use Rattle.ep_ground.specs.Written.{task_formulas};
ghost use Rattle.ep_ground.specs.declared.fault.GroundError.TheVariants.{TooLargeTask, TooManyActions};

use crate::fault::GroundError;
use crate::formulas::{node_total, task_formulas};
use ep_logic::{MOST_EVENTS, MOST_GROUND_ACTIONS};
use ep_schema::counts::action_count;
use ep_tree::{BodyTree, SchemaTree};
use ep_universe::universe::Universe;
use std::alloc::Global;

/// The most nodes of all ground forms of a task.
pub const MOST_TASK_NODES: u64 = 1_000_000;

fn check_actions(alloc: Global, universe: &Universe) -> Result<(), GroundError>
    ensures { IsJudged GroundError.OutOfMemory (above MOST_GROUND_ACTIONS TooManyActions (length (actions_of universe.now.names universe.now.tree.schemas))) result }
{
    let count = action_count(alloc, universe)?;
    if count > MOST_GROUND_ACTIONS {
        return Err(GroundError::TooManyActions { count });
    }
    Ok(())
}

fn event_count(body: &BodyTree) -> usize
    ensures { result ≡ bodies.event_count body.now }
{
    match body {
        BodyTree::Events { events, .. } => events.as_slice().len(),
        _ => 0,
    }
}

fn check_events(schemas: &[SchemaTree]) -> Result<(), GroundError>
    requires { length schemas.now ≤ MOST_TOKENS }
    ensures { result ≡ told (too_many_events schemas.now) }
{
    for (number, schema) in schemas.iter().enumerate() {
        let count = event_count(&schema.body);
        if count > MOST_EVENTS {
            return Err(GroundError::TooManyEvents {
                schema: number as u32,
                count: count as u64,
            });
        }
    }
    Ok(())
}

fn check_nodes(alloc: Global, universe: &Universe) -> Result<(), GroundError>
    requires { length (actions_of universe.now.names universe.now.tree.schemas) ≤ MOST_GROUND_ACTIONS }
    ensures { IsJudged GroundError.OutOfMemory (first_some (too_large universe.now.names (task_formulas universe.now.names universe.now.tree) ∷ above MOST_TASK_NODES TooLargeTask (node_total universe.now.names (task_formulas universe.now.names universe.now.tree)) ∷ [])) result }
{
    universe.known();
    let formulas = task_formulas(alloc, universe)?;
    let count = node_total(universe, formulas.as_slice())?;
    if count > MOST_TASK_NODES {
        return Err(GroundError::TooLargeTask { count });
    }
    Ok(())
}

fn check_rows(alloc: Global, universe: &Universe) -> Result<(), GroundError>
    ensures { IsJudged GroundError.OutOfMemory (limit_fault universe.now.names universe.now.tree) result }
{
    check_actions(alloc, universe)?;
    check_events(universe.tree().schemas.as_slice())?;
    check_nodes(alloc, universe)
}

/// Whether a task is within the limits that are counted before any action is made. An error tells the first count past
/// its limit, exactly. The counts take no more memory than a constant times the text of the task.
pub fn check_limits(alloc: Global, universe: &Universe) -> Result<(), GroundError>
    ensures judged { IsJudged GroundError.OutOfMemory (limit_fault universe.now.names universe.now.tree) result }
    ensures within { IfOk result (λ _. IsWithinLimits universe.now.names universe.now.tree) }
{
    universe.known();
    check_rows(alloc, universe)
}
