//! The ground task of a typed task.

ghost use Rattle.std.specs.Prelude.{◌≡◌, IfErr, IfOk, None, OnOk};
ghost use Rattle.ep_base.specs.Refusals.{Reports, first_some};
ghost use Rattle.ep_types.specs.Tasks.{declarations};
ghost use Rattle.ep_universe.specs.Universe.{IsUniverse};
ghost use Rattle.ep_schema.specs.ActionNames.{action_names};
ghost use Rattle.ep_ground.specs.Frames.{not_s5};
ghost use Rattle.ep_ground.specs.Grounding.{behind_names, fault_of, problem_from, task_of};

use crate::fault::GroundError;
use crate::limits::check_limits;
use crate::task::{Parts, Task, parts_of_task};
use ep_types::Typed;
use ep_universe::universe::Universe;
use std::alloc::Global;

fn check_and_ground(alloc: Global, universe: &Universe) -> Result<Parts, GroundError>
    ensures actions { IfOk result (λ parts. parts.actions ≡ action_names universe.now.names universe.now.tree.schemas) }
    ensures problem { IfOk result (λ parts. parts.problem ≡ problem_from universe.now.names universe.now.tree) }
    ensures frames { OnOk result (not_s5 universe.now.names universe.now.tree ≡ None) }
    ensures known { IsUniverse universe.now }
    ensures sound { OnOk result (first_some (behind_names universe.now.names universe.now.tree) ≡ None) }
    ensures err { IfErr result (Reports GroundError.OutOfMemory (first_some (behind_names universe.now.names universe.now.tree))) }
{
    universe.known();
    check_limits(alloc, universe)?;
    parts_of_task(alloc, universe)
}

// Frees a universe. Its many parts are freed in a function of its own, so that the proof of `ground_universe` has none of
// them.
fn discard(_universe: Universe) {}

fn ground_universe(alloc: Global, universe: Universe) -> Result<Task, GroundError>
    ensures task { IfOk result (λ task. task ≡ task_of universe.tree) }
    ensures sound { OnOk result (first_some (behind_names universe.names universe.tree) ≡ None) }
    ensures err { IfErr result (Reports GroundError.OutOfMemory (first_some (behind_names universe.names universe.tree))) }
{
    match check_and_ground(alloc, &universe) {
        Ok(parts) => Ok(Task::from_parts(universe, parts)),
        Err(error) => {
            discard(universe);
            Err(error)
        }
    }
}

/// The ground task of a typed task, or the first row of the table of ground faults that
/// holds, with its exact count, token or printed name.
pub fn ground(alloc: Global, typed: Typed) -> Result<Task, GroundError>
    ensures task { IfOk result (λ task. task ≡ task_of typed) }
    ensures sound { OnOk result (fault_of (declarations typed) typed ≡ None) }
    ensures fault { IfErr result (Reports GroundError.OutOfMemory (fault_of (declarations typed) typed)) }
{
    let universe = Universe::new(alloc, typed)?;
    ground_universe(alloc, universe)
}
