//! The costs of plans.

ghost use Rattle.std.specs.Prelude.{◌≡◌, ◌<◌, ◌≤◌, All, length};
ghost use Rattle.ep_bounds.specs.declared.bounds.Measure.TheVariants.{Cost};
ghost use Rattle.ep_bounds.specs.declared.bounds.TheConstants.{MOST_PLAN_ACTIONS};
ghost use Rattle.ep_theory.specs.Plans.{weight};

use ep_bounds::Measure;
use ep_ground::{Plan, Task};

/// The sum of the costs of a plan's actions.
pub fn sum_costs(task: &Task, plan: &Plan) -> u32
    requires actions { All (λ a. a.n < length task.now.actions) plan.now }
    requires few { length plan.now ≤ MOST_PLAN_ACTIONS }
    ensures { result ≡ weight task.now.problem Cost plan.now }
{
    task.known();
    task.problem().weigh(plan.as_slice(), Measure::Cost)
}
