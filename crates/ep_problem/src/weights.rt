ghost use Rattle.std.specs.Prelude.{◌≡◌, ◌<◌, ◌≤◌, length};
ghost use Rattle.std.specs.List.{AllByRecursion};
ghost use Rattle.ep_bounds.specs.declared.bounds.Measure.TheVariants.{Cost};
ghost use Rattle.ep_bounds.specs.declared.bounds.TheConstants.{MOST_PLAN_ACTIONS};
ghost use Rattle.ep_theory.specs.Plans.{weight};

use crate::problem::Problem;
use ep_bounds::Measure;
use ep_logic::ActionId;

impl Problem {
    /// What a plan of at most 262,144 actions measures: their number, or the sum of their costs. It takes no memory.
    pub fn weigh(&self, plan: &[ActionId], measure: Measure) -> u32
        requires few { length plan.now ≤ MOST_PLAN_ACTIONS }
        requires actions { AllByRecursion (λ a. a.n < length self.now.actions) plan.now }
        ensures { result ≡ weight self.now measure plan.now }
    {
        match measure {
            Measure::Length => plan.len() as u32,
            Measure::Cost => sum_costs(self, plan),
        }
    }
}

fn sum_costs(problem: &Problem, plan: &[ActionId]) -> u32
    requires few { length plan.now ≤ MOST_PLAN_ACTIONS }
    requires actions { AllByRecursion (λ a. a.n < length problem.now.actions) plan.now }
    ensures { result ≡ weight problem.now Cost plan.now }
{
    let mut sum = 0;
    for action in plan {
        sum += problem.cost(*action);
    }
    sum
}
