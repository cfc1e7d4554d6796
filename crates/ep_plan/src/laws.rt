// Laws of runs under a size and of verdicts. Every function here has an empty body, and its contract is the theorem.

ghost use Rattle.std.specs.Prelude.{◌≡◌, ℕ, List, None};
ghost use Rattle.ep_logic.specs.declared.ids.ActionId.{ActionId};
ghost use Rattle.ep_update.specs.declared.update.Size.{Size};
ghost use Rattle.ep_theory.specs.PlanningTask.{PlanningTask, IsPlanningTask};
ghost use Rattle.ep_theory.specs.Plans.{after, Reaches};
ghost use Rattle.ep_plan.specs.declared.runs.Outcome.{Outcome};
ghost use Rattle.ep_plan.specs.declared.runs.Outcome.TheVariants.{Stuck};
ghost use Rattle.ep_plan.specs.declared.verdicts.Verdict.{Verdict};
ghost use Rattle.ep_plan.specs.declared.verdicts.Verdict.TheVariants.{Yes};
ghost use Rattle.ep_plan.specs.Runs.{RunUnder};
ghost use Rattle.ep_plan.specs.Verdicts.{IsVerdict};

/// A run under a size has one outcome.
pub fn a_run_has_one_outcome()
    ensures { (T : PlanningTask) (p : List ActionId) (size : Size) (x y : Outcome) → RunUnder T p size x →
        RunUnder T p size y → x ≡ y }
{}

/// There is one verdict on a plan.
pub fn a_plan_has_one_verdict()
    ensures { (T : PlanningTask) (p : List ActionId) (x y : Verdict) → IsVerdict T p x → IsVerdict T p y → x ≡ y }
{}

/// A plan with the verdict `Yes` reaches the goal.
pub fn yes_reaches_the_goal()
    ensures { (T : PlanningTask) (p : List ActionId) → IsVerdict T p Yes → Reaches T p }
{}

/// A plan that is stuck at a step leaves no state, under whatever size.
pub fn a_stuck_plan_leaves_no_state()
    ensures { (T : PlanningTask) (p : List ActionId) (size : Size) (k : ℕ) → IsPlanningTask T →
        RunUnder T p size (Stuck k) → after T p ≡ None }
{}
