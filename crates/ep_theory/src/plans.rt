// Laws of plans: the states that they leave, and the lists that show that there is none.

ghost use Rattle.std.specs.Prelude.{◌≡◌, ℕ, ◌↔◌, List, [], ◌∷◌, ◌++◌, Some, None, slice_get, option_and_then};
ghost use Rattle.ep_logic.specs.declared.ids.ActionId.{ActionId};
ghost use Rattle.ep_theory.specs.Kripke.{Kripke, IsState};
ghost use Rattle.ep_theory.specs.Events.{EventModel};
ghost use Rattle.ep_theory.specs.Product.{IsApplicable, product_of};
ghost use Rattle.ep_theory.specs.Bisimulation.{Bisimilar};
ghost use Rattle.ep_theory.specs.PlanningTask.{PlanningTask, IsPlanningTask};
ghost use Rattle.ep_theory.specs.Plans.{step, after_from, after, Reaches};
ghost use Rattle.ep_theory.specs.Closed.{Closed, HasNoPlan};

/// A step leads to the product with the action, exactly where the task has it and it is applicable.
pub fn step_is_the_product()
    ensures { (T : PlanningTask) (S R : Kripke) (a : ActionId) → IsState S → (step T S a ≡ Some R)
        ↔ ((A : EventModel) × (slice_get T.actions a.n ≡ Some A) × IsApplicable S A × (R ≡ product_of S A)) }
{}

/// There is no step exactly where no action of the task at this place is applicable.
pub fn no_step_where_nothing_applies()
    ensures { (T : PlanningTask) (S : Kripke) (a : ActionId) → IsState S → (step T S a ≡ None)
        ↔ ((A : EventModel) → slice_get T.actions a.n ≡ Some A → ¬ IsApplicable S A) }
{}

/// A plan with one more action leads on from the state that the plan leaves.
pub fn one_more_action()
    ensures { (T : PlanningTask) (p : List ActionId) (a : ActionId) →
        after T (p ++ a ∷ []) ≡ option_and_then (λ S. step T S a) (after T p) }
{}

/// What a plan leaves is a state with the agents and atoms of the task.
pub fn a_plan_leaves_a_state()
    ensures { (T : PlanningTask) (p : List ActionId) (S : Kripke) → IsPlanningTask T → after T p ≡ Some S →
        IsState S × (S.agents ≡ T.initial.agents) × (S.atoms ≡ T.initial.atoms) }
{}

/// From bisimilar states the same actions lead to bisimilar states.
pub fn bisimilar_states_have_bisimilar_runs()
    ensures { (T : PlanningTask) (S R : Kripke) (p : List ActionId) (Q : Kripke) → IsPlanningTask T → IsState S →
        IsState R → Bisimilar S R → after_from T S p ≡ Some Q →
        ((P : Kripke) × (after_from T R p ≡ Some P) × Bisimilar Q P) }
{}

/// The plans of two tasks that differ in bisimilar initial states alone reach the goal alike.
pub fn bisimilar_tasks_are_solved_alike()
    ensures { (T : PlanningTask) (S : Kripke) (p : List ActionId) → IsPlanningTask T → IsState S →
        Bisimilar T.initial S → Reaches T p ↔ Reaches (record T { initial = S }) p }
{}

/// Where each action was tried in each state of a list, and its product stands there, no plan within the bound reaches the
/// goal.
pub fn a_closed_list_excludes_plans()
    ensures { (T : PlanningTask) (bound : ℕ) (entries : List (Kripke × ℕ)) → IsPlanningTask T → Closed T bound entries →
        HasNoPlan T bound }
{}
