ghost use Rattle.std.specs.Prelude.{◌≡◌, ◌<◌, ◌≤◌, Some, length, slice_get};
ghost use Rattle.std.specs.List.{AllByRecursion};
ghost use Rattle.ep_bounds.specs.declared.bounds.TheConstants.{MOST_COST};
ghost use Rattle.ep_logic.specs.declared.limits.TheConstants.{MOST_INITIAL_WORLDS, MOST_GROUND_ACTIONS};
ghost use Rattle.ep_theory.specs.Events.{IsAction};
ghost use Rattle.ep_theory.specs.Fits.{Fits, ActionFits};
ghost use Rattle.ep_theory.specs.PlanningTask.{IsPlanningTask, IsSmall};

use ep_event::Action;
use ep_kripke::State;
use ep_logic::{ActionId, Formula, List};
use std::marker::Model;

/// A list of actions, by their places in a problem.
pub type Plan = List<ActionId>;

/// An initial state of at most 256 worlds, at most 1,024 actions and a goal, all among the same agents and atoms. Each
/// action has a cost of 1 to 100. Contracts see it as the planning task of Bolander and Andersen, *Epistemic planning for single- and multi-agent
/// systems* (2011).
pub struct Problem {
    initial: State,
    actions: List<Action>,
    costs: List<u32>,
    goal: Formula,
}

impl Drop for Problem {
    fn drop(self) {
        let Problem {
            initial: _initial,
            actions: _actions,
            costs: _costs,
            goal: _goal,
        } = self;
    }
}

impl Model for Problem {
    ghost use Rattle.ep_logic.specs.contracts.formula.Node as e;
    ghost use Rattle.std.specs.Coded.{codes};
    ghost use Rattle.ep_theory.specs.PlanningTask.{PlanningTask, IsPlanningTask, IsSmall};

    ghost Value = { PlanningTask };

    ghost coded = { Prim.hlevel (codes, e.the_row.coded) };

    ghost view = { λ p. record { initial = p.initial; actions = p.actions; costs = p.costs; goal = p.goal } };

    ghost invariant = { λ p. let task : PlanningTask = record { initial = p.initial; actions = p.actions; costs = p.costs; goal = p.goal } in
        IsPlanningTask task × IsSmall task };
}

impl Problem {
    /// The problem with these parts, where each action has the cost at its place. It takes no memory.
    pub fn new(initial: State, actions: List<Action>, costs: List<u32>, goal: Formula) -> Problem
        requires worlds { initial.worlds ≤ MOST_INITIAL_WORLDS }
        requires actions { length actions ≤ MOST_GROUND_ACTIONS }
        requires fit { AllByRecursion (ActionFits initial) actions }
        requires costed { length costs ≡ length actions }
        requires least { AllByRecursion (λ cost. 1 ≤ cost) costs }
        requires most { AllByRecursion (λ cost. cost ≤ MOST_COST) costs }
        requires goal { Fits initial goal }
        ensures { result ≡ record { initial = initial; actions = actions; costs = costs; goal = goal } }
    {
        initial.known();
        look_at(actions.as_slice());
        Problem {
            initial,
            actions,
            costs,
            goal,
        }
    }

    /// What is known of every problem. It does nothing: a proof calls it where the code asks nothing of the problem.
    pub fn known(&self)
        ensures valid { IsPlanningTask self.now }
        ensures small { IsSmall self.now }
    {
        let _initial = &self.initial;
    }

    pub fn initial(&self) -> &State
        ensures value { result.now ≡ self.now.initial }
        ensures valid { IsPlanningTask self.now }
        ensures small { IsSmall self.now }
    {
        &self.initial
    }

    /// The number of actions.
    pub fn actions(&self) -> u32
        ensures value { result ≡ length self.now.actions }
        ensures valid { IsPlanningTask self.now }
        ensures small { IsSmall self.now }
    {
        self.actions.as_slice().len() as u32
    }

    /// The action at a place.
    pub fn action(&self, a: ActionId) -> &Action
        requires { a.n < length self.now.actions }
        ensures value { slice_get self.now.actions a.n ≡ Some result.now }
        ensures action { IsAction result.now }
        ensures fits { ActionFits self.now.initial result.now }
        ensures valid { IsPlanningTask self.now }
        ensures small { IsSmall self.now }
    {
        let action = &self.actions.as_slice()[a.n as usize];
        action.known();
        action
    }

    /// The cost of the action at a place. It takes no memory.
    pub fn cost(&self, a: ActionId) -> u32
        requires { a.n < length self.now.actions }
        ensures value { slice_get self.now.costs a.n ≡ Some result }
        ensures least { 1 ≤ result }
        ensures most { result ≤ MOST_COST }
        ensures valid { IsPlanningTask self.now }
        ensures small { IsSmall self.now }
    {
        self.costs.as_slice()[a.n as usize]
    }

    pub fn goal(&self) -> &Formula
        ensures value { result.now ≡ self.now.goal }
        ensures valid { IsPlanningTask self.now }
        ensures small { IsSmall self.now }
    {
        &self.goal
    }
}

// Each action is one, which its calls say.
fn look_at(actions: &[Action])
    ensures { AllByRecursion IsAction actions.now }
{
    for action in actions {
        action.known();
    }
}
