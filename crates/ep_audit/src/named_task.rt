//! A planning task with names.

ghost use Rattle.std.specs.Prelude.{◌≡◌, ◌<◌, length};
ghost use Rattle.ep_audit.specs.NamedTasks.{IsNamedTask, cost_of, name_of};

use ep_logic::{ActionId, Text};
use ep_problem::Problem;
use std::marker::Model;

/// What a certificate is about: the name of a task, the problem that it poses, and a printed name for each action.
#[derive(Drop)]
pub struct NamedTask<'a> {
    name: &'a Text,
    problem: &'a Problem,
    action_names: &'a [Text],
}

impl<'a> Model for NamedTask<'a> {
    ghost use Rattle.ep_logic.specs.contracts.formula.Node as e;
    ghost use Rattle.std.specs.Coded.{codes};
    ghost use Rattle.ep_audit.specs.NamedTasks.{NamedTask, IsNamedTask};

    ghost Value = { NamedTask };

    ghost coded = { Prim.hlevel (codes, e.the_row.coded) };

    ghost view = { λ t. record { name = t.name.now; problem = t.problem.now; action_names = t.action_names.now } };

    ghost invariant = { λ t. IsNamedTask (record { name = t.name.now; problem = t.problem.now; action_names = t.action_names.now }) };
}

impl<'a> NamedTask<'a> {
    /// The task with these parts, where each action has the name at its place. It takes no memory.
    pub fn new(name: &'a Text, problem: &'a Problem, action_names: &'a [Text]) -> NamedTask<'a>
        requires { length action_names.now ≡ length problem.now.actions }
        ensures { result ≡ record { name = name.now; problem = problem.now; action_names = action_names.now } }
    {
        problem.known();
        NamedTask {
            name,
            problem,
            action_names,
        }
    }

    /// What is known of every such task. It does nothing: a proof calls it where the code asks nothing of the task.
    pub fn known(&self)
        ensures { IsNamedTask self.now }
    {
        let _name = self.name;
    }

    pub fn name(&self) -> &Text
        ensures value { result.now ≡ self.now.name }
        ensures valid { IsNamedTask self.now }
    {
        self.name
    }

    pub fn problem(&self) -> &Problem
        ensures value { result.now ≡ self.now.problem }
        ensures valid { IsNamedTask self.now }
    {
        self.problem
    }

    /// The printed name of the action at a place.
    pub fn action_name(&self, a: ActionId) -> &Text
        requires { a.n < length self.now.problem.actions }
        ensures value { result.now ≡ name_of self.now a.n }
        ensures valid { IsNamedTask self.now }
    {
        &self.action_names[a.n as usize]
    }

    /// The cost of the action at a place.
    pub fn cost(&self, a: ActionId) -> u32
        requires { a.n < length self.now.problem.actions }
        ensures value { result ≡ cost_of self.now a.n }
        ensures valid { IsNamedTask self.now }
    {
        self.problem.cost(a)
    }
}
