//! Ground tasks.

ghost use Rattle.std.specs.Prelude.{◌≡◌, ◌≢◌, ◌<◌, ◌≤◌, All, AllPairs, IfErr, IfNone, IfOk, IfSome, IsTrue, None, OnOk, Some, length, slice_get};
ghost use Rattle.ep_base.specs.Refusals.{Reports, first_some};
ghost use Rattle.ep_bounds.specs.declared.bounds.TheConstants.{MOST_COST};
ghost use Rattle.ep_theory.specs.PlanningTask.{IsPlanningTask, IsS5Task, IsSmall};
ghost use Rattle.ep_types.specs.Tasks.{HasNoFault, declarations};
ghost use Rattle.ep_universe.specs.Universe.{IsUniverse, named};
ghost use Rattle.ep_schema.specs.ActionNames.{action_names};
ghost use Rattle.ep_ground.specs.Frames.{not_s5};
ghost use Rattle.ep_ground.specs.Grounding.{IsNamed, behind_limits, part_rows, problem_from, task_of};
ghost use Rattle.ep_ground.specs.Within.{IsWithinLimits};

use crate::fault::GroundError;
use crate::frames::check_frames;
use ep_event::Action;
use ep_initial::initial_state;
use ep_kripke::State;
use ep_logic::{ActionId, AgentId, AtomId, Formula, Text};
use ep_name::NameTable;
use ep_problem::Problem;
use ep_schema::costs::action_costs;
use ep_schema::schemas::ground_actions;
use ep_schema::tables::action_table;
use ep_types::Typed;
use ep_universe::formula::ground_form;
use ep_universe::universe::Universe;
use std::alloc::Global;
use std::marker::Model;

/// A ground task: the problem that a typed task poses, with the printed names of its agents, atoms and actions. Agents,
/// atoms and actions are counted from 0.
pub struct Task {
    universe: Universe,
    actions: NameTable,
    problem: Problem,
}

impl Drop for Task {
    fn drop(self) {
        let Task {
            universe: _universe,
            actions: _actions,
            problem: _problem,
        } = self;
    }
}

impl Model for Task {
    ghost use Rattle.std.specs.Coded.{codes};
    ghost use Rattle.ep_logic.specs.contracts.formula.Node as e;
    ghost use Rattle.ep_tree.specs.contracts.tree.TaskTree as trees;
    ghost use Rattle.ep_universe.specs.PrintedNames.{agent_names, atom_names};
    ghost use Rattle.ep_ground.specs.Grounding.{IsNamed};
    ghost use Rattle.ep_ground.specs.Task.{GroundTask};

    ghost Value = { GroundTask };

    ghost coded = { Prim.hlevel (codes, e.the_row.coded, trees.the_row.coded) };

    ghost view = { λ t. record { tree = t.universe.tree; agents = agent_names t.universe.names; atoms = atom_names t.universe.names; actions = t.actions; problem = t.problem } };

    ghost invariant = { λ t. IsNamed (record { tree = t.universe.tree; agents = agent_names t.universe.names; atoms = atom_names t.universe.names; actions = t.actions; problem = t.problem }) };
}

impl Task {
    /// The ground task of a universe, from its parts.
    pub(crate) fn from_parts(universe: Universe, parts: Parts) -> Task
        requires known { IsUniverse universe }
        requires actions { parts.actions ≡ action_names universe.names universe.tree.schemas }
        requires problem { parts.problem ≡ problem_from universe.names universe.tree }
        requires frames { not_s5 universe.names universe.tree ≡ None }
        ensures { result ≡ task_of universe.tree }
    {
        parts.problem.known();
        let Parts { actions, problem } = parts;
        Task {
            universe,
            actions,
            problem,
        }
    }

    pub fn name(&self) -> &Text
        ensures { result.now ≡ self.now.tree.name.text }
    {
        &self.universe.tree().name.text
    }

    /// What is known of every ground task: it is the one of its tree. It does nothing: a proof calls it where the code asks
    /// nothing of the task.
    pub fn known(&self)
        ensures { IsNamed self.now }
    {
        let _problem = &self.problem;
    }

    /// The number of agents.
    pub fn agents(&self) -> u32
        ensures value { result ≡ length self.now.agents }
        ensures named { IsNamed self.now }
    {
        self.problem.initial().agents()
    }

    /// The number of objects.
    pub fn objects(&self) -> u32
        ensures value { result ≡ length (declarations self.now.tree).objects }
        ensures named { IsNamed self.now }
    {
        self.universe.typed().object_count() as u32
    }

    /// The number of ground atoms.
    pub fn atoms(&self) -> u32
        ensures value { result ≡ length self.now.atoms }
        ensures named { IsNamed self.now }
    {
        self.problem.initial().atoms()
    }

    /// The number of ground actions.
    pub fn actions(&self) -> u32
        ensures value { result ≡ length self.now.actions }
        ensures named { IsNamed self.now }
    {
        self.problem.actions()
    }

    pub(crate) fn agent_names(&self) -> &[Text]
        ensures { result.now ≡ self.now.agents }
    {
        self.universe.agent_names()
    }

    pub(crate) fn atom_names(&self) -> &[Text]
        ensures { result.now ≡ self.now.atoms }
    {
        self.universe.atom_names()
    }

    /// What the names of the task stand for.
    pub(crate) fn universe(&self) -> &Universe
        ensures value { result.now ≡ named self.now.tree }
        ensures named { IsNamed self.now }
    {
        self.universe.known();
        &self.universe
    }

    pub fn agent_name(&self, a: AgentId) -> &Text
        requires { a.n < length self.now.agents }
        ensures { slice_get self.now.agents a.n ≡ Some result.now }
    {
        &self.universe.agent_names()[a.n as usize]
    }

    pub fn atom_name(&self, p: AtomId) -> &Text
        requires { p.n < length self.now.atoms }
        ensures { slice_get self.now.atoms p.n ≡ Some result.now }
    {
        &self.universe.atom_names()[p.n as usize]
    }

    pub fn action_name(&self, a: ActionId) -> &Text
        requires { a.n < length self.now.actions }
        ensures { slice_get self.now.actions a.n ≡ Some result.now }
    {
        self.actions.text(a.n)
    }

    /// The action with a printed name, or None exactly where no ground action has it. It is found by one look-up.
    pub fn action_by_name(&self, name: &[u8]) -> Option<ActionId>
        ensures found { IfSome result (λ a. slice_get self.now.actions a.n ≡ Some name.now) }
        ensures none { IfNone result (All (λ known. known ≢ name.now) self.now.actions) }
        ensures apart { AllPairs (λ x y. x ≢ y) self.now.actions }
    {
        match self.actions.place(name) {
            Some(n) => Some(ActionId { n }),
            None => None,
        }
    }

    pub fn initial(&self) -> &State
        ensures { result.now ≡ self.now.problem.initial }
    {
        self.problem.initial()
    }

    pub fn action(&self, a: ActionId) -> &Action
        requires { a.n < length self.now.problem.actions }
        ensures { slice_get self.now.problem.actions a.n ≡ Some result.now }
    {
        self.problem.action(a)
    }

    pub fn goal(&self) -> &Formula
        ensures { result.now ≡ self.now.problem.goal }
    {
        self.problem.goal()
    }

    /// The cost of an action: that which its schema states, or 1. It takes no memory.
    pub fn cost(&self, a: ActionId) -> u32
        requires { a.n < length self.now.problem.actions }
        ensures value { slice_get self.now.problem.costs a.n ≡ Some result }
        ensures least { 1 ≤ result }
        ensures most { result ≤ MOST_COST }
    {
        self.problem.cost(a)
    }

    /// Whether the task says `frames s5;`, so that all its relations are equivalences.
    pub fn s5(&self) -> bool
        ensures value { result ≡ self.now.tree.s5 }
        ensures frames { IsTrue result → IsS5Task self.now.problem }
    {
        self.known();
        self.universe.tree().s5
    }

    /// The problem that the task poses.
    pub fn problem(&self) -> &Problem
        ensures value { result.now ≡ self.now.problem }
        ensures valid { IsPlanningTask self.now.problem }
        ensures small { IsSmall self.now.problem }
    {
        self.problem.known();
        &self.problem
    }

    /// The typed task.
    pub fn typed(&self) -> &Typed
        ensures value { result.now ≡ self.now.tree }
        ensures typed { HasNoFault self.now.tree }
    {
        self.universe.typed()
    }
}

/// What a ground task is made of beside its universe: the table of the printed names of its actions, and the problem.
#[derive(Drop)]
pub struct Parts {
    pub actions: NameTable,
    pub problem: Problem,
}

fn problem_of_task(alloc: Global, universe: &Universe) -> Result<Problem, GroundError>
    requires { IsWithinLimits universe.now.names universe.now.tree }
    ensures value { IfOk result (λ problem. problem ≡ problem_from universe.now.names universe.now.tree) }
    ensures sound { OnOk result (first_some (part_rows universe.now.names universe.now.tree) ≡ None) }
    ensures err { IfErr result (Reports GroundError.OutOfMemory (first_some (part_rows universe.now.names universe.now.tree))) }
{
    let tree = universe.tree();
    let actions = ground_actions(alloc, universe, tree.schemas.as_slice())?;
    let initial = initial_state(alloc, universe)?;
    let costs = action_costs(alloc, universe)?;
    let goal = ground_form(alloc, universe, &tree.goal, &[])?;
    Ok(Problem::new(initial, actions, costs, goal))
}

// Frees parts. They are freed in a function of their own, so that the proof of `parts_of_task` has none of them.
fn discard(_parts: Parts) {}

/// The parts of the ground task of a universe that is within the limits. An error tells the first action that assigns to
/// one atom twice, or else the fault of the initial state, or else the first relation that is to be an equivalence and is
/// none, or that there is no memory.
pub fn parts_of_task(alloc: Global, universe: &Universe) -> Result<Parts, GroundError>
    requires { IsWithinLimits universe.now.names universe.now.tree }
    ensures actions { IfOk result (λ parts. parts.actions ≡ action_names universe.now.names universe.now.tree.schemas) }
    ensures problem { IfOk result (λ parts. parts.problem ≡ problem_from universe.now.names universe.now.tree) }
    ensures frames { OnOk result (not_s5 universe.now.names universe.now.tree ≡ None) }
    ensures sound { OnOk result (first_some (behind_limits universe.now.names universe.now.tree) ≡ None) }
    ensures err { IfErr result (Reports GroundError.OutOfMemory (first_some (behind_limits universe.now.names universe.now.tree))) }
{
    let actions = action_table(alloc, universe)?;
    let problem = problem_of_task(alloc, universe)?;
    let parts = Parts { actions, problem };
    match check_frames(alloc, universe, &parts) {
        Ok(()) => Ok(parts),
        Err(error) => {
            discard(parts);
            Err(error)
        }
    }
}
