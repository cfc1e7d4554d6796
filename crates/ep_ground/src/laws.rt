//! What the actions and the goal of a ground task are.

ghost use Rattle.std.specs.List.{AllByRecursion};
ghost use Rattle.ep_tree.specs.declared.tree.TaskTree.{TaskTree};
ghost use Rattle.ep_theory.specs.Fits.{ActionFits, Fits};
ghost use Rattle.ep_types.specs.Tasks.{HasNoFault, declarations};
ghost use Rattle.ep_ground.specs.Grounding.{problem_from};
ghost use Rattle.ep_initial.specs.Initial.{initial_of};
ghost use Rattle.ep_schema.specs.Actions.{actions_of};

/// In a task without a fault all ground actions and the goal are among the agents and atoms of the initial state.
pub fn ground_actions_fit()
    ensures actions { (t : TaskTree) → HasNoFault t →
        AllByRecursion (ActionFits (initial_of (declarations t) t.init)) (actions_of (declarations t) t.schemas) }
    ensures goal { (t : TaskTree) → HasNoFault t →
        Fits (initial_of (declarations t) t.init) (problem_from (declarations t) t).goal }
{}
