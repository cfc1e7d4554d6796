//! What typing says of ground forms.

ghost use Rattle.std.specs.Prelude.{◌≡◌, ◌≤◌, List};
ghost use Rattle.ep_binding.specs.Laminar.{IsLaminar};
ghost use Rattle.ep_logic.specs.Nodes.{depth_of, node_count};
ghost use Rattle.ep_tree.specs.Nesting.{nesting};
ghost use Rattle.ep_tree.specs.declared.tree.FormulaTree.{FormulaTree};
ghost use Rattle.ep_tree.specs.declared.tree.ParamTree.{ParamTree};
ghost use Rattle.ep_tree.specs.declared.tree.TaskTree.{TaskTree};
ghost use Rattle.ep_types.specs.Tasks.{HasNoFault, declarations};
ghost use Rattle.ep_types.specs.declared.scope.Declared.{Declared};
ghost use Rattle.ep_universe.specs.Counts.{ground_count};
ghost use Rattle.ep_universe.specs.Formulas.{ground_of};
ghost use Rattle.ep_universe.specs.Objects.{Binding, candidates};
ghost use Rattle.ep_universe.specs.Typing.{AgentsStand, AtomsStand, BindingsSuit, FormulasBuild, FormulasFit};

/// In a task without a fault, a formula without one grounds to a form whose agents and atoms are the task's, and the
/// numbers of its agents and atoms are their places.
pub fn typed_forms_fit()
    ensures formulas { FormulasFit }
    ensures atoms { AtomsStand }
    ensures agents { AgentsStand }
{}

/// The sets of objects of types are a laminar family: two of them are disjoint, or one lies in the other.
pub fn objects_of_types_are_laminar()
    ensures { (t : TaskTree) → HasNoFault t → (params : List ParamTree) → IsLaminar (candidates (declarations t) params) }
{}

/// A binding of parameters gives each an object of its type.
pub fn bindings_suit()
    ensures { BindingsSuit }
{}

/// A formula that is read and has no type fault can be built where its ground form is not too large.
pub fn read_forms_build()
    ensures { FormulasBuild }
{}

/// The nodes of a ground form are counted exactly, whatever the binding, and it is no deeper than its formula is nested.
pub fn ground_forms_are_counted()
    ensures nodes { (d : Declared) (f : FormulaTree) (b : Binding) → node_count (ground_of d f b) ≡ ground_count d f }
    ensures depth { (d : Declared) (f : FormulaTree) (b : Binding) → depth_of (ground_of d f b) ≤ nesting f }
{}
