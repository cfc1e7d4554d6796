//! What meeting a formula means, and what typing says of the formulas of the lawful form.

ghost use Rattle.std.specs.Prelude.{◌≡◌, ℕ, [], None};
ghost use Rattle.ep_tree.specs.declared.tree.FormulaTree.{FormulaTree};
ghost use Rattle.ep_theory.specs.Kripke.{Kripke, truth_of};
ghost use Rattle.ep_theory.specs.Tested.{is_true};
ghost use Rattle.ep_types.specs.Faults.{first_fault};
ghost use Rattle.ep_types.specs.Places.{objective};
ghost use Rattle.ep_types.specs.Uses.{formula_uses};
ghost use Rattle.ep_types.specs.declared.scope.Declared.{Declared};
ghost use Rattle.ep_universe.specs.Formulas.{ground_of};
ghost use Rattle.ep_initial.specs.Meeting.{meets};
ghost use Rattle.ep_initial.specs.Typing.{FormsAreTyped};

/// A formula that has no type fault where no knowledge is allowed is true at a world of any state exactly where the
/// truth list of the world meets it. So a world of the lawful form is designated exactly where the formula is true.
pub fn meeting_is_truth()
    ensures { (d : Declared) (f : FormulaTree) → first_fault (formula_uses f (objective d)) ≡ None → (S : Kripke) (w : ℕ) →
        is_true S w (ground_of d f []) ≡ meets d f (truth_of S w) }
{}

/// In a task without a fault the law and the formula of the designated worlds have no knowledge in them, and can be
/// grounded where they can be built.
pub fn lawful_forms_are_typed()
    ensures { FormsAreTyped }
{}
