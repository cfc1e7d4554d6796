//! Laws of the readers.

ghost use Rattle.ep_reader.specs.Decided.{IsDecided};
ghost use Rattle.ep_tree.specs.Grammar.{formulas, plans, tasks};

/// Every list of tokens is a formula, or has a syntax place, or a depth place, and only one of the three.
pub fn formulas_are_decided()
    ensures { IsDecided formulas }
{}

/// Every list of tokens is a task, or has a syntax place, or a depth place, and only one of the three.
pub fn tasks_are_decided()
    ensures { IsDecided tasks }
{}

/// Every list of tokens is a plan file, or has a syntax place, or a depth place, and only one of the three.
pub fn plans_are_decided()
    ensures { IsDecided plans }
{}
