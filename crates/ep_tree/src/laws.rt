//! Laws of spellings, and of trees that are read.

ghost use Rattle.std.specs.Prelude.{ℕ, ◌≤◌, List, length};
ghost use Rattle.ep_lex.specs.Tokens.{spellings};
ghost use Rattle.ep_lex.specs.declared.limits.TheConstants.{MOST_TOKENS};
ghost use Rattle.ep_lex.specs.declared.token.Token.{Token};
ghost use Rattle.ep_tree.specs.declared.tree.FormulaTree.{FormulaTree};
ghost use Rattle.ep_tree.specs.declared.tree.TaskTree.{TaskTree};
ghost use Rattle.ep_tree.specs.Grammar.{IsRead, Reads, tasks};
ghost use Rattle.ep_tree.specs.Marks.{IsShallow};
ghost use Rattle.ep_tree.specs.Nesting.{nesting};
ghost use Rattle.ep_tree.specs.Spelling as spell;
ghost use Rattle.ep_tree.specs.declared.limits.TheConstants.{MOST_NESTING};

/// A formula has a nesting of at most 64 exactly where no token of its spelling begins one of a greater nesting.
pub fn shallow_spellings_are_of_shallow_formulas()
    ensures formula { (f : FormulaTree) → IsShallow (spell.formula f) → nesting f ≤ MOST_NESTING }
    ensures spelling { (f : FormulaTree) → nesting f ≤ MOST_NESTING → IsShallow (spell.formula f) }
{}

/// A task tree that reads the tokens of a text, where these are not too many, is one that is read.
pub fn trees_of_texts_are_read()
    ensures { (bytes : List ℕ) (tokens : List Token) (t : TaskTree) → length tokens ≤ MOST_TOKENS →
        Reads tasks (spellings bytes tokens) t → IsRead t }
{}
