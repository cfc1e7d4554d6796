//! What the definitions say in other words.

ghost use Rattle.ep_types.specs.Laws.{FirstIsLeast, FormulaTokensRise, TaskTokensRise, TellsFirst, TellsNone};

/// The first fault is at a token that no token with a fault comes before.
pub fn first_is_first()
    ensures some { TellsFirst }
    ensures none { TellsNone }
{}

/// In a tree that reads tokens the numbers of the tokens rise. So the first fault is that of the least token with one.
pub fn tokens_rise()
    ensures tasks { TaskTokensRise }
    ensures formulas { FormulaTokensRise }
    ensures least { FirstIsLeast }
{}
