// The formula of a word.
ghost use Rattle.std.specs.Prelude.{◌≡◌, ◌≤◌, length, MatchResult};
ghost use Rattle.ep_reader.specs.Texts.{IsTextOf};
ghost use Rattle.ep_tree.specs.Formed.{IsFormedFormula};
ghost use Rattle.ep_tree.specs.Grammar.{formulas};
ghost use Rattle.ep_tree.specs.Marks.{IsShallow};
ghost use Rattle.ep_theory.specs.Fits.{Fits};
ghost use Rattle.ep_reading.specs.FormulaWord.{Formed, FormulaRead, FormulaWord};
ghost use Rattle.ep_reading.specs.Served.{Parsed};
ghost use Rattle.ep_reading.specs.Steps.{IsFormOf, IsFormulaOf, StopsBy, nothing_behind};
ghost use Rattle.ep_answer.specs.declared.cause.Subject.TheVariants.{Formula as OfFormula};

use crate::read::{place, text_stop};
use ep_answer::{Answer, Cause, Stop, Subject};
use ep_ground::{FormulaFault, Task, ground_formula};
use ep_lex::{MOST_BYTES, TokenList};
use ep_logic::Formula;
use ep_reader::ParsedText;
use ep_syntax::read_formula_text;
use ep_tree::FormulaTree;
use std::alloc::Global;

fn formula_text(alloc: Global, text: &[u8]) -> Result<ParsedText<FormulaTree>, Stop>
    requires { length text.now ≤ MOST_BYTES }
    ensures { MatchResult result (λ parsed. IsTextOf formulas text.now parsed.tokens parsed.tree)
        (StopsBy (Parsed formulas OfFormula text.now (λ _. nothing_behind))) }
{
    match read_formula_text(alloc, text) {
        Ok(parsed) => Ok(parsed),
        Err(error) => Err(text_stop(Subject::Formula, error)),
    }
}

fn form_formula(
    alloc: Global,
    task: &Task,
    found: &TokenList,
    tree: &FormulaTree,
) -> Result<Formula, Stop>
    requires formed { IsFormedFormula tree.now }
    requires shallow { IsShallow (formulas.marks tree.now) }
    ensures { MatchResult result (IsFormOf task.now tree.now)
        (StopsBy (Formed task.now found.now tree.now nothing_behind)) }
{
    match ground_formula(alloc, task, tree) {
        Ok(formula) => Ok(formula),
        Err(FormulaFault::Typing { fault, token }) => {
            let cause = Cause::Mistyped(fault, place(found, token));
            Err(Stop::Told(Answer::Refused(Subject::Formula, cause)))
        }
        Err(FormulaFault::TooLarge { token }) => {
            let cause = Cause::TooLarge(place(found, token));
            Err(Stop::Told(Answer::Refused(Subject::Formula, cause)))
        }
        Err(FormulaFault::OutOfMemory) => Err(Stop::OutOfMemory),
    }
}

fn read_formula(alloc: Global, task: &Task, text: &[u8]) -> Result<Formula, Stop>
    requires { length text.now ≤ MOST_BYTES }
    ensures { MatchResult result (IsFormulaOf task.now text.now) (StopsBy (FormulaRead task.now text.now nothing_behind)) }
{
    let parsed = formula_text(alloc, text)?;
    form_formula(alloc, task, &parsed.tokens, &parsed.tree)
}

/// The formula of a word, over the names of a task.
pub fn read_formula_word(alloc: Global, task: &Task, word: &str) -> Result<Formula, Stop>
    ensures { MatchResult result (IsFormulaOf task.now word.now) (StopsBy (FormulaWord task.now word.now nothing_behind)) }
{
    if word.len() > MOST_BYTES as usize {
        return Err(Stop::Told(Answer::Refused(Subject::Formula, Cause::TooLong)));
    }
    read_formula(alloc, task, word.as_bytes())
}
