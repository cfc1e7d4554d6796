//! The readers of whole texts.

ghost use Rattle.std.specs.Prelude.{◌≡◌, ◌≤◌, ℕ, Err, length};
ghost use Rattle.ep_lex.specs.Tokens.{AreTokens, spellings};
ghost use Rattle.ep_lex.specs.declared.limits.TheConstants.{MOST_BYTES};
ghost use Rattle.ep_reader.specs.Answers.{IsReadBy};
ghost use Rattle.ep_reader.specs.Texts.{IsParsedBy};
ghost use Rattle.ep_reader.specs.declared.text.TextError.TheVariants as text_error;
ghost use Rattle.ep_tree.specs.Grammar.{DeepAt, formulas, plans, tasks};
ghost use Rattle.ep_reader.specs.declared.error.SyntaxError.TheVariants.{TooDeep};

use ep_lex::TokenList;
use ep_reader::{ParsedText, SyntaxError, TextError, parse_text, parse_whole};
use ep_tree::{FormulaTree, PlanTree, TaskTree};
use std::alloc::Global;

/// A formula by itself. The tokens are those of the bytes.
pub fn read_formula(
    alloc: Global,
    bytes: &[u8],
    tokens: &TokenList,
) -> Result<FormulaTree, SyntaxError>
    requires { AreTokens bytes.now tokens.now.tokens }
    ensures { IsReadBy formulas (spellings bytes.now tokens.now.tokens) result }
{
    parse_whole(alloc, bytes, tokens)
}

/// A task. The tokens are those of the bytes.
pub fn read_task(alloc: Global, bytes: &[u8], tokens: &TokenList) -> Result<TaskTree, SyntaxError>
    requires { AreTokens bytes.now tokens.now.tokens }
    ensures { IsReadBy tasks (spellings bytes.now tokens.now.tokens) result }
{
    parse_whole(alloc, bytes, tokens)
}

/// A plan file. The tokens are those of the bytes. No formula stands in one, so nothing is ever too deep.
pub fn read_plan_lines(
    alloc: Global,
    bytes: &[u8],
    tokens: &TokenList,
) -> Result<PlanTree, SyntaxError>
    requires { AreTokens bytes.now tokens.now.tokens }
    ensures read_by { IsReadBy plans (spellings bytes.now tokens.now.tokens) result }
    ensures never_deep { (t : ℕ) → result ≡ Err (TooDeep t) → ⊥ }
    ensures none_deep { (t : ℕ) → DeepAt plans (spellings bytes.now tokens.now.tokens) t → ⊥ }
{
    parse_whole(alloc, bytes, tokens)
}

/// A formula of bytes, by itself: its tokens and its tree, or the first fault of the text.
pub fn read_formula_text(alloc: Global, bytes: &[u8]) -> Result<ParsedText<FormulaTree>, TextError>
    requires { length bytes.now ≤ MOST_BYTES }
    ensures { IsParsedBy formulas bytes.now result }
{
    parse_text(alloc, bytes)
}

/// A task of bytes: its tokens and its tree, or the first fault of the text.
pub fn read_task_text(alloc: Global, bytes: &[u8]) -> Result<ParsedText<TaskTree>, TextError>
    requires { length bytes.now ≤ MOST_BYTES }
    ensures { IsParsedBy tasks bytes.now result }
{
    parse_text(alloc, bytes)
}

/// A plan file of bytes: its tokens and its tree, or the first fault of the text. Nothing in it is ever too deep.
pub fn read_plan_text(alloc: Global, bytes: &[u8]) -> Result<ParsedText<PlanTree>, TextError>
    requires { length bytes.now ≤ MOST_BYTES }
    ensures parsed_by { IsParsedBy plans bytes.now result }
    ensures never_deep { (token line : ℕ) → result ≡ Err (text_error.TooDeep token line) → ⊥ }
{
    parse_text(alloc, bytes)
}
