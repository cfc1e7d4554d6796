//! Texts as their typed tasks, their formulas and their ground tasks.

ghost use Rattle.std.specs.Prelude.{IfOk};
ghost use Rattle.ep_lex.specs.Tokens.{AreTokens};
ghost use Rattle.ep_tree.specs.Formed.{IsFormedFormula};
ghost use Rattle.ep_tree.specs.Grammar.{IsRead};
ghost use Rattle.ep_tree.specs.Marks.{IsShallow};
ghost use Rattle.ep_tree.specs.Spelling as spell;

use ep_ground::{GroundError, Task, ground};
use ep_lex::{LexError, TokenList, tokens};
use ep_syntax::{read_formula, read_task};
use ep_tree::{FormulaTree, TaskTree};
use ep_types::{Typed, check};
use std::alloc::Global;
use std::process::Abort;
use std::test::Fail;

fn tokens_of(rt: &impl Abort, alloc: Global, bytes: &[u8]) -> Result<TokenList, LexError>
    ensures { IfOk result (λ found. AreTokens bytes.now found.tokens) }
{
    assert!(rt; bytes.len() <= 1_048_576);
    tokens(alloc, bytes)
}

#[tactic(auto, using(ep_tree::proofs::ReadLemmas::is_read))]
fn task_tree(rt: &impl Abort, alloc: Global, text: &str) -> Result<TaskTree, Fail>
    ensures { IfOk result IsRead }
{
    let bytes = text.as_bytes();
    let found = tokens_of(rt, alloc, bytes)?;
    let _count = found.count();
    Ok(read_task(alloc, bytes, &found)?)
}

pub fn typed_task(rt: &impl Abort, alloc: Global, text: &str) -> Result<Typed, Fail>
    ensures { IfOk result IsRead }
{
    let tree = task_tree(rt, alloc, text)?;
    Ok(check(alloc, tree)?)
}

pub fn formula_tree(rt: &impl Abort, alloc: Global, text: &str) -> Result<FormulaTree, Fail>
    ensures formed { IfOk result IsFormedFormula }
    ensures shallow { IfOk result (λ tree. IsShallow (spell.formula tree)) }
{
    let bytes = text.as_bytes();
    let found = tokens_of(rt, alloc, bytes)?;
    Ok(read_formula(alloc, bytes, &found)?)
}

pub fn ground_task(
    rt: &impl Abort,
    alloc: Global,
    text: &str,
) -> Result<Result<Task, GroundError>, Fail> {
    let typed = typed_task(rt, alloc, text)?;
    Ok(ground(alloc, typed))
}

// Each frees a value in a function of its own, so that no test's proof has its many parts.
pub fn discard_typed(_typed: Typed) {}

pub fn discard_formula(_formula: FormulaTree) {}

pub fn discard_task(_task: Task) {}
