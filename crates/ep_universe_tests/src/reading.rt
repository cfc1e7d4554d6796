//! Texts as their universes.

ghost use Rattle.std.specs.Prelude.{IfOk};
ghost use Rattle.ep_lex.specs.Tokens.{AreTokens};
ghost use Rattle.ep_tree.specs.Grammar.{IsRead};

use ep_lex::{LexError, TokenList, tokens};
use ep_syntax::read_task;
use ep_tree::TaskTree;
use ep_types::{Typed, check};
use ep_universe::{Universe, UniverseError};
use std::alloc::Global;
use std::process::Abort;
use std::test::Fail;

fn tokens_of(rt: &impl Abort, alloc: Global, bytes: &[u8]) -> Result<TokenList, LexError>
    ensures { IfOk result (λ found. AreTokens bytes.now found.tokens) }
{
    assert!(rt; bytes.len() <= 1_048_576);
    tokens(alloc, bytes)
}

#[tactic(auto, using(ep_tree::proofs::ReadLemmas::is_read))]
fn task_tree(rt: &impl Abort, alloc: Global, text: &str) -> Result<TaskTree, Fail>
    ensures { IfOk result IsRead }
{
    let bytes = text.as_bytes();
    let found = tokens_of(rt, alloc, bytes)?;
    let _count = found.count();
    Ok(read_task(alloc, bytes, &found)?)
}

fn typed_task(rt: &impl Abort, alloc: Global, text: &str) -> Result<Typed, Fail>
    ensures { IfOk result IsRead }
{
    let tree = task_tree(rt, alloc, text)?;
    Ok(check(alloc, tree)?)
}

pub fn universe_of(
    rt: &impl Abort,
    alloc: Global,
    text: &str,
) -> Result<Result<Universe, UniverseError>, Fail> {
    let typed = typed_task(rt, alloc, text)?;
    Ok(Universe::new(alloc, typed))
}

// Frees a value in a function of its own, so that no test's proof has its many parts.
pub fn discard(_universe: Universe) {}
