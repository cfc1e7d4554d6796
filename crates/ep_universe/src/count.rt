//! The nodes of ground formulas, counted before they are made.

ghost use Rattle.std.specs.Prelude.{◌≡◌, ◌+◌, ◌*◌, ◌<◌, ◌≤◌, length, map, sum, MatchOption, IfSome};
ghost use Rattle.ep_binding.specs.Bindings.{binding_count};
ghost use Rattle.ep_types.specs.Tasks.{declarations};
ghost use Rattle.ep_universe.specs.Counts.{capped, ground_count, repeated};
ghost use Rattle.ep_universe.specs.Objects.{candidates, objects_of};
ghost use Rattle.ep_universe.specs.FirstToken.{first_token};

use crate::limits::MOST_GROUND_NODES;
use crate::universe::Universe;
use ep_tree::{FormulaTree, ParamTree};
use ep_types::Typed;

/// The number of nodes of the ground form, or None where it is above the most. It takes no memory.
pub fn count_nodes(universe: &Universe, tree: &FormulaTree) -> Option<u32>
    ensures value { MatchOption result (MOST_GROUND_NODES < ground_count universe.now.names tree.now) (λ nodes. nodes ≡ ground_count universe.now.names tree.now) }
    ensures small { IfSome result (λ nodes. nodes ≤ MOST_GROUND_NODES) }
{
    let nodes = count_all(universe, tree);
    if nodes > MOST_GROUND_NODES {
        None
    } else {
        Some(nodes as u32)
    }
}

/// The nodes of the ground form, up to one more than the most.
fn count_all(universe: &Universe, tree: &FormulaTree) -> u64
    ensures { result ≡ capped (ground_count universe.now.names tree.now) }
{
    count(universe.typed(), tree)
}

/// The nodes of the ground form, up to one more than the most. A quantifier over no binding counts 1 however large its
/// formula is, so no count stops early.
#[cycle(count)]
#[tactic(auto, using(crate::proofs::CapLemmas::count_steps))]
fn count(typed: &Typed, tree: &FormulaTree) -> u64
    ensures { result ≡ capped (ground_count (declarations typed.now) tree.now) }
{
    match tree {
        FormulaTree::True { .. } => 1,
        FormulaTree::False { .. } => 1,
        FormulaTree::Atom { .. } => 1,
        FormulaTree::Not { inner, .. } => cap(count(typed, inner.get()) + 1),
        FormulaTree::Knows { inner, .. } => cap(count(typed, inner.get()) + 1),
        FormulaTree::Common { inner, .. } => cap(count(typed, inner.get()) + 1),
        FormulaTree::Forall { params, inner, .. } => repeat(
            count_bindings(typed, params.as_slice()),
            count(typed, inner.get()),
        ),
        FormulaTree::Exists { params, inner, .. } => repeat(
            count_bindings(typed, params.as_slice()),
            count(typed, inner.get()),
        ),
        FormulaTree::Equal { .. } => 1,
        FormulaTree::Paren { inner, .. } => count(typed, inner.get()),
        FormulaTree::And { parts, .. } => cap(count_parts(typed, parts.as_slice()) + 1),
        FormulaTree::Or { parts, .. } => cap(count_parts(typed, parts.as_slice()) + 1),
    }
}

#[cycle(count)]
#[tactic(auto, using(crate::proofs::CapLemmas::count_steps))]
fn count_parts(typed: &Typed, parts: &[FormulaTree]) -> u64
    ensures { result ≡ capped (sum (map (ground_count (declarations typed.now)) parts.now)) }
{
    let mut nodes = 0;
    for part in parts {
        nodes = cap(nodes + count(typed, part));
    }
    nodes
}

fn cap(n: u64) -> u64
    ensures { result ≡ capped n }
{
    if n > MOST_GROUND_NODES {
        MOST_GROUND_NODES + 1
    } else {
        n
    }
}

/// The nodes of so many instances as one formula.
fn repeat(times: u64, nodes: u64) -> u64
    requires times { times ≤ MOST_GROUND_NODES + 1 }
    requires nodes { nodes ≤ MOST_GROUND_NODES + 1 }
    ensures { result ≡ capped (repeated times nodes) }
{
    match times {
        0 => 1,
        1 => nodes,
        _ => cap(times * nodes + 1),
    }
}

/// The number of objects whose type is this one or below it.
fn count_objects(typed: &Typed, kind: &[u8]) -> usize
    ensures { result ≡ length (objects_of (declarations typed.now) kind.now) }
{
    let mut count = 0;
    for number in 0..typed.object_count() {
        if typed.is_below(typed.object_type(number), kind) {
            count += 1;
        }
    }
    count
}

/// The number of all bindings of parameters.
#[tactic(auto, using(crate::proofs::CapLemmas::cap_steps))]
fn count_bindings(typed: &Typed, params: &[ParamTree]) -> u64
    ensures { result ≡ capped (binding_count (candidates (declarations typed.now) params.now)) }
{
    let mut count = 1;
    for param in params {
        let objects = count_objects(typed, param.kind.text.as_slice());
        count = cap(count * cap(objects as u64));
    }
    count
}

/// The first token of a formula.
pub fn first_token(tree: &FormulaTree) -> u32
    ensures { result ≡ first_token tree.now }
{
    match tree {
        FormulaTree::True { token } => *token,
        FormulaTree::False { token } => *token,
        FormulaTree::Atom { atom } => atom.name.token,
        FormulaTree::Not { token, .. } => *token,
        FormulaTree::Knows { token, .. } => *token,
        FormulaTree::Common { token, .. } => *token,
        FormulaTree::Forall { token, .. } => *token,
        FormulaTree::Exists { token, .. } => *token,
        FormulaTree::Equal { token, .. } => *token,
        FormulaTree::Paren { token, .. } => *token,
        FormulaTree::And { token, .. } => *token,
        FormulaTree::Or { token, .. } => *token,
    }
}
