ghost use Rattle.std.specs.Prelude.{◌≡◌, ℕ, ◌<◌, true, false, IfOk, IsTrue, ◌↔◌, length, drop, slice_index_or};
ghost use Rattle.std.specs.List.{list_all};
ghost use Rattle.ep_logic.specs.AgentSets.{is_nobody};
ghost use Rattle.ep_theory.specs.Rising.{IsIn};
ghost use Rattle.ep_logic.specs.Numbers.{table};
ghost use Rattle.ep_theory.specs.Truth.{Truth};
ghost use Rattle.ep_theory.specs.Tested.{is_true};
ghost use Rattle.ep_theory.specs.Fits.{Fits, fits_in};
ghost use Rattle.ep_truth.specs.Labels.{IsLabel, all_test, any_test, atom_test, knows_test, HasValues};

use crate::common::label_common;
use ep_kripke::State;
use ep_logic::{AgentId, AtomId, Bits, Formula, List, Node, OutOfMemory, WorldId};
use std::alloc::Global;

/// The truth at each world. It goes over the formula once; a node costs the worlds, and one that speaks of agents their
/// links besides.
pub fn label(alloc: Global, s: &State, f: &Formula) -> Result<Bits, OutOfMemory>
    requires { Fits s.now f.now }
    ensures long { IfOk result (λ row. length row ≡ s.now.worlds) }
    ensures truth { IfOk result (λ row. (w : ℕ) → w < s.now.worlds →
        IsTrue (slice_index_or row w false) ↔ Truth s.now w f.now) }
    ensures tested { IfOk result (λ row. row ≡ table (λ w. is_true s.now w f.now) s.now.worlds) }
{
    let row = label_node(alloc, s, f.node())?;
    let worlds = s.worlds();
    prove!(row.len() == worlds);
    Ok(row)
}

#[cycle(label)]
#[tactic(auto, using(crate::proofs::FitLemmas::fit_laws))]
fn label_node(alloc: Global, s: &State, node: &Node) -> Result<Bits, OutOfMemory>
    requires { Fits s.now node.now }
    ensures { IfOk result (IsLabel s.now node.now) }
{
    let worlds = s.worlds();
    match node {
        Node::True => Bits::ones(alloc, worlds),
        Node::False => Bits::zeros(alloc, worlds),
        Node::Atom(p) => label_atom(alloc, s, *p),
        Node::Not(inner) => {
            let mut row = label_node(alloc, s, inner.get())?;
            row.flip();
            Ok(row)
        }
        Node::And(parts) => label_and(alloc, s, parts),
        Node::Or(parts) => label_or(alloc, s, parts),
        Node::Knows(a, inner) => {
            let row = label_node(alloc, s, inner.get())?;
            label_knows(alloc, s, *a, &row)
        }
        Node::Common(group, inner) => {
            let row = label_node(alloc, s, inner.get())?;
            label_common(alloc, s, group, &row)
        }
    }
}

#[cycle(label)]
fn label_and(alloc: Global, s: &State, parts: &List<Node>) -> Result<Bits, OutOfMemory>
    requires { list_all (fits_in s.now.agents s.now.atoms) parts.now ≡ true }
    ensures { IfOk result (HasValues s.now.worlds (all_test s.now parts.now)) }
{
    let parts = parts.as_slice();
    if parts.is_empty() {
        return Bits::ones(alloc, s.worlds());
    }
    let mut row = label_node(alloc, s, &parts[0])?;
    for i in 1..parts.len() {
        let next = label_node(alloc, s, &parts[i])?;
        row.and_with(&next);
    }
    Ok(row)
}

#[cycle(label)]
fn label_or(alloc: Global, s: &State, parts: &List<Node>) -> Result<Bits, OutOfMemory>
    requires { list_all (fits_in s.now.agents s.now.atoms) parts.now ≡ true }
    ensures { IfOk result (HasValues s.now.worlds (any_test s.now parts.now)) }
{
    let parts = parts.as_slice();
    if parts.is_empty() {
        return Bits::zeros(alloc, s.worlds());
    }
    let mut row = label_node(alloc, s, &parts[0])?;
    for i in 1..parts.len() {
        let next = label_node(alloc, s, &parts[i])?;
        row.or_with(&next);
    }
    Ok(row)
}

/// The truth of an atom at each world.
pub fn label_atom(alloc: Global, s: &State, p: AtomId) -> Result<Bits, OutOfMemory>
    requires { p.n < s.now.atoms }
    ensures { IfOk result (λ row. row ≡ table (atom_test s.now p.n) s.now.worlds) }
{
    let mut row = Bits::zeros(alloc, s.worlds())?;
    for w in 0..s.worlds() {
        row.set(w, s.holds_atom(WorldId { n: w }, p));
    }
    Ok(row)
}

/// At each world, whether the row is true wherever the agent's links lead. Each distinct row of links is looked at once.
pub fn label_knows(alloc: Global, s: &State, a: AgentId, inner: &Bits) -> Result<Bits, OutOfMemory>
    requires agent { a.n < s.now.agents }
    requires long { length inner.now ≡ s.now.worlds }
    ensures { IfOk result (λ row. row ≡ table (knows_test s.now a.n inner.now) s.now.worlds) }
{
    s.relation(a).all_within(alloc, inner)
}
