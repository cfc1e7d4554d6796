//! The truth of all atoms under each valuation of the varied ones.

ghost use Rattle.std.specs.Prelude.{◌≡◌, ◌<◌, ◌==◌, IfOk, IfSome, length, position};
ghost use Rattle.ep_universe.specs.Atoms.{atoms_of};
ghost use Rattle.ep_initial.specs.Valuations.{valued_rows, filled, filled_rows, numbers_of, value_of};

use crate::numbers::numbers_of;
use crate::valuations::valuations;
use ep_logic::{Bits, List, OutOfMemory};
use ep_tree::AtomTree;
use ep_universe::Universe;
use std::alloc::Global;

/// The truth of all atoms under each valuation: 2 to the number of varied atoms many rows.
pub(crate) fn possible_rows(
    alloc: Global,
    universe: &Universe,
    varied: &[u32],
    facts: &[AtomTree],
) -> Result<List<Bits>, OutOfMemory>
    ensures { IfOk result (λ rows. rows ≡ valued_rows (length (atoms_of universe.now.names)) varied.now (numbers_of universe.now.names facts.now)) }
{
    let numbers = numbers_of(alloc, universe, facts)?;
    let atoms = universe.atoms();
    let facts = Bits::from_places(alloc, atoms, numbers.as_slice())?;
    fill_rows(alloc, varied, &facts)
}

/// The rows, where `facts` is true at the facts.
fn fill_rows(alloc: Global, varied: &[u32], facts: &Bits) -> Result<List<Bits>, OutOfMemory>
    ensures { IfOk result (λ rows. rows ≡ filled_rows varied.now facts.now) }
{
    let valuations = valuations(alloc, varied.len())?;
    let mut rows = List::new(alloc);
    for valuation in valuations.as_slice() {
        rows.push(row(alloc, varied, facts, valuation.as_slice())?)?;
    }
    Ok(rows)
}

/// The truth of each atom under a valuation.
fn row(alloc: Global, varied: &[u32], facts: &Bits, valuation: &[bool]) -> Result<Bits, OutOfMemory>
    requires { length valuation.now ≡ length varied.now }
    ensures { IfOk result (λ row. row ≡ filled varied.now facts.now valuation.now) }
{
    let mut row = Bits::zeros(alloc, facts.len())?;
    for atom in 0..facts.len() {
        row.set(atom, value_of(varied, valuation, atom, facts.get(atom)));
    }
    Ok(row)
}

/// The place of an atom among the varied ones.
fn place_of(varied: &[u32], atom: u32) -> Option<usize>
    ensures place { result ≡ position (λ n. n == atom) varied.now }
    ensures small { IfSome result (λ place. place < length varied.now) }
{
    varied.iter().position(|n| *n == atom)
}

/// The value of a varied atom, and what is said otherwise of any other.
fn value_of(varied: &[u32], valuation: &[bool], atom: u32, otherwise: bool) -> bool
    requires { length valuation.now ≡ length varied.now }
    ensures { result ≡ value_of varied.now valuation.now atom otherwise }
{
    match place_of(varied, atom) {
        Some(place) => valuation[place],
        None => otherwise,
    }
}
