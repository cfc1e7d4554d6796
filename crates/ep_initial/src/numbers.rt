//! Atoms by their numbers.

ghost use Rattle.std.specs.Prelude.{◌≡◌, ◌++◌, [], ◌∷◌, IfOk, OnOk, if◌then◌else◌};
ghost use Rattle.ep_logic.specs.Numbers.{has_number};
ghost use Rattle.ep_initial.specs.Valuations.{distinct, numbers_of};

use ep_logic::{List, OutOfMemory};
use ep_tree::AtomTree;
use ep_universe::Universe;
use std::alloc::Global;

/// The numbers of atoms as they are written.
pub(crate) fn numbers_of(
    alloc: Global,
    universe: &Universe,
    atoms: &[AtomTree],
) -> Result<List<u32>, OutOfMemory>
    ensures { IfOk result (λ numbers. numbers ≡ numbers_of universe.now.names atoms.now) }
{
    let mut numbers = List::new(alloc);
    for atom in atoms {
        numbers.push(universe.atom_at(alloc, &[], atom)?.n)?;
    }
    Ok(numbers)
}

fn has_number(numbers: &[u32], number: u32) -> bool
    ensures { result ≡ has_number numbers.now number }
{
    numbers.iter().any(|n| *n == number)
}

/// Adds a number that is not there.
fn push_new(numbers: &mut List<u32>, number: u32) -> Result<(), OutOfMemory>
    ensures { OnOk result (numbers.new ≡ (if has_number numbers.old number then numbers.old else numbers.old ++ number ∷ [])) }
{
    if !has_number(numbers.as_slice(), number) {
        numbers.push(number)?;
    }
    Ok(())
}

/// The numbers, each once, in the order in which they first stand there.
#[tactic(auto, using(crate::proofs::DistinctLemmas::distinct_steps))]
pub(crate) fn keep_distinct(alloc: Global, numbers: &[u32]) -> Result<List<u32>, OutOfMemory>
    ensures { IfOk result (λ firsts. firsts ≡ distinct numbers.now) }
{
    let mut firsts = List::new(alloc);
    for number in numbers {
        push_new(&mut firsts, *number)?;
    }
    Ok(firsts)
}
