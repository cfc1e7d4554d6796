//! All lists of truth values of one length.

ghost use Rattle.std.specs.Prelude.{◌≡◌, ◌∷◌, ◌++◌, IfOk, OnOk, map, true, false};
ghost use Rattle.ep_initial.specs.Valuations.{valuations};

use ep_logic::{List, OutOfMemory};
use std::alloc::{AllocError, Global};

/// All lists of so many truth values in lexicographic order, false before true.
pub(crate) fn valuations(alloc: Global, count: usize) -> Result<List<List<bool>>, OutOfMemory>
    ensures { IfOk result (λ all. all ≡ valuations count) }
{
    let mut all = List::new(alloc);
    all.push(List::new(alloc))?;
    for _done in 0..count {
        all = double_lists(alloc, all.as_slice())?;
    }
    Ok(all)
}

/// Each value before each list.
fn double_lists(alloc: Global, rests: &[List<bool>]) -> Result<List<List<bool>>, OutOfMemory>
    ensures { IfOk result (λ all. all ≡ map (λ v. false ∷ v) rests.now ++ map (λ v. true ∷ v) rests.now) }
{
    let mut all = List::new(alloc);
    push_with_first(alloc, &mut all, false, rests)?;
    push_with_first(alloc, &mut all, true, rests)?;
    Ok(all)
}

/// Adds the lists with a value before each.
fn push_with_first(
    alloc: Global,
    all: &mut List<List<bool>>,
    value: bool,
    rests: &[List<bool>],
) -> Result<(), OutOfMemory>
    ensures { OnOk result (all.new ≡ all.old ++ map (λ v. value ∷ v) rests.now) }
{
    for rest in rests {
        all.push(with_first(alloc, value, rest.as_slice())?)?;
    }
    Ok(())
}

fn with_first(alloc: Global, value: bool, rest: &[bool]) -> Result<List<bool>, OutOfMemory>
    ensures { IfOk result (λ list. list ≡ value ∷ rest.now) }
{
    let mut values = Vec::with_capacity(alloc, rest.len() + 1)?;
    values.push(value).map_err(AllocError::from)?;
    values.extend_from_slice(rest)?;
    Ok(List::from_vec(values))
}
