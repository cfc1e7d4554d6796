// All bindings, in lexicographic order.

ghost use Rattle.std.specs.Prelude.{◌≡◌, ◌<◌, [], ◌∷◌, ◌++◌, ◌↔◌, All, length, IsTrue, IfOk, OnOk};
ghost use Rattle.std.specs.List.{flat_map};
ghost use Rattle.ep_binding.specs.Bindings.{bindings, with_first};

use ep_base::{List, OutOfMemory};
use std::alloc::{AllocError, Global};

/// Whether there is a binding: each parameter has an object. It takes no memory.
pub fn has_binding(params: &[List<u32>]) -> bool
    ensures each { IsTrue result ↔ All (λ c. 0 < length c) params.now }
    ensures some { IsTrue result ↔ (0 < length (bindings params.now)) }
{
    params.iter().all(|objects| !objects.as_slice().is_empty())
}

/// All bindings, in lexicographic order: the last parameter is the fastest. The lists on the way are no longer than
/// the answer.
#[tactic(auto, using(crate::proofs::ListingLemmas::listing_steps))]
pub fn bindings(alloc: Global, params: &[List<u32>]) -> Result<List<List<u32>>, OutOfMemory>
    ensures { IfOk result (λ bs. bs ≡ bindings params.now) }
{
    let mut all = List::new(alloc);
    if !has_binding(params) {
        return Ok(all);
    }
    all.push(List::new(alloc))?;
    for at in (0..params.len()).rev() {
        all = extend_bindings(alloc, params[at].as_slice(), all.as_slice())?;
    }
    Ok(all)
}

// Each object before each binding.
#[tactic(auto, using(crate::proofs::ListingLemmas::listing_steps))]
fn extend_bindings(
    alloc: Global,
    objects: &[u32],
    rests: &[List<u32>],
) -> Result<List<List<u32>>, OutOfMemory>
    ensures { IfOk result (λ bs. bs ≡ flat_map (with_first rests.now) objects.now) }
{
    let mut all = List::new(alloc);
    for object in objects {
        push_with_first(alloc, &mut all, *object, rests)?;
    }
    Ok(all)
}

#[tactic(auto, using(crate::proofs::ListingLemmas::listing_steps))]
fn push_with_first(
    alloc: Global,
    all: &mut List<List<u32>>,
    object: u32,
    rests: &[List<u32>],
) -> Result<(), OutOfMemory>
    ensures { OnOk result (all.new ≡ all.old ++ with_first rests.now object) }
{
    for rest in rests {
        all.push(binding(alloc, object, rest.as_slice())?)?;
    }
    Ok(())
}

/// The binding of an object before those of a binding.
pub(crate) fn binding(alloc: Global, object: u32, rest: &[u32]) -> Result<List<u32>, OutOfMemory>
    ensures { IfOk result (λ b. b ≡ object ∷ rest.now) }
{
    let mut objects = Vec::with_capacity(alloc, rest.len() + 1)?;
    objects.push(object).map_err(AllocError::from)?;
    objects.extend_from_slice(rest)?;
    Ok(List::from_vec(objects))
}
