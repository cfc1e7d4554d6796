// The bindings that give each object to one parameter at most.

ghost use Rattle.std.specs.Prelude.{◌≡◌, ◌++◌, IfOk, OnOk};
ghost use Rattle.std.specs.List.{flat_map};
ghost use Rattle.ep_binding.specs.Bindings.{distinct_bindings, with_first_apart, contains};

use crate::listing::binding;
use ep_base::{List, OutOfMemory};
use std::alloc::Global;

/// All bindings that give each object to one parameter at most, in lexicographic order. Where there are none the lists
/// on the way may still be long: `distinct_count` tells the number without them.
#[tactic(auto, using(crate::proofs::DistinctLemmas::distinct_steps))]
pub fn distinct_bindings(
    alloc: Global,
    params: &[List<u32>],
) -> Result<List<List<u32>>, OutOfMemory>
    ensures { IfOk result (λ bs. bs ≡ distinct_bindings params.now) }
{
    let mut all = List::new(alloc);
    all.push(List::new(alloc))?;
    for at in (0..params.len()).rev() {
        all = extend_apart(alloc, params[at].as_slice(), all.as_slice())?;
    }
    Ok(all)
}

// Each object before each binding that lacks it.
#[tactic(auto, using(crate::proofs::DistinctLemmas::distinct_steps))]
fn extend_apart(
    alloc: Global,
    objects: &[u32],
    rests: &[List<u32>],
) -> Result<List<List<u32>>, OutOfMemory>
    ensures { IfOk result (λ bs. bs ≡ flat_map (with_first_apart rests.now) objects.now) }
{
    let mut all = List::new(alloc);
    for object in objects {
        push_apart(alloc, &mut all, *object, rests)?;
    }
    Ok(all)
}

#[tactic(auto, using(crate::proofs::DistinctLemmas::distinct_steps))]
fn push_apart(
    alloc: Global,
    all: &mut List<List<u32>>,
    object: u32,
    rests: &[List<u32>],
) -> Result<(), OutOfMemory>
    ensures { OnOk result (all.new ≡ all.old ++ with_first_apart rests.now object) }
{
    for rest in rests {
        if !contains(rest.as_slice(), object) {
            all.push(binding(alloc, object, rest.as_slice())?)?;
        }
    }
    Ok(())
}

pub(crate) fn contains(objects: &[u32], object: u32) -> bool
    ensures { result ≡ contains objects.now object }
{
    objects.iter().any(|o| *o == object)
}
