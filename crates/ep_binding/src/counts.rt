// Exact numbers of bindings, without a list of them.

ghost use Rattle.std.specs.Prelude.{◌≡◌, ◌+◌, ◌<◌, ◌≤◌, ◌^◌, [], All, count_by, drop, length, slice_index_or, take};
ghost use Rattle.ep_binding.specs.Bindings.{bindings, binding_count, distinct_bindings, IsObjects};
ghost use Rattle.ep_binding.specs.Counts.{meets, objects_left, takes_before, takes_behind};
ghost use Rattle.ep_binding.specs.Laminar.{IsLaminar};
ghost use Rattle.ep_binding.specs.declared.limits.TheConstants.{MOST_OBJECTS, MOST_PARAMETERS};

use crate::distinct::contains;
use ep_base::List;

/// The number of bindings of parameters with objects each. It takes no memory.
pub fn binding_count(params: &[List<u32>]) -> u64
    requires few { length params.now ≤ MOST_PARAMETERS }
    requires objects { All (λ c. length c ≤ MOST_OBJECTS) params.now }
    ensures exact { result ≡ length (bindings params.now) }
    ensures product { result ≡ binding_count params.now }
    ensures most { result ≤ 2 ^ 36 }
{
    let mut count = 1;
    for objects in params {
        count *= objects.as_slice().len() as u64;
    }
    count
}

/// The number of bindings that give each object to one parameter at most, where any two sets of objects are disjoint or
/// one lies in the other. It takes no memory: the parameters choose from the smallest set up, and each has the objects
/// of its set but those that are taken, one by each that chose before it and has a set within its own.
pub fn distinct_count(params: &[List<u32>]) -> u64
    requires few { length params.now ≤ MOST_PARAMETERS }
    requires objects { All IsObjects params.now }
    requires laminar { IsLaminar params.now }
    ensures exact { result ≡ length (distinct_bindings params.now) }
    ensures most { result ≤ 2 ^ 36 }
{
    let mut count = 1;
    for place in 0..params.len() {
        count *= count_left(params, place);
    }
    count
}

/// The objects that are left for the parameter at a place. One whose set is smaller, or as small and that stands before
/// it, chooses first.
fn count_left(params: &[List<u32>], place: usize) -> u64
    requires { place < length params.now }
    ensures { result ≡ objects_left (take place params.now) (slice_index_or params.now place []) (drop (place + 1) params.now) }
{
    let objects = params[place].as_slice();
    let before = count_before(&params[..place], objects);
    let behind = count_behind(&params[place + 1..], objects);
    objects.len().saturating_sub(before + behind) as u64
}

fn count_before(params: &[List<u32>], objects: &[u32]) -> usize
    ensures value { result ≡ count_by (takes_before objects.now) params.now }
    ensures few { result ≤ length params.now }
{
    params
        .iter()
        .filter(|other| {
            other.as_slice().len() <= objects.len() && meets(other.as_slice(), objects)
        })
        .count()
}

fn count_behind(params: &[List<u32>], objects: &[u32]) -> usize
    ensures value { result ≡ count_by (takes_behind objects.now) params.now }
    ensures few { result ≤ length params.now }
{
    params
        .iter()
        .filter(|other| {
            other.as_slice().len() < objects.len() && meets(other.as_slice(), objects)
        })
        .count()
}

/// Whether the first object of one set is in another. Where the sets are disjoint or one lies in the other, this is
/// whether they are not disjoint.
fn meets(first: &[u32], second: &[u32]) -> bool
    ensures { result ≡ meets first.now second.now }
{
    match first {
        [] => false,
        [object, ..] => contains(second, *object),
    }
}
