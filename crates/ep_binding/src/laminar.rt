//! Families of sets of which any two are disjoint, or one lies in the other.

ghost use Rattle.std.specs.Prelude.{◌≡◌, ◌↔◌, IsTrue};
ghost use Rattle.std.specs.List.{list_all};
ghost use Rattle.ep_binding.specs.Laminar.{IsLaminar, is_disjoint, is_laminar, is_nested, lies_in};

use crate::distinct::contains;
use ep_base::List;

/// Whether any two of the sets are disjoint, or one lies in the other. It takes no memory.
pub fn is_laminar(sets: &[List<u32>]) -> bool
    ensures { IsTrue result ↔ IsLaminar sets.now }
{
    are_nested(sets)
}

fn are_nested(sets: &[List<u32>]) -> bool
    ensures { result ≡ is_laminar sets.now }
{
    match sets {
        [] => true,
        [first, rest @ ..] => is_nested_with_all(first.as_slice(), rest) && are_nested(rest),
    }
}

fn is_nested_with_all(first: &[u32], rest: &[List<u32>]) -> bool
    ensures { result ≡ list_all (is_nested first.now) rest.now }
{
    rest.iter().all(|other| is_nested(first, other.as_slice()))
}

fn is_nested(first: &[u32], second: &[u32]) -> bool
    ensures { result ≡ is_nested first.now second.now }
{
    is_disjoint(first, second) || lies_in(first, second) || lies_in(second, first)
}

fn is_disjoint(first: &[u32], second: &[u32]) -> bool
    ensures { result ≡ is_disjoint first.now second.now }
{
    first.iter().all(|object| !contains(second, *object))
}

fn lies_in(first: &[u32], second: &[u32]) -> bool
    ensures { result ≡ lies_in first.now second.now }
{
    first.iter().all(|object| contains(second, *object))
}
