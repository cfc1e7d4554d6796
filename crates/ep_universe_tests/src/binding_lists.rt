//! Bindings of parameters to objects, and their numbers.

ghost use Rattle.std.specs.Prelude.{◌≤◌, All, IfOk, length};
ghost use Rattle.ep_binding.specs.Bindings.{IsObjects};
ghost use Rattle.ep_binding.specs.declared.limits.TheConstants.{MOST_PARAMETERS};

use ep_base::{List, OutOfMemory};
use ep_binding::{
    binding_count, bindings, distinct_bindings, distinct_count, has_binding, is_laminar,
};
use std::alloc::Global;
use std::process::Abort;
use std::test::Fail;

fn listed(alloc: Global, params: &[&[u32]]) -> Result<List<List<u32>>, OutOfMemory> {
    let mut lists = List::new(alloc);
    for objects in params {
        lists.push(List::from_vec(Vec::from_slice(alloc, objects)?))?;
    }
    Ok(lists)
}

fn check_bindings(rt: &impl Abort, found: &List<List<u32>>, wanted: &[&[u32]]) {
    let found = found.as_slice();
    assert_eq!(rt; found.len(), wanted.len());
    for (binding, want) in found.iter().zip(wanted) {
        assert_eq!(rt; binding.as_slice(), *want);
    }
}

// Parameters with their objects, all bindings, and the distinct ones.
type Row = (
    &'static [&'static [u32]],
    &'static [&'static [u32]],
    &'static [&'static [u32]],
);

const ROWS: [Row; 8] = [
    (&[], &[&[]], &[&[]]),
    (&[&[]], &[], &[]),
    (&[&[4, 7]], &[&[4], &[7]], &[&[4], &[7]]),
    (&[&[], &[1, 2]], &[], &[]),
    (&[&[1], &[1]], &[&[1, 1]], &[]),
    (
        &[&[0, 1], &[0, 1, 2]],
        &[&[0, 0], &[0, 1], &[0, 2], &[1, 0], &[1, 1], &[1, 2]],
        &[&[0, 1], &[0, 2], &[1, 0], &[1, 2]],
    ),
    (
        &[&[5, 3], &[3, 5]],
        &[&[5, 3], &[5, 5], &[3, 3], &[3, 5]],
        &[&[5, 3], &[3, 5]],
    ),
    (
        &[&[0, 1], &[2], &[0, 1]],
        &[&[0, 2, 0], &[0, 2, 1], &[1, 2, 0], &[1, 2, 1]],
        &[&[0, 2, 1], &[1, 2, 0]],
    ),
];

#[test]
fn bindings_in_order(rt: HostRuntime) -> Result<(), Fail> {
    let alloc = rt.alloc();
    for (params, all, distinct) in ROWS {
        let params = listed(alloc, params)?;
        assert_eq!(rt; has_binding(params.as_slice()), !all.is_empty());
        check_bindings(&rt, &bindings(alloc, params.as_slice())?, all);
        check_bindings(&rt, &distinct_bindings(alloc, params.as_slice())?, distinct);
    }
    Ok(())
}

// So many objects from one on.
fn objects(alloc: Global, first: u32, count: u32) -> Result<List<u32>, OutOfMemory>
    requires first { first ≤ 64 }
    requires count { count ≤ 64 }
    ensures { IfOk result IsObjects }
{
    let mut objects = List::new(alloc);
    for place in 0..count {
        objects.push(first + place)?;
    }
    Ok(objects)
}

fn parameters(
    rt: &impl Abort,
    alloc: Global,
    sets: &[(u32, u32)],
) -> Result<List<List<u32>>, OutOfMemory>
    ensures { IfOk result (All IsObjects) }
{
    let mut params = List::new(alloc);
    for (first, count) in sets {
        assert!(rt; *first <= 64 && *count <= 64);
        params.push(objects(alloc, *first, *count)?)?;
    }
    Ok(params)
}

// Numbers of objects behind the first of each set, of all bindings, and of the distinct ones: as 3 * (4 - 1) * (5 - 2)
// where the sets lie one in another, and 3 * 4 * (20 - 2) where two of them lie apart in a third.
const COUNTS: [(&'static [(u32, u32)], u64, u64); 13] = [
    (&[], 1, 1),
    (&[(0, 0)], 0, 0),
    (&[(0, 64)], 64, 64),
    (&[(0, 32), (0, 32)], 1_024, 992),
    (&[(0, 2), (0, 2), (0, 2)], 8, 0),
    (&[(0, 3), (0, 5), (0, 4)], 60, 27),
    (&[(0, 64), (0, 64), (0, 64), (0, 64), (0, 64), (0, 0)], 0, 0),
    (
        &[(0, 64), (0, 64), (0, 64), (0, 64), (0, 64), (0, 64)],
        68_719_476_736,
        53_981_544_960,
    ),
    (&[(0, 6), (0, 5), (0, 4), (0, 3), (0, 2), (0, 1)], 720, 1),
    (&[(0, 3), (10, 4), (0, 20)], 240, 216),
    (&[(0, 2), (2, 2), (0, 4), (8, 1)], 16, 8),
    (&[(0, 2), (2, 2), (0, 4), (8, 1), (8, 1)], 16, 0),
    (&[(4, 2), (0, 8), (4, 2)], 32, 12),
];

// The number of distinct bindings, where the sets are laminar.
fn count_distinct(params: &[List<u32>]) -> Option<u64>
    requires few { length params.now ≤ MOST_PARAMETERS }
    requires objects { All IsObjects params.now }
{
    if is_laminar(params) {
        Some(distinct_count(params))
    } else {
        None
    }
}

#[test]
fn exact_numbers_of_bindings(rt: HostRuntime) -> Result<(), Fail> {
    let alloc = rt.alloc();
    for (sets, all, distinct) in COUNTS {
        let params = parameters(&rt, alloc, sets)?;
        assert!(rt; params.as_slice().len() <= 6);
        assert_eq!(rt; binding_count(params.as_slice()), all);
        assert_eq!(rt; count_distinct(params.as_slice()), Some(distinct));
    }
    assert!(rt; !is_laminar(parameters(&rt, alloc, &[(0, 2), (4, 1), (1, 2)])?.as_slice()));
    Ok(())
}
