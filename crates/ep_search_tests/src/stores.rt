//! The store.

use crate::states::{Shape, state};
use ep_canon::{Canon, contract};
use ep_logic::{ActionId, OutOfMemory, StateId};
use ep_store::{Added, Step, Store, StoreError};
use std::alloc::Global;
use std::process::Abort;
use std::test::Fail;

// One agent and no atoms, and worlds in a row.
const ONE: Shape = Shape {
    agents: 1,
    atoms: 0,
    worlds: &[&[]],
    links: &[],
};

const TWO: Shape = Shape {
    worlds: &[&[], &[]],
    links: &[(0, 0, 1)],
    ..ONE
};

const THREE: Shape = Shape {
    worlds: &[&[], &[], &[]],
    links: &[(0, 0, 1), (0, 1, 2)],
    ..ONE
};

const FOUR: Shape = Shape {
    worlds: &[&[], &[], &[], &[]],
    links: &[(0, 0, 1), (0, 1, 2), (0, 2, 3)],
    ..ONE
};

const FIVE: Shape = Shape {
    worlds: &[&[], &[], &[], &[], &[]],
    links: &[(0, 0, 1), (0, 1, 2), (0, 2, 3), (0, 3, 4)],
    ..ONE
};

fn canon(rt: &impl Abort, alloc: Global, shape: &Shape) -> Result<Canon, Fail> {
    let s = state(rt, alloc, shape)?;
    assert!(rt; s.worlds() <= 4096);
    Ok(contract(alloc, &s)?)
}

fn add_first(rt: &impl Abort, store: &mut Store, canon: Canon) -> Result<Added, StoreError> {
    assert!(rt; store.len() == 0);
    store.add(canon, 0, None)
}

// Adds what a step leads to.
fn add_by(
    rt: &impl Abort,
    store: &mut Store,
    canon: Canon,
    weight: u32,
    step: Step,
) -> Result<Added, StoreError> {
    assert!(rt; step.parent.n < store.len());
    assert!(rt; 1 <= step.toll && step.toll <= weight);
    assert!(rt; store.weight(step.parent) <= weight - step.toll);
    store.add(canon, weight, Some(step))
}

// The first state comes from no entry, each other one by its parent, action and toll.
fn add(
    rt: &impl Abort,
    store: &mut Store,
    canon: Canon,
    weight: u32,
    from: Option<(u32, u32, u32)>,
) -> Result<Added, StoreError> {
    match from {
        None => add_first(rt, store, canon),
        Some((parent, action, toll)) => {
            let step = Step {
                parent: StateId { n: parent },
                action: ActionId { n: action },
                toll,
            };
            add_by(rt, store, canon, weight, step)
        }
    }
}

// What became of a state, with the number of its entry, or of its worlds where it came back.
fn told(answer: &Result<Added, StoreError>) -> (&'static str, u32) {
    match answer {
        Ok(Added::New(id)) => ("new", id.n),
        Ok(Added::Better(id)) => ("better", id.n),
        Ok(Added::Known(id)) => ("known", id.n),
        Err(StoreError::Full(canon)) => ("full", canon.state().worlds()),
        Err(StoreError::OutOfMemory(_canon)) => ("out of memory", 0),
    }
}

// A state, its weight, the entry, the action and the toll that it comes by, and what becomes of it.
type Row = (
    &'static Shape,
    u32,
    Option<(u32, u32, u32)>,
    &'static str,
    u32,
);

fn check_told(rt: &impl Abort, answer: &Result<Added, StoreError>, wanted: &str, number: u32) {
    let (found, found_number) = told(answer);
    assert_eq!(rt; found, wanted);
    assert_eq!(rt; found_number, number, "{wanted}");
}

fn check_row(rt: &impl Abort, alloc: Global, store: &mut Store, row: &Row) -> Result<(), Fail> {
    let (shape, weight, from, wanted, number) = row;
    let canon = canon(rt, alloc, shape)?;
    let answer = add(rt, store, canon, *weight, *from);
    check_told(rt, &answer, wanted, *number);
    Ok(())
}

fn check(rt: &impl Abort, alloc: Global, store: &mut Store, rows: &[Row]) -> Result<(), Fail> {
    for row in rows {
        check_row(rt, alloc, store, row)?;
    }
    Ok(())
}

// The actions of the steps to an entry, with their tolls.
fn check_path(
    rt: &impl Abort,
    store: &Store,
    id: u32,
    wanted: &[(u32, u32)],
) -> Result<(), OutOfMemory> {
    assert!(rt; id < store.len());
    let path = store.path(StateId { n: id })?;
    assert!(rt;
        path.as_slice()
            .iter()
            .map(|step| (step.action.n, step.toll))
            .eq(wanted.iter().copied())
    );
    Ok(())
}

static TWO_STATES: [Row; 3] = [
    (&TWO, 0, None, "new", 0),
    (&TWO, 1, Some((0, 7, 1)), "known", 0),
    (&THREE, 1, Some((0, 7, 1)), "full", 3),
];

#[test]
fn a_store_of_one_state_hands_others_back(rt: HostRuntime) -> Result<(), Fail> {
    let mut store = Store::new(rt.alloc(), 1);
    check(&rt, rt.alloc(), &mut store, &TWO_STATES)?;
    assert_eq!(rt; store.len(), 1);
    Ok(())
}

static ONE_WAY: [Row; 5] = [
    (&ONE, 0, None, "new", 0),
    (&TWO, 1, Some((0, 1, 1)), "new", 1),
    (&THREE, 2, Some((1, 2, 1)), "new", 2),
    (&FOUR, 9, Some((2, 3, 7)), "new", 3),
    (&FIVE, 12, Some((3, 4, 3)), "new", 4),
];

// A state of weight 9 comes at the same weight, and then at weight 6, while another is behind it.
static LIGHTER_WAY: [Row; 2] = [
    (&FOUR, 9, Some((1, 8, 8)), "known", 3),
    (&FOUR, 6, Some((1, 9, 5)), "better", 3),
];

fn check_lighter(rt: &impl Abort, store: &Store) {
    let id = StateId { n: 3 };
    assert!(rt; store.len() == 5);
    assert_eq!(rt; store.weight(id), 6);
    assert_eq!(rt; store.get(id).state().worlds(), 4);
}

// The state behind keeps its weight of 12, while its path adds up to 9.
#[test]
fn a_lighter_path_takes_the_place_of_a_heavier(rt: HostRuntime) -> Result<(), Fail> {
    let mut store = Store::new(rt.alloc(), 10);
    check(&rt, rt.alloc(), &mut store, &ONE_WAY)?;
    check_path(&rt, &store, 4, &[(1, 1), (2, 1), (3, 7), (4, 3)])?;
    check(&rt, rt.alloc(), &mut store, &LIGHTER_WAY)?;
    check_path(&rt, &store, 4, &[(1, 1), (9, 5), (4, 3)])?;
    check_lighter(&rt, &store);
    Ok(())
}
