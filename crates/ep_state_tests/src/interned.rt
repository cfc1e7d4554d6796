// Rows in a table, and the keys of states.

use crate::made::{Given, state};
use ep_kripke::{InternedState, Row, RowTable, State};
use ep_logic::{Bits, List, OutOfMemory};
use std::alloc::{AllocError, Global};
use std::process::Abort;
use std::test::Fail;

// How long a row is, and the places where it is true. The first two have the same words, and so have the last two.
const ROWS: [(u32, &[u32]); 6] = [
    (63, &[]),
    (64, &[]),
    (64, &[63]),
    (65, &[63]),
    (128, &[0, 127]),
    (127, &[0]),
];

fn row_of(alloc: Global, case: usize) -> Result<Row, OutOfMemory> {
    let (len, trues) = ROWS[case % 6];
    Row::from_bits(alloc, &Bits::from_places(alloc, len, trues)?)
}

fn check_row(rt: &impl Abort, row: &Row, case: usize) {
    let (len, trues) = ROWS[case % 6];
    assert_eq!(rt; row.len(), len);
    for i in 0..row.len() {
        assert_eq!(rt; row.get(i), trues.contains(&i), "of {len} at {i}");
    }
}

fn check_numbered(
    rt: &impl Abort,
    alloc: Global,
    table: &mut RowTable,
    case: usize,
) -> Result<(), OutOfMemory> {
    let row = row_of(alloc, case)?;
    assert_eq!(rt; table.find(&row), None);
    assert_eq!(rt; table.number(&row)?, case);
    assert_eq!(rt; table.number(&row_of(alloc, case)?)?, case);
    assert_eq!(rt; table.len(), case + 1);
    for k in 0..case + 1 {
        assert_eq!(rt; table.find(&row_of(alloc, k)?), Some(k));
        assert!(rt; k < table.len());
        check_row(rt, table.row(k), k);
    }
    Ok(())
}

#[test]
fn rows_are_numbered_once(rt: HostRuntime) -> Result<(), Fail> {
    let mut table = RowTable::new(rt.alloc());
    for case in 0..6 {
        check_numbered(&rt, rt.alloc(), &mut table, case)?;
    }
    Ok(())
}

const FIRST: Given<'static> = Given {
    agents: 1,
    atoms: 1,
    worlds: &[&[0], &[]],
    links: &[(0, 0, 1)],
    designated: &[0],
};

// The first, and each of the others differs from it in one thing.
fn six() -> [Given<'static>; 6] {
    let designated = Given {
        designated: &[0, 1],
        ..FIRST
    };
    let link = Given {
        links: &[(0, 1, 0)],
        ..FIRST
    };
    let truth = Given {
        worlds: &[&[], &[0]],
        ..FIRST
    };
    let agents = Given { agents: 2, ..FIRST };
    let atoms = Given { atoms: 2, ..FIRST };
    [FIRST, designated, link, truth, agents, atoms]
}

pub fn interned(
    rt: &impl Abort,
    alloc: Global,
    s: &State,
    table: &mut RowTable,
) -> Result<InternedState, OutOfMemory> {
    assert!(rt; s.worlds() <= 4_096);
    s.intern(alloc, table)
}

fn keys(rt: &impl Abort, alloc: Global, table: &mut RowTable) -> Result<List<List<usize>>, Fail> {
    let mut keys = List::new(alloc);
    for given in six() {
        let s = state(rt, alloc, &given)?;
        keys.push(interned(rt, alloc, &s, table)?.key)?;
    }
    Ok(keys)
}

// The table grows while the first keys are made, and no more then.
#[test]
fn equal_states_have_equal_keys(rt: HostRuntime) -> Result<(), Fail> {
    let mut table = RowTable::new(rt.alloc());
    let first = keys(&rt, rt.alloc(), &mut table)?;
    let rows = table.len();
    let second = keys(&rt, rt.alloc(), &mut table)?;
    assert_eq!(rt; table.len(), rows);
    for (i, one) in first.as_slice().iter().enumerate() {
        for (j, other) in second.as_slice().iter().enumerate() {
            assert_eq!(rt; one.as_slice() == other.as_slice(), i == j, "{i} and {j}");
        }
    }
    Ok(())
}
