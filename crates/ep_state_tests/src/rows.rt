// Rows of truth values by words, and tables of rows, on both sides of the end of a word.

use ep_logic::{BitTable, Bits, OutOfMemory, flip_words, meet, or_words};
use std::alloc::Global;
use std::process::Abort;
use std::test::Fail;

// The places that each row is given. Those past its end are left out.
const GIVEN: [u32; 5] = [0, 62, 63, 64, 127];

// How long a row is, and the places where it is true.
type Case = (u32, &'static [u32]);

const CASES: [Case; 5] = [
    (0, &[]),
    (63, &[0, 62]),
    (64, &[0, 62, 63]),
    (65, &[0, 62, 63, 64]),
    (128, &[0, 62, 63, 64, 127]),
];

fn check_row(rt: &impl Abort, alloc: Global, (len, trues): Case) -> Result<(), OutOfMemory> {
    let row = Bits::from_places(alloc, len, &GIVEN)?;
    assert_eq!(rt; row.len(), len);
    assert_eq!(rt; row.places(alloc)?.as_slice(), trues, "of {len}");
    let mut turned = row.copy(alloc)?;
    turned.flip();
    let others = turned.places(alloc)?;
    assert_eq!(rt;
        others.as_slice().len() + trues.len(),
        len as usize,
        "of {len}"
    );
    assert!(rt; others.as_slice().iter().all(|place| !trues.contains(place)));
    assert!(rt; turned.len() == row.len());
    turned.or_with(&row);
    assert_eq!(rt; turned.words(), Bits::ones(alloc, len)?.words(), "of {len}");
    Ok(())
}

#[test]
fn rows_by_their_places(rt: HostRuntime) -> Result<(), Fail> {
    for case in CASES {
        check_row(&rt, rt.alloc(), case)?;
    }
    Ok(())
}

#[test]
fn words_of_rows(rt: HostRuntime) {
    let mut row = [1u64 << 63, 1];
    assert!(rt; meet(&row, &[1 << 63, 0]) && meet(&row, &[0, 3]) && !meet(&row, &[1, 2]));
    or_words(&mut row, &[1, 2]);
    assert!(rt; row == [1 | 1 << 63, 3]);
    flip_words(&mut row);
    assert!(rt; row == [u64::MAX - 1 - (1 << 63), u64::MAX - 3]);
}

// A table whose second row has the given places.
fn check_table(rt: &impl Abort, alloc: Global, (width, trues): Case) -> Result<(), OutOfMemory> {
    let row = Bits::from_places(alloc, width, &GIVEN)?;
    let mut table = BitTable::zeros(alloc, 1, width)?;
    assert!(rt; row.len() == table.width() && table.len() == 1);
    table.push(row.words())?;
    assert!(rt; table.width() == width && table.len() == 2);
    assert_eq!(rt; table.places(alloc, 0)?.as_slice(), [].as_slice());
    assert_eq!(rt; table.places(alloc, 1)?.as_slice(), trues, "of {width}");
    assert_eq!(rt; table.row(1), row.words(), "of {width}");
    for place in 0..width {
        check_places(rt, &mut table, place, trues.contains(&place));
    }
    Ok(())
}

fn check_places(rt: &impl Abort, table: &mut BitTable, place: u32, is_true: bool) {
    assert!(rt; table.len() == 2 && place < table.width());
    assert_eq!(rt; table.get(1, place), is_true, "at {place}");
    table.set(0, place, true);
    assert!(rt; table.len() == 2 && place < table.width());
    assert!(rt; table.get(0, place) && table.get(1, place) == is_true);
    table.set(0, place, false);
}

#[test]
fn rows_of_a_table(rt: HostRuntime) -> Result<(), Fail> {
    for case in CASES {
        check_table(&rt, rt.alloc(), case)?;
    }
    Ok(())
}
