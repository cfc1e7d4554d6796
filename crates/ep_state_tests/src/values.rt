// Sets of agents, rows of truth values, lists, boxes, texts and the counter of steps.

ghost use Rattle.std.specs.Prelude.{◌≡◌, ◌<◌, ◌^◌, length, IfOk};

use ep_logic::{AgentId, Agents, Bits, Boxed, List, OutOfMemory, Steps, Text};
use std::alloc::{AllocError, Global};
use std::marker::Brand;
use std::process::Abort;
use std::sync::ledger::{Blank, Ledger};
use std::test::Fail;

#[test]
fn members_of_a_set_of_agents(rt: HostRuntime) {
    let none = Agents::none();
    let some = none.with(AgentId { n: 2 }).with(AgentId { n: 7 });
    let first = Agents::first(3);
    for (n, in_some, in_first) in [
        (0, false, true),
        (1, false, true),
        (2, true, true),
        (3, false, false),
        (6, false, false),
        (7, true, false),
        (8, false, false),
    ] {
        assert_eq!(rt; some.has(AgentId { n }), in_some, "agent {n}");
        assert_eq!(rt; first.has(AgentId { n }), in_first, "agent {n}");
        assert!(rt; !none.has(AgentId { n }));
    }
    assert!(rt; none.is_empty() && Agents::first(0).is_empty() && !some.is_empty());
    assert!(rt; first.is_within(3) && !first.is_within(2) && !some.is_within(7));
}

// The row of these values.
fn row_of(alloc: Global, values: &[bool]) -> Result<Bits, OutOfMemory>
    requires { length values.now < 2 ^ 32 }
    ensures { IfOk result (λ row. length row ≡ length values.now) }
{
    let mut row = Bits::zeros(alloc, values.len() as u32)?;
    for i in 0..values.len() {
        row.set(i as u32, values[i]);
    }
    Ok(row)
}

fn values_of(alloc: Global, row: &Bits) -> Result<Vec<bool>, AllocError> {
    let mut values = Vec::new(alloc);
    for i in 0..row.len() {
        values.push(row.get(i))?;
    }
    Ok(values)
}

fn check_row(
    rt: &impl Abort,
    alloc: Global,
    row: &Bits,
    values: &[bool],
) -> Result<(), AllocError> {
    assert_eq!(rt; row.len() as usize, values.len());
    let found = values_of(alloc, row)?;
    assert_eq!(rt; found.as_slice(), values);
    Ok(())
}

// A row and its copy have the values that they are made of.
fn check_values(rt: &impl Abort, alloc: Global, values: &[bool]) -> Result<(), Fail> {
    assert!(rt; values.len() < 5000);
    let row = row_of(alloc, values)?;
    check_row(rt, alloc, &row, values)?;
    check_row(rt, alloc, &row.copy(alloc)?, values)?;
    Ok(())
}

#[test]
fn rows_and_copies_have_their_values(rt: HostRuntime) -> Result<(), Fail> {
    let alloc = rt.alloc();
    for len in [0u32, 1, 63, 64, 65, 4096] {
        for rest in [0u32, 1, 2] {
            let values: Vec<bool> = (0..len).map(|i| i % 3 == rest).collect(alloc)?;
            check_values(&rt, alloc, &values)?;
        }
    }
    Ok(())
}

// Whether the first row lies within the second, and what is true in both.
fn check_both(
    rt: &impl Abort,
    alloc: Global,
    rows: (&[bool], &[bool]),
    both: &[bool],
    subset: bool,
) -> Result<(), Fail> {
    let (a, b) = rows;
    assert!(rt; a.len() < 99 && b.len() < 99);
    let mut row = row_of(alloc, a)?;
    let other = row_of(alloc, b)?;
    assert_eq!(rt; row.len(), other.len());
    assert_eq!(rt; row.subset(&other), subset, "{a:?} in {b:?}");
    row.and_with(&other);
    check_row(rt, alloc, &row, both)?;
    Ok(())
}

#[test]
fn both_rows_and_subset(rt: HostRuntime) -> Result<(), Fail> {
    let alloc = rt.alloc();
    let mut late = [false; 65];
    late[64] = true;
    let rows: [(&[bool], &[bool], &[bool], bool); 5] = [
        (&[], &[], &[], true),
        (&[false, true], &[true, true], &[false, true], true),
        (
            &[false, false, true, true],
            &[false, true, false, true],
            &[false, false, false, true],
            false,
        ),
        (&late, &[false; 65], &[false; 65], false),
        (&[false; 65], &late, &[false; 65], true),
    ];
    for (a, b, both, subset) in rows {
        check_both(&rt, alloc, (a, b), both, subset)?;
    }
    Ok(())
}

#[test]
fn texts_of_want_of_memory(rt: HostRuntime) -> Result<(), Fail> {
    let text = format!(in rt.alloc(); "{}", OutOfMemory {})?;
    assert_eq!(rt; text.as_str(), "out of memory");
    Ok(())
}

#[test]
fn items_of_a_list(rt: HostRuntime) -> Result<(), Fail> {
    let mut list = List::new(rt.alloc());
    list.push(4u32)?;
    list.push(2)?;
    assert_eq!(rt; list.as_slice(), [4, 2].as_slice());
    let again = List::from_vec(list.into_vec());
    assert_eq!(rt; again.as_slice(), [4, 2].as_slice());
    Ok(())
}

#[test]
fn value_of_a_box(rt: HostRuntime) -> Result<(), Fail> {
    let boxed = Boxed::new(rt.alloc(), 6u8)?;
    assert_eq!(rt; *boxed.get(), 6);
    assert_eq!(rt; boxed.into_inner(), 6);
    Ok(())
}

#[test]
fn bytes_of_a_text(rt: HostRuntime) -> Result<(), Fail> {
    let text = Text::from_vec(vec![in rt.alloc(); b'h', b'i']?);
    assert_eq!(rt; text.as_slice(), b"hi".as_slice());
    Ok(())
}

// Takes two steps of a counter that is opened here.
fn two_steps<L: Ledger>(blank: Blank)
    requires name { blank.name ≡ L.name }
    requires parts { blank.parts ≡ L.parts }
    requires some { 0 < L.parts }
{
    let mut steps = Steps::<L>::new(blank);
    steps.tick();
    steps.tick();
}

#[test]
fn steps_are_counted() {
    two_steps::<Brand>(Blank::new(1));
}
