// Labels of preconditions, and what is read from them.

use crate::made::{ANN, COIN, Given, HEADS, sense, state};
use ep_event::Action;
use ep_kripke::State;
use ep_logic::{Agents, Formula, OutOfMemory};
use ep_update::{
    LabelTable, applicable, applicable_labelled, fits_action, labels, openings, places_of,
};
use std::alloc::Global;
use std::process::Abort;
use std::test::Fail;

// The truth values, event by event and world by world.
fn values(alloc: Global, l: &LabelTable) -> Result<Vec<bool>, OutOfMemory> {
    let mut all = Vec::new(alloc);
    for row in l.rows() {
        for w in 0..row.len() {
            all.push(row.get(w))?;
        }
    }
    Ok(all)
}

fn check_labels(
    rt: &impl Abort,
    alloc: Global,
    s: &State,
    a: &Action,
    truth: &[bool],
) -> Result<(), OutOfMemory> {
    assert!(rt; fits_action(s, a));
    let l = labels(alloc, s, a)?;
    let found = values(alloc, &l)?;
    assert_eq!(rt; found.as_slice(), truth);
    Ok(())
}

// Whether the action is applicable, by the labels and without.
fn check_applies(
    rt: &impl Abort,
    alloc: Global,
    s: &State,
    a: &Action,
    applies: bool,
) -> Result<(), OutOfMemory> {
    assert!(rt; fits_action(s, a));
    let l = labels(alloc, s, a)?;
    assert_eq!(rt; applicable_labelled(s, a, &l), applies);
    assert_eq!(rt; applicable(alloc, s, a)?, applies);
    Ok(())
}

// Where the action may happen, and the pairs that become worlds.
fn check_ahead(
    rt: &impl Abort,
    alloc: Global,
    s: &State,
    a: &Action,
    opens: &[u32],
    pairs: &[(u32, u32)],
) -> Result<(), OutOfMemory> {
    assert!(rt; fits_action(s, a));
    let l = labels(alloc, s, a)?;
    let worlds = openings(alloc, s, a, &l)?;
    assert_eq!(rt; worlds.as_slice(), opens);
    let places = places_of(alloc, s, a, &l)?;
    assert_eq!(rt; places.as_slice(), pairs);
    Ok(())
}

// Ann looks: heads is true at world 0, and its negation at world 1.
#[test]
fn what_is_looked_at_holds_at_one_world_each(rt: HostRuntime) -> Result<(), Fail> {
    let peek = sense(&rt, rt.alloc(), Agents::none().with(ANN))?;
    let coin = state(&rt, rt.alloc(), COIN)?;
    check_labels(&rt, rt.alloc(), &coin, &peek, &[true, false, false, true])?;
    check_applies(&rt, rt.alloc(), &coin, &peek, true)?;
    check_ahead(&rt, rt.alloc(), &coin, &peek, &[0, 1], &[(0, 0), (1, 1)])?;
    Ok(())
}

// Heads is announced, but world 1, where it is false, is designated too.
#[test]
fn what_is_announced_is_false_at_a_designated_world(rt: HostRuntime) -> Result<(), Fail> {
    let say = Action::announce(rt.alloc(), 2, Formula::atom(HEADS))?;
    let designated: &[u32] = &[0, 1];
    let two = state(&rt, rt.alloc(), Given { designated, ..COIN })?;
    check_labels(&rt, rt.alloc(), &two, &say, &[true, false])?;
    check_applies(&rt, rt.alloc(), &two, &say, false)?;
    check_ahead(&rt, rt.alloc(), &two, &say, &[0], &[(0, 0)])?;
    Ok(())
}
