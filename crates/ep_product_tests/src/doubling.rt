// Products that double the worlds again and again, up to one that is too large.

use crate::made::{Given, Triple, WIDE, outcome, state, two_events};
use ep_event::Action;
use ep_kripke::State;
use ep_update::UpdateError;
use std::alloc::Global;
use std::process::Abort;
use std::test::Fail;

const LONE: Given = Given {
    agents: 1,
    atoms: 0,
    worlds: &[&[]],
    links: &[(0, 0, 0)],
    designated: &[0],
};

// So many products, each of the one before.
fn repeated(rt: &impl Abort, alloc: Global, act: &Action, times: u32) -> Result<State, Fail> {
    let mut s = state(rt, alloc, LONE)?;
    for _time in 0..times {
        s = outcome(rt, alloc, &s, act, WIDE)?;
    }
    Ok(s)
}

fn check_next(rt: &impl Abort, alloc: Global, s: &State, act: &Action, error: UpdateError) {
    let found = outcome(rt, alloc, s, act, WIDE).err();
    assert_eq!(rt; found, Some(error));
}

fn check_counts(rt: &impl Abort, s: &State, worlds: u32, links: u64) {
    assert_eq!(rt; (s.worlds(), s.links()), (worlds, links));
    assert_eq!(rt; s.designated().len(), worlds as usize);
}

// The largest product, its numbers of worlds and links, and why there is no next one.
fn check_largest(
    rt: &impl Abort,
    alloc: Global,
    triples: &[Triple],
    times: u32,
    counts: (u32, u64),
    error: UpdateError,
) -> Result<(), Fail> {
    let act = two_events(rt, alloc, 1, triples)?;
    let s = repeated(rt, alloc, &act, times)?;
    let (worlds, links) = counts;
    check_counts(rt, &s, worlds, links);
    check_next(rt, alloc, &s, &act, error);
    Ok(())
}

// Each event is told apart from the other.
#[test]
fn worlds_double_up_to_the_most_worlds(rt: HostRuntime) -> Result<(), Fail> {
    let error = UpdateError::TooManyWorlds { worlds: 131_072 };
    let apart = [(0, 0, 0), (0, 1, 1)];
    check_largest(&rt, rt.alloc(), &apart, 16, (65_536, 65_536), error)
}

#[test]
fn links_grow_fourfold_up_to_the_most_links(rt: HostRuntime) -> Result<(), Fail> {
    let error = UpdateError::TooManyLinks { links: 67_108_864 };
    let all = [(0, 0, 0), (0, 0, 1), (0, 1, 0), (0, 1, 1)];
    check_largest(&rt, rt.alloc(), &all, 12, (4_096, 16_777_216), error)
}
