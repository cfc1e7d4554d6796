// Products world by world.

ghost use Rattle.std.specs.Prelude.{◌<◌};

use crate::made::{
    ALL, ANN, COIN, Given, HEADS, WIDE, outcome, outcome_labelled, sense, state, two_events,
};
use ep_event::{Action, Assign};
use ep_kripke::State;
use ep_logic::{AgentId, Agents, AtomId, Formula, List, OutOfMemory, WorldId};
use std::alloc::Global;
use std::process::Abort;
use std::test::Fail;

// All that a state has, as one list.
fn picture(alloc: Global, s: &State) -> Result<Vec<u32>, OutOfMemory> {
    let mut all = [s.worlds(), s.agents(), s.atoms()].to_vec(alloc)?;
    all.extend_from_slice(s.designated())?;
    for w in 0..s.worlds() {
        add_world(&mut all, s, WorldId { n: w })?;
    }
    Ok(all)
}

fn add_world(all: &mut Vec<u32>, s: &State, w: WorldId) -> Result<(), OutOfMemory>
    requires { w.n < s.now.worlds }
{
    for p in 0..s.atoms() {
        all.push(s.holds_atom(w, AtomId { n: p }) as u32)?;
    }
    for a in 0..s.agents() {
        all.push(u32::MAX)?;
        s.put_targets(AgentId { n: a }, w, all)?;
    }
    Ok(())
}

fn check_same(rt: &impl Abort, alloc: Global, s: &State, t: &State) -> Result<(), OutOfMemory> {
    let found = picture(alloc, s)?;
    let want = picture(alloc, t)?;
    assert_eq!(rt; found, want);
    Ok(())
}

// The product is the other state.
fn check_product(
    rt: &impl Abort,
    alloc: Global,
    from: Given,
    a: &Action,
    to: Given,
) -> Result<(), Fail> {
    let s = state(rt, alloc, from)?;
    let t = outcome(rt, alloc, &s, a, WIDE)?;
    let want = state(rt, alloc, to)?;
    check_same(rt, alloc, &t, &want)?;
    let u = outcome_labelled(rt, alloc, &s, a, WIDE)?;
    check_same(rt, alloc, &u, &want)?;
    Ok(())
}

fn private(rt: &impl Abort, alloc: Global, group: Agents) -> Result<Action, OutOfMemory> {
    assert!(rt; !group.is_empty() && group.is_within(2));
    Action::private(alloc, 2, Formula::atom(HEADS), group)
}

#[test]
fn both_are_told(rt: HostRuntime) -> Result<(), Fail> {
    let both = private(&rt, rt.alloc(), Agents::first(2))?;
    let told = Given {
        worlds: &[&[0], &[0], &[]],
        links: &[
            (0, 0, 0),
            (0, 1, 1),
            (0, 1, 2),
            (0, 2, 1),
            (0, 2, 2),
            (1, 0, 0),
            (1, 1, 1),
            (1, 1, 2),
            (1, 2, 1),
            (1, 2, 2),
        ],
        ..COIN
    };
    check_product(&rt, rt.alloc(), COIN, &both, told)
}

// Bob takes it that nothing happened.
#[test]
fn ann_is_told(rt: HostRuntime) -> Result<(), Fail> {
    let only = private(&rt, rt.alloc(), Agents::none().with(ANN))?;
    let told = Given {
        worlds: &[&[0], &[0], &[]],
        links: &[
            (0, 0, 0),
            (0, 1, 1),
            (0, 1, 2),
            (0, 2, 1),
            (0, 2, 2),
            (1, 0, 1),
            (1, 0, 2),
            (1, 1, 1),
            (1, 1, 2),
            (1, 2, 1),
            (1, 2, 2),
        ],
        ..COIN
    };
    check_product(&rt, rt.alloc(), COIN, &only, told)
}

#[test]
fn ann_looks(rt: HostRuntime) -> Result<(), Fail> {
    let peek = sense(&rt, rt.alloc(), Agents::none().with(ANN))?;
    let seen = Given {
        links: &[
            (0, 0, 0),
            (0, 1, 1),
            (1, 0, 0),
            (1, 0, 1),
            (1, 1, 0),
            (1, 1, 1),
        ],
        ..COIN
    };
    check_product(&rt, rt.alloc(), COIN, &peek, seen)
}

fn swaps(alloc: Global) -> Result<List<Assign>, OutOfMemory> {
    let mut sets = List::new(alloc);
    for (atom, value) in [(0, 1), (1, 0)] {
        sets.push(Assign {
            atom: AtomId { n: atom },
            value: Formula::atom(AtomId { n: value }),
        })?;
    }
    Ok(sets)
}

// Both assignments read the old world.
#[test]
fn two_atoms_swap(rt: HostRuntime) -> Result<(), Fail> {
    let swap = Action::assign(rt.alloc(), 1, Formula::truth(true), swaps(rt.alloc())?)?;
    let before = Given {
        agents: 1,
        atoms: 2,
        worlds: &[&[0]],
        links: &[(0, 0, 0)],
        designated: &[0],
    };
    let after = Given {
        worlds: &[&[1]],
        ..before
    };
    check_product(&rt, rt.alloc(), before, &swap, after)
}

fn check_counts(rt: &impl Abort, s: &State, worlds: u32, links: u64, designated: &[u32]) {
    assert_eq!(rt; (s.worlds(), s.links()), (worlds, links));
    assert_eq!(rt; s.designated(), designated);
}

// Four worlds, two of them designated, and all of them linked.
#[test]
fn two_events_that_look_alike(rt: HostRuntime) -> Result<(), Fail> {
    let twice = two_events(&rt, rt.alloc(), 2, ALL)?;
    let coin = state(&rt, rt.alloc(), COIN)?;
    let t = outcome(&rt, rt.alloc(), &coin, &twice, WIDE)?;
    check_counts(&rt, &t, 4, 32, &[0, 1]);
    Ok(())
}
