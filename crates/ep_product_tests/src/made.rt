// States and actions that several tests build, and products under a counter that is opened for each.

ghost use Rattle.std.specs.Prelude.{◌≡◌, ◌≤◌, ◌<◌, ◌^◌, length};

use ep_event::{Action, ActionParts, EventLink, EventParts};
use ep_kripke::{Link, State, StateParts};
use ep_logic::{
    AgentId, Agents, AtomId, Bits, EventId, Formula, List, OutOfMemory, Steps, WorldId,
};
use ep_update::{Size, UpdateError, fits_action, labels, product, product_labelled};
use std::alloc::Global;
use std::marker::Brand;
use std::process::Abort;
use std::sync::ledger::{Blank, Ledger};
use std::test::Fail;

/// More than any product of these tests needs but the largest.
pub const WIDE: Size = Size {
    worlds: 65_536,
    links: 33_554_432,
};

/// An agent, and what it links.
pub type Triple = (u32, u32, u32);

/// The atoms that are true at each world, the links and the designated worlds.
#[derive(Clone, Copy)]
pub struct Given {
    pub agents: u32,
    pub atoms: u32,
    pub worlds: &'static [&'static [u32]],
    pub links: &'static [Triple],
    pub designated: &'static [u32],
}

/// Of agents 0 and 1, each links all of 0 and 1.
pub const ALL: &[Triple] = &[
    (0, 0, 0),
    (0, 0, 1),
    (0, 1, 0),
    (0, 1, 1),
    (1, 0, 0),
    (1, 0, 1),
    (1, 1, 0),
    (1, 1, 1),
];

/// A coin lies with heads up, and neither of the agents 0, Ann, and 1, Bob, knows it.
pub const COIN: Given = Given {
    agents: 2,
    atoms: 1,
    worlds: &[&[0], &[]],
    links: ALL,
    designated: &[0],
};

pub const ANN: AgentId = AgentId { n: 0 };

pub const HEADS: AtomId = AtomId { n: 0 };

fn row(alloc: Global, width: u32, trues: &[u32]) -> Result<Bits, OutOfMemory> {
    let mut row = Bits::zeros(alloc, width)?;
    for p in 0..width {
        row.set(p, trues.contains(&p));
    }
    Ok(row)
}

fn rows(alloc: Global, width: u32, worlds: &[&[u32]]) -> Result<List<Bits>, OutOfMemory> {
    let mut rows = List::new(alloc);
    for trues in worlds {
        rows.push(row(alloc, width, trues)?)?;
    }
    Ok(rows)
}

fn links(alloc: Global, triples: &[Triple]) -> Result<List<Link>, OutOfMemory> {
    let mut links = List::new(alloc);
    for (agent, from, to) in triples {
        links.push(Link {
            agent: AgentId { n: *agent },
            from: WorldId { n: *from },
            to: WorldId { n: *to },
        })?;
    }
    Ok(links)
}

fn points(alloc: Global, numbers: &[u32]) -> Result<List<WorldId>, OutOfMemory> {
    let mut worlds = List::new(alloc);
    for n in numbers {
        worlds.push(WorldId { n: *n })?;
    }
    Ok(worlds)
}

// The numbers that `State::build` requires.
fn check_state(rt: &impl Abort, parts: &StateParts)
    ensures agents { parts.now.agents ≤ 8 }
    ensures atoms { parts.now.atoms ≤ 256 }
    ensures truth { length parts.now.truth ≤ 65536 }
    ensures links { length parts.now.links < 2 ^ 32 }
    ensures designated { length parts.now.designated < 2 ^ 32 }
{
    assert!(rt; parts.agents <= 8 && parts.atoms <= 256);
    assert!(rt; parts.truth.as_slice().len() <= 65_536);
    assert!(rt; parts.links.as_slice().len() < 1 << 32);
    assert!(rt; parts.designated.as_slice().len() < 1 << 32);
}

pub fn state(rt: &impl Abort, alloc: Global, given: Given) -> Result<State, Fail> {
    let parts = StateParts {
        agents: given.agents,
        atoms: given.atoms,
        truth: rows(alloc, given.atoms, given.worlds)?,
        links: links(alloc, given.links)?,
        designated: points(alloc, given.designated)?,
    };
    check_state(rt, &parts);
    Ok(State::build(alloc, parts)?)
}

/// The agents of the group see whether heads is up.
pub fn sense(rt: &impl Abort, alloc: Global, group: Agents) -> Result<Action, OutOfMemory> {
    let heads = Formula::atom(HEADS);
    assert!(rt; !group.is_empty() && group.is_within(2));
    assert!(rt; heads.depth() < 128 && heads.nodes() < 131_072);
    Action::sense(alloc, 2, heads, group)
}

fn plain_events(alloc: Global) -> Result<List<EventParts>, OutOfMemory> {
    let mut events = List::new(alloc);
    for _e in 0..2 {
        events.push(EventParts {
            pre: Formula::truth(true),
            sets: List::new(alloc),
        })?;
    }
    Ok(events)
}

fn event_links(alloc: Global, triples: &[Triple]) -> Result<List<EventLink>, OutOfMemory> {
    let mut links = List::new(alloc);
    for (agent, from, to) in triples {
        links.push(EventLink {
            agent: AgentId { n: *agent },
            from: EventId { n: *from },
            to: EventId { n: *to },
        })?;
    }
    Ok(links)
}

// The numbers that `Action::build` requires.
fn check_action(rt: &impl Abort, parts: &ActionParts)
    ensures agents { parts.now.agents ≤ 8 }
    ensures events { length parts.now.events < 2 ^ 32 }
    ensures links { length parts.now.links < 2 ^ 32 }
    ensures designated { length parts.now.designated < 2 ^ 32 }
{
    assert!(rt; parts.agents <= 8 && parts.events.as_slice().len() < 1 << 32);
    assert!(rt; parts.links.as_slice().len() < 1 << 32);
    assert!(rt; parts.designated.as_slice().len() < 1 << 32);
}

/// Two events without conditions, both designated.
pub fn two_events(
    rt: &impl Abort,
    alloc: Global,
    agents: u32,
    triples: &[Triple],
) -> Result<Action, Fail> {
    let ids = [EventId { n: 0 }, EventId { n: 1 }].to_vec(alloc)?;
    let parts = ActionParts {
        agents,
        events: plain_events(alloc)?,
        links: event_links(alloc, triples)?,
        designated: List::from_vec(ids),
    };
    check_action(rt, &parts);
    Ok(Action::build(alloc, parts)?)
}

fn counted<L: Ledger>(
    rt: &impl Abort,
    alloc: Global,
    s: &State,
    a: &Action,
    size: Size,
    blank: Blank,
) -> Result<State, UpdateError>
    requires name { blank.name ≡ L.name }
    requires parts { blank.parts ≡ L.parts }
    requires some { 0 < L.parts }
{
    assert!(rt; fits_action(s, a));
    assert!(rt; size.worlds <= 65_536 && size.links < 1 << 32);
    let mut steps = Steps::<L>::new(blank);
    product(alloc, s, a, size, &mut steps)
}

/// The product, or why there is none.
pub fn outcome(
    rt: &impl Abort,
    alloc: Global,
    s: &State,
    a: &Action,
    size: Size,
) -> Result<State, UpdateError> {
    counted::<Brand>(rt, alloc, s, a, size, Blank::new(1))
}

fn counted_labelled<L: Ledger>(
    rt: &impl Abort,
    alloc: Global,
    s: &State,
    a: &Action,
    size: Size,
    blank: Blank,
) -> Result<State, UpdateError>
    requires name { blank.name ≡ L.name }
    requires parts { blank.parts ≡ L.parts }
    requires some { 0 < L.parts }
{
    assert!(rt; fits_action(s, a));
    assert!(rt; size.worlds <= 65_536 && size.links < 1 << 32);
    let mut steps = Steps::<L>::new(blank);
    let l = labels(alloc, s, a)?;
    product_labelled(alloc, s, a, &l, size, &mut steps)
}

/// The same by labels that are handed in.
pub fn outcome_labelled(
    rt: &impl Abort,
    alloc: Global,
    s: &State,
    a: &Action,
    size: Size,
) -> Result<State, UpdateError> {
    counted_labelled::<Brand>(rt, alloc, s, a, size, Blank::new(1))
}
