//! A coin that two agents have not seen, and what may happen to it.

ghost use Rattle.std.specs.Prelude.{◌≡◌, ◌≤◌, ◌<◌, ◌^◌, length};

use ep_event::{Action, ActionParts, EventLink, EventParts};
use ep_kripke::{Link, State, StateParts};
use ep_logic::{AgentId, Agents, AtomId, Bits, EventId, Formula, List, OutOfMemory, WorldId};
use ep_problem::{Problem, actions_fit};
use ep_truth::fits;
use std::alloc::Global;
use std::process::Abort;
use std::test::Fail;

pub const ANN: AgentId = AgentId { n: 0 };

pub const BOB: AgentId = AgentId { n: 1 };

pub const HEADS: AtomId = AtomId { n: 0 };

// The actions, by their places: Ann sees the coin; what is false is announced; two events of which each agent knows
// which happens; two of which no agent does.
pub const PEEK: u32 = 0;

pub const NEVER: u32 = 1;

pub const WAIT: u32 = 2;

pub const BLUR: u32 = 3;

// Each world is possible for each agent.
fn all_links(alloc: Global) -> Result<List<Link>, OutOfMemory> {
    let mut links = List::new(alloc);
    for (agent, from, to) in [
        (0, 0, 0),
        (0, 0, 1),
        (0, 1, 0),
        (0, 1, 1),
        (1, 0, 0),
        (1, 0, 1),
        (1, 1, 0),
        (1, 1, 1),
    ] {
        links.push(Link {
            agent: AgentId { n: agent },
            from: WorldId { n: from },
            to: WorldId { n: to },
        })?;
    }
    Ok(links)
}

// Heads is up at world 0 alone.
fn truth(alloc: Global) -> Result<List<Bits>, OutOfMemory> {
    let mut rows = List::new(alloc);
    rows.push(Bits::ones(alloc, 1)?)?;
    rows.push(Bits::zeros(alloc, 1)?)?;
    Ok(rows)
}

fn check_state(rt: &impl Abort, parts: &StateParts)
    ensures agents { parts.now.agents ≤ 8 }
    ensures atoms { parts.now.atoms ≤ 256 }
    ensures truth { length parts.now.truth ≤ 65536 }
    ensures links { length parts.now.links < 2 ^ 32 }
    ensures designated { length parts.now.designated < 2 ^ 32 }
{
    assert!(rt; parts.agents <= 8 && parts.atoms <= 256);
    assert!(rt; parts.truth.as_slice().len() <= 65_536);
    assert!(rt; parts.links.as_slice().len() < 1 << 32);
    assert!(rt; parts.designated.as_slice().len() < 1 << 32);
}

fn coin(rt: &impl Abort, alloc: Global) -> Result<State, Fail> {
    let parts = StateParts {
        agents: 2,
        atoms: 1,
        truth: truth(alloc)?,
        links: all_links(alloc)?,
        designated: List::from_vec([WorldId { n: 0 }].to_vec(alloc)?),
    };
    check_state(rt, &parts);
    Ok(State::build(alloc, parts)?)
}

pub fn peek(rt: &impl Abort, alloc: Global) -> Result<Action, OutOfMemory> {
    let heads = Formula::atom(HEADS);
    let group = Agents::first(1);
    assert!(rt; !group.is_empty() && group.is_within(2));
    assert!(rt; heads.depth() < 128 && heads.nodes() < 131_072);
    Action::sense(alloc, 2, heads, group)
}

fn plain_events(alloc: Global) -> Result<List<EventParts>, OutOfMemory> {
    let mut events = List::new(alloc);
    for _e in 0..2 {
        events.push(EventParts {
            pre: Formula::truth(true),
            sets: List::new(alloc),
        })?;
    }
    Ok(events)
}

// The same links for both agents.
fn event_links(alloc: Global, pairs: &[(u32, u32)]) -> Result<List<EventLink>, OutOfMemory> {
    let mut links = List::new(alloc);
    for (from, to) in pairs {
        for agent in [ANN, BOB] {
            links.push(EventLink {
                agent,
                from: EventId { n: *from },
                to: EventId { n: *to },
            })?;
        }
    }
    Ok(links)
}

fn check_action(rt: &impl Abort, parts: &ActionParts)
    ensures agents { parts.now.agents ≤ 8 }
    ensures events { length parts.now.events < 2 ^ 32 }
    ensures links { length parts.now.links < 2 ^ 32 }
    ensures designated { length parts.now.designated < 2 ^ 32 }
{
    assert!(rt; parts.agents <= 8 && parts.events.as_slice().len() < 1 << 32);
    assert!(rt; parts.links.as_slice().len() < 1 << 32);
    assert!(rt; parts.designated.as_slice().len() < 1 << 32);
}

pub fn either(rt: &impl Abort, alloc: Global, pairs: &[(u32, u32)]) -> Result<Action, Fail> {
    let ids = [EventId { n: 0 }, EventId { n: 1 }].to_vec(alloc)?;
    let parts = ActionParts {
        agents: 2,
        events: plain_events(alloc)?,
        links: event_links(alloc, pairs)?,
        designated: List::from_vec(ids),
    };
    check_action(rt, &parts);
    Ok(Action::build(alloc, parts)?)
}

fn actions(rt: &impl Abort, alloc: Global) -> Result<List<Action>, Fail> {
    let mut actions = List::new(alloc);
    actions.push(peek(rt, alloc)?)?;
    actions.push(Action::announce(alloc, 2, Formula::truth(false))?)?;
    actions.push(either(rt, alloc, &[(0, 0), (1, 1)])?)?;
    actions.push(either(rt, alloc, &[(0, 0), (0, 1), (1, 0), (1, 1)])?)?;
    Ok(actions)
}

fn posed(rt: &impl Abort, initial: State, actions: List<Action>, costs: List<u32>) -> Problem {
    let goal = Formula::truth(true);
    assert!(rt; initial.worlds() <= 256 && actions.as_slice().len() <= 1024);
    assert!(rt; actions_fit(&initial, actions.as_slice()) && fits(&initial, &goal));
    assert!(rt; costs.as_slice().len() == actions.as_slice().len());
    check_costs(rt, costs.as_slice());
    Problem::new(initial, actions, costs, goal)
}

ghost use Rattle.std.specs.List.{AllByRecursion};

fn check_costs(rt: &impl Abort, costs: &[u32])
    ensures least { AllByRecursion (λ cost. 1 ≤ cost) costs.now }
    ensures most { AllByRecursion (λ cost. cost ≤ 100) costs.now }
{
    for cost in costs {
        assert!(rt; 1 <= *cost && *cost <= 100);
    }
}

pub fn problem(rt: &impl Abort, alloc: Global) -> Result<Problem, Fail> {
    let initial = coin(rt, alloc)?;
    let actions = actions(rt, alloc)?;
    let costs = List::from_vec([1, 1, 1, 1].to_vec(alloc)?);
    Ok(posed(rt, initial, actions, costs))
}
