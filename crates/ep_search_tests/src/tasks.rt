//! Planning tasks, from tables.

ghost use Rattle.std.specs.Prelude.{◌≤◌};
ghost use Rattle.std.specs.List.{AllByRecursion};

use crate::actions::{Act, action};
use crate::states::{Shape, state};
use ep_event::Action;
use ep_kripke::State;
use ep_logic::{AgentId, AtomId, Formula, List, OutOfMemory};
use ep_problem::{Problem, actions_fit};
use ep_truth::fits;
use std::alloc::Global;
use std::process::Abort;
use std::test::Fail;

#[derive(Clone, Copy)]
pub enum Goal {
    True,
    Atom(u32),
    /// The agent knows atom 0.
    Known(u32),
    /// The first agent knows atom 0, and the second does not.
    KnownApart(u32, u32),
}

/// A task, with the costs of its actions, or none where each costs 1.
#[derive(Clone, Copy)]
pub struct Task {
    shape: Shape,
    actions: &'static [Act],
    costs: &'static [u32],
    goal: Goal,
}

// A coin lies with heads up, and neither of the agents knows it.
pub const COIN: Task = Task {
    shape: Shape {
        agents: 2,
        atoms: 1,
        worlds: &[&[0], &[]],
        links: &[
            (0, 0, 0),
            (0, 0, 1),
            (0, 1, 0),
            (0, 1, 1),
            (1, 0, 0),
            (1, 0, 1),
            (1, 1, 0),
            (1, 1, 1),
        ],
    },
    actions: &[Act::Look(0), Act::Look(1), Act::Twice],
    costs: &[],
    goal: Goal::KnownApart(0, 1),
};

// Only one agent can look, and the other is to know.
pub const LOOK: Task = Task {
    actions: &[Act::Look(0)],
    goal: Goal::Known(1),
    ..COIN
};

pub const TRUE_AT_ONCE: Task = Task {
    goal: Goal::True,
    ..COIN
};

// Two ways from the start to x: by a1 and a2, and by b1. The atoms are start, a1, a2, b1, x, d and g.
pub const WAYS: Task = Task {
    shape: Shape {
        agents: 1,
        atoms: 7,
        worlds: &[&[0]],
        links: &[(0, 0, 0)],
    },
    actions: &[
        Act::Move(0, 1),
        Act::Move(1, 2),
        Act::Move(2, 4),
        Act::Move(0, 3),
        Act::Move(3, 4),
        Act::Move(4, 5),
        Act::Move(5, 6),
    ],
    costs: &[],
    goal: Goal::Atom(6),
};

// The way of fewer actions to x costs more.
pub const COSTLY_WAY: Task = Task {
    costs: &[1, 1, 1, 5, 5, 1, 1],
    ..WAYS
};

// The same with the way of fewer actions first.
pub const COSTLY_FIRST: Task = Task {
    actions: &[
        Act::Move(0, 3),
        Act::Move(3, 4),
        Act::Move(0, 1),
        Act::Move(1, 2),
        Act::Move(2, 4),
        Act::Move(4, 5),
        Act::Move(5, 6),
    ],
    costs: &[5, 5, 1, 1, 1, 1, 1],
    ..WAYS
};

// To the goal at once for 10, or by mid for 3 and 4. The atoms are here, mid and there.
pub const TOLL: Task = Task {
    shape: Shape {
        agents: 1,
        atoms: 3,
        worlds: &[&[0]],
        links: &[(0, 0, 0)],
    },
    actions: &[Act::Also(0, 2), Act::Move(0, 1), Act::Also(1, 2)],
    costs: &[10, 3, 4],
    goal: Goal::Atom(2),
};

// Ten actions in a row, each of the greatest cost.
pub const DEAR: Task = Task {
    shape: Shape {
        agents: 1,
        atoms: 11,
        worlds: &[&[0]],
        links: &[(0, 0, 0)],
    },
    actions: &[
        Act::Move(0, 1),
        Act::Move(1, 2),
        Act::Move(2, 3),
        Act::Move(3, 4),
        Act::Move(4, 5),
        Act::Move(5, 6),
        Act::Move(6, 7),
        Act::Move(7, 8),
        Act::Move(8, 9),
        Act::Move(9, 10),
    ],
    costs: &[100, 100, 100, 100, 100, 100, 100, 100, 100, 100],
    goal: Goal::Atom(10),
};

// Two states of weight 1, of which the first leads to g and the second to another state.
pub const FORK: Task = Task {
    actions: &[
        Act::Move(0, 1),
        Act::Move(0, 3),
        Act::Move(1, 6),
        Act::Move(3, 4),
    ],
    ..WAYS
};

// A further action makes a seventh state from b1.
pub const SEVENTH_STATE: Task = Task {
    actions: &[
        Act::Move(0, 1),
        Act::Move(1, 2),
        Act::Move(2, 4),
        Act::Move(0, 3),
        Act::Move(3, 4),
        Act::Also(3, 5),
        Act::Move(4, 5),
        Act::Move(5, 6),
    ],
    ..WAYS
};

// A further action makes a state of two worlds from b1.
pub const WIDE_STATE: Task = Task {
    actions: &[
        Act::Move(0, 1),
        Act::Move(1, 2),
        Act::Move(2, 4),
        Act::Move(0, 3),
        Act::Move(3, 4),
        Act::Maybe(3, 5),
        Act::Move(4, 5),
        Act::Move(5, 6),
    ],
    ..WAYS
};

fn actions(rt: &impl Abort, alloc: Global, task: &Task) -> Result<List<Action>, Fail> {
    let mut actions = List::new(alloc);
    for act in task.actions {
        actions.push(action(rt, alloc, task.shape.agents, *act)?)?;
    }
    Ok(actions)
}

fn known(rt: &impl Abort, alloc: Global, agent: u32) -> Result<Formula, Fail> {
    assert!(rt; agent < 8);
    let heads = Formula::atom(AtomId { n: 0 });
    Ok(Formula::knows(alloc, AgentId { n: agent }, heads)?)
}

fn known_apart(rt: &impl Abort, alloc: Global, agent: u32, other: u32) -> Result<Formula, Fail> {
    let mut parts = List::new(alloc);
    parts.push(known(rt, alloc, agent)?)?;
    parts.push(Formula::not(alloc, known(rt, alloc, other)?)?)?;
    assert!(rt; parts.as_slice().len() == 2);
    Ok(Formula::and(alloc, parts)?)
}

fn formula(rt: &impl Abort, alloc: Global, goal: Goal) -> Result<Formula, Fail> {
    match goal {
        Goal::True => Ok(Formula::truth(true)),
        Goal::Atom(n) => Ok(Formula::atom(AtomId { n })),
        Goal::Known(agent) => known(rt, alloc, agent),
        Goal::KnownApart(agent, other) => known_apart(rt, alloc, agent, other),
    }
}

fn check_costs(rt: &impl Abort, costs: &[u32])
    ensures least { AllByRecursion (λ cost. 1 ≤ cost) costs.now }
    ensures most { AllByRecursion (λ cost. cost ≤ 100) costs.now }
{
    for cost in costs {
        assert!(rt; 1 <= *cost && *cost <= 100);
    }
}

fn costs(alloc: Global, task: &Task) -> Result<List<u32>, OutOfMemory> {
    let mut costs = List::new(alloc);
    for n in 0..task.actions.len() {
        costs.push(task.costs.get(n).copied().unwrap_or(1))?;
    }
    Ok(costs)
}

fn posed(
    rt: &impl Abort,
    initial: State,
    actions: List<Action>,
    costs: List<u32>,
    goal: Formula,
) -> Problem {
    assert!(rt; initial.worlds() <= 256 && actions.as_slice().len() <= 1024);
    assert!(rt; actions_fit(&initial, actions.as_slice()) && fits(&initial, &goal));
    assert!(rt; costs.as_slice().len() == actions.as_slice().len());
    check_costs(rt, costs.as_slice());
    Problem::new(initial, actions, costs, goal)
}

pub fn problem(rt: &impl Abort, alloc: Global, task: &Task) -> Result<Problem, Fail> {
    let initial = state(rt, alloc, &task.shape)?;
    let actions = actions(rt, alloc, task)?;
    let costs = costs(alloc, task)?;
    let goal = formula(rt, alloc, task.goal)?;
    Ok(posed(rt, initial, actions, costs, goal))
}
