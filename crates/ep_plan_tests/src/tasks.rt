//! Problems whose goal is the atom, and plans.

ghost use Rattle.std.specs.Prelude.{◌≤◌};
ghost use Rattle.std.specs.List.{AllByRecursion};

use crate::actions::{Act, actions};
use crate::states::{Shape, state};
use ep_event::Action;
use ep_kripke::State;
use ep_logic::{ActionId, AtomId, Formula, List, OutOfMemory};
use ep_problem::{Plan, Problem, actions_fit};
use ep_truth::fits;
use std::alloc::Global;
use std::process::Abort;
use std::test::Fail;

/// A task has a cost for each action.
pub struct Task {
    initial: Shape,
    acts: &'static [Act],
    costs: &'static [u32],
}

// The actions of the next task: each doubles the worlds, and the second links all copies of a world; the third makes the
// atom true.
pub const WAIT: u32 = 0;

pub const BLUR: u32 = 1;

pub const FINISH: u32 = 2;

// One world, at which the atom is false.
pub const WAITING: Task = Task {
    initial: Shape {
        truth: &[false],
        links: &[(0, 0)],
        designated: &[0],
    },
    acts: &[
        Act::Either(&[(0, 0), (1, 1)]),
        Act::Either(&[(0, 0), (0, 1), (1, 0), (1, 1)]),
        Act::MadeTrue,
    ],
    costs: &[10, 3, 4],
};

// Two designated worlds, the atom true at the first alone. That nothing happens is announced, or that the atom is true.
pub const TOLD: Task = Task {
    initial: Shape {
        truth: &[true, false],
        links: &[(0, 0), (1, 1)],
        designated: &[0, 1],
    },
    acts: &[Act::Nothing(1), Act::Said(1, 0)],
    costs: &[1, 1],
};

// The agent does not know whether the atom is true. That nothing happens is announced, or the agent is told the atom, or
// takes the one of two events that may happen for the other.
pub const COIN: Task = Task {
    initial: Shape {
        truth: &[true, false],
        links: &[(0, 0), (0, 1), (1, 0), (1, 1)],
        designated: &[0],
    },
    acts: &[
        Act::Nothing(1),
        Act::Told(0),
        Act::Either(&[(0, 1), (1, 1)]),
    ],
    costs: &[1, 1, 1],
};

fn check_costs(rt: &impl Abort, costs: &[u32])
    ensures least { AllByRecursion (λ cost. 1 ≤ cost) costs.now }
    ensures most { AllByRecursion (λ cost. cost ≤ 100) costs.now }
{
    for cost in costs {
        assert!(rt; 1 <= *cost && *cost <= 100);
    }
}

pub fn list(alloc: Global, numbers: &[u32]) -> Result<List<u32>, OutOfMemory> {
    let mut list = List::new(alloc);
    for number in numbers {
        list.push(*number)?;
    }
    Ok(list)
}

pub fn posed(
    rt: &impl Abort,
    initial: State,
    actions: List<Action>,
    costs: List<u32>,
    goal: Formula,
) -> Problem {
    assert!(rt; initial.worlds() <= 256 && actions.as_slice().len() <= 1024);
    assert!(rt; actions_fit(&initial, actions.as_slice()) && fits(&initial, &goal));
    assert!(rt; costs.as_slice().len() == actions.as_slice().len());
    check_costs(rt, costs.as_slice());
    Problem::new(initial, actions, costs, goal)
}

pub fn problem(rt: &impl Abort, alloc: Global, task: &Task) -> Result<Problem, Fail> {
    let initial = state(rt, alloc, &task.initial)?;
    let actions = actions(rt, alloc, task.acts)?;
    let costs = list(alloc, task.costs)?;
    Ok(posed(rt, initial, actions, costs, Formula::atom(AtomId { n: 0 })))
}

pub fn plan(alloc: Global, places: &[u32]) -> Result<Plan, OutOfMemory> {
    let mut plan = List::new(alloc);
    for n in places {
        plan.push(ActionId { n: *n })?;
    }
    Ok(plan)
}

// The action so many times.
pub fn repeated(alloc: Global, n: u32, times: u32) -> Result<Plan, OutOfMemory> {
    let mut plan = List::new(alloc);
    for _time in 0..times {
        plan.push(ActionId { n })?;
    }
    Ok(plan)
}
