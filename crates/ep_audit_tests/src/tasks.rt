//! Tasks of two agents, Ann and Bob, where Bob is to know that a coin shows heads.

ghost use Rattle.std.specs.Prelude.{◌≤◌};
ghost use Rattle.std.specs.List.{AllByRecursion};

use crate::states::initial;
use ep_event::Action;
use ep_kripke::State;
use ep_logic::{AgentId, Agents, AtomId, Formula, List, OutOfMemory, Text};
use ep_problem::{Problem, actions_fit};
use ep_truth::fits;
use std::alloc::Global;
use std::process::Abort;
use std::test::Fail;

#[derive(Clone, Copy)]
pub enum Act {
    /// Ann looks at the coin, and Bob sees that she does.
    Look,
    /// It is said that the coin does not show heads, which is false.
    Deny,
}

/// The printed names of the actions, and their costs.
#[derive(Clone, Copy)]
pub struct Task {
    pub name: &'static str,
    pub acts: &'static [(Act, &'static str, u32)],
}

pub const LOOK: Task = Task {
    name: "look",
    acts: &[(Act::Look, "look", 1)],
};

// With the bound 2, the second action is past it where something was done before.
pub const TALK: Task = Task {
    name: "talk",
    acts: &[(Act::Look, "look", 1), (Act::Deny, "deny", 2)],
};

/// What a named task is made of.
pub struct Made {
    pub name: Text,
    pub problem: Problem,
    pub action_names: List<Text>,
}

impl Drop for Made {
    fn drop(self) {
        let Made {
            name: _name,
            problem: _problem,
            action_names: _action_names,
        } = self;
    }
}

fn text(rt: &impl Abort, alloc: Global, word: &str) -> Result<Text, Fail> {
    let bytes = Vec::from_slice(alloc, word.as_bytes())?;
    assert!(rt; bytes.iter().all(|b| *b < 128));
    Ok(Text::from_vec(bytes))
}

fn look(rt: &impl Abort, alloc: Global) -> Result<Action, Fail> {
    let ann = Agents::none().with(AgentId { n: 0 });
    assert!(rt; !ann.is_empty() && ann.is_within(2));
    let heads = Formula::atom(AtomId { n: 0 });
    assert!(rt; heads.depth() < 128 && heads.nodes() < 131_072);
    Ok(Action::sense(alloc, 2, heads, ann)?)
}

fn deny(alloc: Global) -> Result<Action, Fail> {
    let tails = Formula::not(alloc, Formula::atom(AtomId { n: 0 }))?;
    Ok(Action::announce(alloc, 2, tails)?)
}

fn actions(rt: &impl Abort, alloc: Global, task: &Task) -> Result<List<Action>, Fail> {
    let mut actions = List::new(alloc);
    for (act, _name, _cost) in task.acts {
        let action = match act {
            Act::Look => look(rt, alloc)?,
            Act::Deny => deny(alloc)?,
        };
        actions.push(action)?;
    }
    Ok(actions)
}

fn names(rt: &impl Abort, alloc: Global, task: &Task) -> Result<List<Text>, Fail> {
    let mut names = List::new(alloc);
    for (_act, name, _cost) in task.acts {
        names.push(text(rt, alloc, *name)?)?;
    }
    Ok(names)
}

fn costs(alloc: Global, task: &Task) -> Result<List<u32>, OutOfMemory> {
    let mut costs = List::new(alloc);
    for (_act, _name, cost) in task.acts {
        costs.push(*cost)?;
    }
    Ok(costs)
}

fn check_costs(rt: &impl Abort, costs: &[u32])
    ensures least { AllByRecursion (λ cost. 1 ≤ cost) costs.now }
    ensures most { AllByRecursion (λ cost. cost ≤ 100) costs.now }
{
    for cost in costs {
        assert!(rt; 1 <= *cost && *cost <= 100);
    }
}

fn posed(
    rt: &impl Abort,
    initial: State,
    actions: List<Action>,
    costs: List<u32>,
    goal: Formula,
) -> Problem {
    assert!(rt; initial.worlds() <= 256 && actions.as_slice().len() <= 1024);
    assert!(rt; actions_fit(&initial, actions.as_slice()) && fits(&initial, &goal));
    assert!(rt; costs.as_slice().len() == actions.as_slice().len());
    check_costs(rt, costs.as_slice());
    Problem::new(initial, actions, costs, goal)
}

fn problem(rt: &impl Abort, alloc: Global, task: &Task) -> Result<Problem, Fail> {
    let goal = Formula::knows(alloc, AgentId { n: 1 }, Formula::atom(AtomId { n: 0 }))?;
    let initial = initial(rt, alloc)?;
    let actions = actions(rt, alloc, task)?;
    let costs = costs(alloc, task)?;
    Ok(posed(rt, initial, actions, costs, goal))
}

pub fn build(rt: &impl Abort, alloc: Global, task: &Task) -> Result<Made, Fail> {
    Ok(Made {
        name: text(rt, alloc, task.name)?,
        problem: problem(rt, alloc, task)?,
        action_names: names(rt, alloc, task)?,
    })
}
