// An entry whose actions are tried.

ghost use Rattle.std.specs.Prelude.{◌≡◌, ◌+◌, ◌<◌, ◌≤◌, IfOk, length, slice_index};
ghost use Rattle.ep_store.specs.Stored.{Has};
ghost use Rattle.ep_search.specs.Kept.{Kept};
ghost use Rattle.ep_search.specs.Setting.{IsSetting};
ghost use Rattle.ep_search.specs.Progresses.{Keeps, CoversBut, MayStep, TriedTo, ExpandedTo};

use crate::answer::Answer;
use crate::child::{met_goal, stop_wide, store_child};
use crate::goal::count_unmet;
use crate::made::make;
use crate::progress::Progress;
use crate::setting::Setting;
use crate::toll::toll;
use ep_canon::contract;
use ep_guide::Guide;
use ep_logic::{ActionId, OutOfMemory, StateId, Steps};
use ep_problem::Problem;
use ep_store::Step;
use std::alloc::Global;
use std::sync::ledger::Ledger;

// Takes a step from an entry.
pub fn try_step<L: Ledger>(
    alloc: Global,
    problem: &Problem,
    setting: &Setting,
    guide: &mut Box<dyn Guide>,
    steps: &mut Steps<L>,
    p: &mut Progress,
    step: Step,
) -> Result<Option<Answer>, OutOfMemory>
    requires setting { IsSetting problem.now setting.now }
    requires keeps { Keeps problem.now setting.now.bounds p.old }
    requires covers { CoversBut problem.now setting.now.bounds p.old step.parent.n }
    requires entry { Has p.old.store.entries step.parent.n (MayStep problem.now setting.now.bounds step) }
    requires action { step.action.n < length problem.now.actions }
    ensures tried { IfOk result (TriedTo problem.now setting.now.bounds setting.now.mode p.old p.new step.parent.n
        step.action) }
    ensures asked { Kept (asked guide.old) (asked guide.new) }
    ensures step { steps.new ≡ steps.old + 1 }
{
    let action = problem.action(step.action);
    let made = make(alloc, p.store.get(step.parent).state(), action, steps)?;
    let Some(child) = made else {
        return Ok(None);
    };
    let unmet = count_unmet(alloc, &child, setting.parts.as_slice())?;
    if unmet == 0 {
        return met_goal(alloc, problem, setting, guide, p, step);
    }
    let canon = contract(alloc, &child)?;
    if setting.bounds.worlds < canon.state().worlds() {
        let answer = stop_wide(alloc, problem, setting, p, step, &canon)?;
        return Ok(Some(answer));
    }
    store_child(problem, setting, guide, p, step, canon, unmet)
}

// Tries an action in an entry, if it does not lead past the bound.
pub fn try_action<L: Ledger>(
    alloc: Global,
    problem: &Problem,
    setting: &Setting,
    guide: &mut Box<dyn Guide>,
    steps: &mut Steps<L>,
    p: &mut Progress,
    id: StateId,
    a: ActionId,
) -> Result<Option<Answer>, OutOfMemory>
    requires setting { IsSetting problem.now setting.now }
    requires keeps { Keeps problem.now setting.now.bounds p.old }
    requires covers { CoversBut problem.now setting.now.bounds p.old id.n }
    requires entry { Has p.old.store.entries id.n (λ e. e.weight < setting.now.bounds.bound) }
    requires action { a.n < length problem.now.actions }
    ensures tried { IfOk result (TriedTo problem.now setting.now.bounds setting.now.mode p.old p.new id.n a) }
    ensures asked { Kept (asked guide.old) (asked guide.new) }
    ensures step { steps.new ≤ steps.old + 1 }
{
    let toll = toll(problem, setting.bounds.measure, a);
    if setting.bounds.bound < p.store.weight(id) + toll {
        return Ok(None);
    }
    let step = Step {
        parent: id,
        action: a,
        toll,
    };
    try_step(alloc, problem, setting, guide, steps, p, step)
}

// Tries each action in an entry, in the problem's order.
pub fn expand<L: Ledger>(
    alloc: Global,
    problem: &Problem,
    setting: &Setting,
    guide: &mut Box<dyn Guide>,
    steps: &mut Steps<L>,
    p: &mut Progress,
    id: StateId,
    weight: u32,
) -> Result<Option<Answer>, OutOfMemory>
    requires setting { IsSetting problem.now setting.now }
    requires keeps { Keeps problem.now setting.now.bounds p.old }
    requires covers { CoversBut problem.now setting.now.bounds p.old id.n }
    requires entry { Has p.old.store.entries id.n (λ e. (e.weight ≡ weight) × (e.weight < setting.now.bounds.bound)) }
    requires unmarked { weight < slice_index p.old.expanded.items id.n }
    ensures expanded { IfOk result (ExpandedTo problem.now setting.now.bounds setting.now.mode p.old p.new) }
    ensures asked { Kept (asked guide.old) (asked guide.new) }
    ensures steps { steps.new ≤ steps.old + length problem.now.actions }
{
    p.expanded[id.n as usize] = weight;
    for n in 0..problem.actions() {
        let tried = try_action(alloc, problem, setting, guide, steps, p, id, ActionId { n })?;
        if let Some(answer) = tried {
            return Ok(Some(answer));
        }
    }
    Ok(None)
}
