// What becomes of a state that a step leads to.

ghost use Rattle.std.specs.Prelude.{◌<◌, ◌≤◌, IfOk};
ghost use Rattle.ep_theory.specs.Canonical.{IsCanonical};
ghost use Rattle.ep_theory.specs.Truth.{Satisfies};
ghost use Rattle.ep_store.specs.Stored.{Has};
ghost use Rattle.ep_search.specs.Allowed.{Allowed};
ghost use Rattle.ep_search.specs.Kept.{Kept};
ghost use Rattle.ep_search.specs.Setting.{IsSetting};
ghost use Rattle.ep_search.specs.Sound.{Leads};
ghost use Rattle.ep_search.specs.Progresses.{Keeps, CoversBut, TriedTo, MayStep, LeadsToGoal};

use crate::answer::Answer;
use crate::ask::{Met, enqueue};
use crate::plan::plan_by;
use crate::progress::Progress;
use crate::setting::Setting;
use ep_bounds::Mode;
use ep_canon::Canon;
use ep_guide::Guide;
use ep_logic::OutOfMemory;
use ep_problem::Problem;
use ep_store::{Added, Step, StoreError};
use std::alloc::{AllocError, Global};

// A step leads to the goal.
pub fn met_goal(
    alloc: Global,
    problem: &Problem,
    setting: &Setting,
    guide: &mut Box<dyn Guide>,
    p: &mut Progress,
    step: Step,
) -> Result<Option<Answer>, OutOfMemory>
    requires setting { IsSetting problem.now setting.now }
    requires keeps { Keeps problem.now setting.now.bounds p.old }
    requires covers { CoversBut problem.now setting.now.bounds p.old step.parent.n }
    requires leads { Has p.old.store.entries step.parent.n (λ e. MayStep problem.now setting.now.bounds step e
        × LeadsToGoal problem.now e.canon step.action) }
    ensures tried { IfOk result (TriedTo problem.now setting.now.bounds setting.now.mode p.old p.new step.parent.n step.action) }
    ensures asked { Kept (asked guide.old) (asked guide.new) }
{
    guide.met(p.store.weight(step.parent) + step.toll);
    let plan = plan_by(alloc, &p.store, step)?;
    if let Mode::First = setting.mode {
        return Ok(Some(Answer::Found(plan)));
    }
    let weight = problem.weigh(plan.as_slice(), setting.bounds.measure);
    if weight < p.least {
        p.least = weight;
        p.best = Some(plan);
    }
    Ok(None)
}

// A state that a step leads to is too wide.
pub fn stop_wide(
    alloc: Global,
    problem: &Problem,
    setting: &Setting,
    p: &mut Progress,
    step: Step,
    canon: &Canon,
) -> Result<Answer, OutOfMemory>
    requires setting { IsSetting problem.now setting.now }
    requires keeps { Keeps problem.now setting.now.bounds p.old }
    requires canonical { IsCanonical canon.now }
    requires unmet { Satisfies canon.now problem.now.goal → ⊥ }
    requires wide { setting.now.bounds.worlds < canon.now.worlds }
    requires leads { Has p.old.store.entries step.parent.n (λ e. MayStep problem.now setting.now.bounds step e
        × Leads problem.now e.canon step.action canon.now) }
    ensures { IfOk result (Allowed problem.now setting.now.bounds setting.now.mode) }
{
    match p.best.take() {
        Some(plan) => Ok(Answer::Found(plan)),
        None => {
            let plan = plan_by(alloc, &p.store, step)?;
            Ok(Answer::Wide(plan))
        }
    }
}

// Stores a state that a step leads to, where so many parts of the goal are not true.
pub fn store_child(
    problem: &Problem,
    setting: &Setting,
    guide: &mut Box<dyn Guide>,
    p: &mut Progress,
    step: Step,
    canon: Canon,
    unmet: u32,
) -> Result<Option<Answer>, OutOfMemory>
    requires setting { IsSetting problem.now setting.now }
    requires keeps { Keeps problem.now setting.now.bounds p.old }
    requires covers { CoversBut problem.now setting.now.bounds p.old step.parent.n }
    requires canonical { IsCanonical canon }
    requires unmet { Satisfies canon problem.now.goal → ⊥ }
    requires narrow { canon.worlds ≤ setting.now.bounds.worlds }
    requires leads { Has p.old.store.entries step.parent.n (λ e. MayStep problem.now setting.now.bounds step e
        × Leads problem.now e.canon step.action canon) }
    ensures tried { IfOk result (TriedTo problem.now setting.now.bounds setting.now.mode p.old p.new step.parent.n step.action) }
    ensures asked { Kept (asked guide.old) (asked guide.new) }
{
    let weight = p.store.weight(step.parent) + step.toll;
    let parts = setting.parts.as_slice().len() as u32;
    match p.store.add(canon, weight, Some(step)) {
        Ok(Added::New(child)) => {
            p.expanded
                .push(setting.bounds.bound)
                .map_err(AllocError::from)?;
            if weight < setting.bounds.bound {
                enqueue(
                    guide,
                    p,
                    Met {
                        id: child,
                        weight,
                        unmet,
                        parts,
                    },
                )?;
            }
            Ok(None)
        }
        Ok(Added::Better(child)) => {
            enqueue(
                guide,
                p,
                Met {
                    id: child,
                    weight,
                    unmet,
                    parts,
                },
            )?;
            Ok(None)
        }
        Ok(Added::Known(_)) => Ok(None),
        Err(StoreError::Full(_canon)) => match p.best.take() {
            Some(plan) => Ok(Some(Answer::Found(plan))),
            None => Ok(Some(Answer::ManyStates)),
        },
        Err(StoreError::OutOfMemory(_canon)) => Err(OutOfMemory {}),
    }
}
