// The search, from its bounds to its answer.

ghost use Rattle.std.specs.Prelude.{◌≡◌, ◌+◌, ◌*◌, ◌<◌, ◌≤◌, IfOk, OnOk, length};
ghost use Rattle.ep_base.specs.Counts.{Rose};
ghost use Rattle.ep_theory.specs.Canonical.{IsCanonical};
ghost use Rattle.ep_theory.specs.Truth.{Satisfies};
ghost use Rattle.ep_search.specs.Alike.{Alike};
ghost use Rattle.ep_search.specs.Allowed.{Allowed, WasAsked, Completes};
ghost use Rattle.ep_search.specs.Setting.{IsSetting};
ghost use Rattle.ep_bounds.specs.Bounds.{IsBounds};
ghost use Rattle.ep_search.specs.Progresses.{Keeps, CoversAll, spent};

use crate::answer::Answer;
use crate::ask::{Met, enqueue};
use crate::goal::count_unmet;
use crate::parts::goal_parts;
use crate::progress::Progress;
use crate::run::run;
use crate::setting::Setting;
use ep_bounds::{Bounds, Mode};
use ep_canon::{Canon, contract};
use ep_guide::{Frontier, Guide};
use ep_logic::{List, OutOfMemory, StateId, Steps};
use ep_problem::Problem;
use ep_store::Store;
use std::alloc::{AllocError, Global};
use std::sync::ledger::Ledger;

/// Looks for a plan by best-first search under the measure of the bounds: each state that is stored below the bound is
/// scored by the guide, and the state with the least score is expanded next. A state that is made is tested for the
/// goal, then for its worlds, and then stored with its weight, which is what the way to it measures. An action that
/// leads past the bound is not tried; each that is tried ticks the counter once. The only error is want of memory. That
/// no guide can make an answer false, and the bounds on states and worlds, are this project's own.
pub fn search<L: Ledger>(
    alloc: Global,
    problem: &Problem,
    bounds: Bounds,
    mode: Mode,
    guide: &mut Box<dyn Guide>,
    steps: &mut Steps<L>,
) -> Result<Answer, OutOfMemory>
    requires { IsBounds bounds }
    ensures allowed { IfOk result (Allowed problem.now bounds mode) }
    ensures complete { IfOk result (Completes problem.now bounds mode) }
    ensures steps { steps.new ≤ steps.old + bounds.states * bounds.bound * length problem.now.actions }
    ensures asked { IfOk result (λ answer. WasAsked bounds.bound answer (asked guide.old) (asked guide.new)) }
    ensures grows { asked guide.old ≤ asked guide.new }
{
    let setting = Setting {
        bounds,
        mode,
        parts: goal_parts(alloc, problem.goal())?,
    };
    answer(alloc, problem, &setting, guide, steps)
}

// The search, once the goal's parts are known.
fn answer<L: Ledger>(
    alloc: Global,
    problem: &Problem,
    setting: &Setting,
    guide: &mut Box<dyn Guide>,
    steps: &mut Steps<L>,
) -> Result<Answer, OutOfMemory>
    requires { IsSetting problem.now setting.now }
    ensures allowed { IfOk result (Allowed problem.now setting.now.bounds setting.now.mode) }
    ensures steps { steps.new ≤ steps.old
        + setting.now.bounds.states * setting.now.bounds.bound * length problem.now.actions }
    ensures asked { IfOk result (λ answer. WasAsked setting.now.bounds.bound answer (asked guide.old) (asked guide.new)) }
    ensures grows { asked guide.old ≤ asked guide.new }
{
    let unmet = count_unmet(alloc, problem.initial(), setting.parts.as_slice())?;
    if unmet == 0 {
        guide.met(0);
        return match setting.mode {
            Mode::Prove => Ok(Answer::Least(List::new(alloc))),
            Mode::First => Ok(Answer::Found(List::new(alloc))),
        };
    }
    let canon = contract(alloc, problem.initial())?;
    if setting.bounds.worlds < canon.state().worlds() {
        return Ok(Answer::Wide(List::new(alloc)));
    }
    let mut p = start(alloc, problem, setting, guide, canon, unmet)?;
    run(alloc, problem, setting, guide, steps, &mut p)
}

// The initial state is stored, and waits if the bound is not 0.
fn start(
    alloc: Global,
    problem: &Problem,
    setting: &Setting,
    guide: &mut Box<dyn Guide>,
    canon: Canon,
    unmet: u32,
) -> Result<Progress, OutOfMemory>
    requires setting { IsSetting problem.now setting.now }
    requires canonical { IsCanonical canon }
    requires alike { Alike problem.now.initial canon }
    requires unmet { Satisfies canon problem.now.goal → ⊥ }
    requires narrow { canon.worlds ≤ setting.now.bounds.worlds }
    ensures keeps { IfOk result (Keeps problem.now setting.now.bounds) }
    ensures covers { IfOk result (CoversAll problem.now setting.now.bounds) }
    ensures fresh { IfOk result (λ p. spent setting.now.bounds.bound p.expanded.items ≡ 0) }
    ensures asked { OnOk result (1 ≤ setting.now.bounds.bound → Rose (asked guide.old) (asked guide.new)) }
    ensures grows { asked guide.old ≤ asked guide.new }
{
    let mut store = Store::new(alloc, setting.bounds.states);
    match store.add(canon, 0, None) {
        Ok(_added) => {}
        Err(_refused) => return Err(OutOfMemory {}),
    }
    let mut expanded = Vec::new(alloc);
    expanded
        .push(setting.bounds.bound)
        .map_err(AllocError::from)?;
    let mut p = Progress {
        store,
        frontier: Frontier::new(alloc),
        expanded,
        best: None,
        least: setting.bounds.bound + 1,
    };
    if 0 < setting.bounds.bound {
        let met = Met {
            id: StateId { n: 0 },
            weight: 0,
            unmet,
            parts: setting.parts.as_slice().len() as u32,
        };
        enqueue(guide, &mut p, met)?;
    }
    Ok(p)
}
