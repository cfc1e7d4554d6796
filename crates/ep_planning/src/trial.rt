// `trial N`.
ghost use Rattle.std.specs.Prelude.{◌≡◌, ◌<◌, ◌≤◌, length, IfOk};
ghost use Rattle.ep_search.specs.Allowed.{Allowed};
ghost use Rattle.ep_bounds.specs.declared.bounds.Mode.TheVariants as mode;
ghost use Rattle.ep_theory.specs.Canonical.{Contracts};
ghost use Rattle.ep_theory.specs.Kripke.{Kripke};
ghost use Rattle.ep_trial.specs.TrialText.{trial_text};
ghost use Rattle.ep_planning.specs.Asked.{KeepsBut};
ghost use Rattle.ep_planning.specs.Planning.{Guided};
ghost use Rattle.ep_planning.specs.Planning.{HasItsActions};
ghost use Rattle.ep_planning.specs.Trials.{IsTrial, TrialEnds, Tries, trial_bounds};
ghost use Rattle.ep_reading.specs.Served.{TaskRead, answers};
ghost use Rattle.ep_reading.specs.Steps.{EndsBy};

use crate::plan::{print_answer, search_plan};
use ep_answer::{Answer, Stop, Trial, TrialEnd};
use ep_base::OutOfMemory;
use ep_bounds::{Bounds, Measure, Mode};
use ep_canon::contract;
use ep_ground::Task;
use ep_guide::Guide;
use ep_reading::{judge, read_task};
use ep_search::Answer as Found;
use ep_trial::trial_text;
use std::alloc::Global;

// The number of worlds of the contraction of the initial state.
fn count_contracted(alloc: Global, task: &Task) -> Result<u32, OutOfMemory>
    ensures { IfOk result (λ n. (C : Kripke) × Contracts task.now.problem.initial C × (n ≡ C.worlds)) }
{
    let canon = contract(alloc, task.problem().initial())?;
    Ok(canon.state().worlds())
}

// The bounds of a trial with so many children.
fn bounds_of(children: u32) -> Bounds
    ensures { result ≡ trial_bounds children }
{
    Bounds {
        measure: Measure::Length,
        bound: children,
        states: 1000,
        worlds: 256,
    }
}

fn end_trial(
    alloc: Global,
    task: &Task,
    children: u32,
    found: &Found,
) -> Result<TrialEnd, OutOfMemory>
    requires children { children ≤ 8 }
    requires actions { HasItsActions task.now found.now }
    requires allowed { Allowed task.now.problem (trial_bounds children) mode.Prove found.now }
    ensures { IfOk result (TrialEnds task.now children found.now) }
{
    match found {
        Found::Least(plan) => Ok(TrialEnd::Solved {
            length: plan.as_slice().len() as u64,
            verdict: judge(alloc, task, plan)?,
        }),
        _ => Ok(TrialEnd::Open(print_answer(alloc, task, bounds_of(children), found)?)),
    }
}

fn try_task(
    alloc: Global,
    task: &Task,
    children: u32,
    guide: &mut Box<dyn Guide>,
) -> Result<Trial, OutOfMemory>
    requires { children ≤ 8 }
    ensures trial { IfOk result (IsTrial children task.now) }
    ensures grows { asked guide.old ≤ asked guide.new }
{
    task.known();
    let contracted = count_contracted(alloc, task)?;
    let found = search_plan(
        alloc,
        task.problem(),
        bounds_of(children),
        Mode::Prove,
        guide,
    )?;
    Ok(Trial {
        children,
        worlds: task.initial().worlds(),
        contracted,
        end: end_trial(alloc, task, children, &found)?,
    })
}

fn run_trial(alloc: Global, children: u32, guide: &mut Box<dyn Guide>) -> Result<Answer, Stop>
    requires { children ≤ 8 }
    ensures answer { EndsBy (TaskRead (trial_text children) (Tries children)) result }
    ensures grows { asked guide.old ≤ asked guide.new }
{
    let text = trial_text(alloc, children)?;
    let task = read_task(alloc, text.as_slice())?;
    let trial = try_task(alloc, &task, children, guide)?;
    Ok(Answer::Tried(trial))
}

/// The trial with so many children, by the first guide, if there is one.
pub fn try_by_guide(
    alloc: Global,
    children: u32,
    guides: &mut Vec<Box<dyn Guide>>,
) -> Result<Answer, Stop>
    requires { children ≤ 8 }
    ensures answer { EndsBy (Guided (length guides.old.items) 0 (TaskRead (trial_text children) (Tries children))) result }
    ensures others { KeepsBut (λ g. asked g) (λ other. other ≡ 0) guides.old.items guides.new.items }
{
    if guides.len() == 0 {
        return Ok(Answer::NoSuchGuide);
    }
    run_trial(alloc, children, &mut guides[0])
}
