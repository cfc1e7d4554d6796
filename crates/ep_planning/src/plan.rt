// `plan FILE` and its options.
ghost use Rattle.std.specs.Prelude.{◌≡◌, ◌<◌, ◌≤◌, [], ◌∷◌, IfOk, length};
ghost use Rattle.ep_base.specs.Counts.{Rose};
ghost use Rattle.ep_search.specs.Allowed.{Allowed, WasAsked};
ghost use Rattle.ep_bounds.specs.Bounds.{IsBounds};
ghost use Rattle.ep_planning.specs.Planning.{Guided};
ghost use Rattle.ep_reading.specs.Guides.{AnswerNeeds, ResultNeeds};
ghost use Rattle.ep_planning.specs.Asked.{KeepsBut, WasAskedAt};
ghost use Rattle.ep_planning.specs.Planning.{HasItsActions, Plans, planned_of};
ghost use Rattle.ep_reading.specs.Fetches.{Fetches};
ghost use Rattle.ep_reading.specs.Run.{GoesOn};
ghost use Rattle.ep_reading.specs.Served.{TaskFile, answers};
ghost use Rattle.ep_reading.specs.Steps.{OnlyFile, Serves};
ghost use Rattle.ep_answer.specs.declared.cause.Subject.TheVariants.{Task as OfTask};

use ep_answer::{Answer, Planned, Stop};
use ep_bounds::{Bounds, Mode};
use ep_ground::{Problem, Task};
use ep_guide::Guide;
use ep_io::Library;
use ep_logic::{OutOfMemory, Steps};
use ep_plan_text::{Mark, print_actions, print_plan};
use ep_reading::read_task_file;
use ep_search::{Answer as Found, search};
use std::alloc::Global;
use std::marker::Brand;
use std::sync::ledger::{Blank, Ledger};

/// What is reported of an answer of the search within the bounds.
pub fn print_answer(
    alloc: Global,
    task: &Task,
    bounds: Bounds,
    found: &Found,
) -> Result<Planned, OutOfMemory>
    requires { HasItsActions task.now found.now }
    ensures { IfOk result (λ planned. planned ≡ planned_of task.now bounds found.now) }
{
    let Bounds { measure, bound, .. } = bounds;
    match found {
        Found::Least(plan) => {
            let text = print_plan(alloc, task, plan, Mark::Least, measure)?;
            Ok(Planned::Plan(text))
        }
        Found::Found(plan) => {
            let text = print_plan(alloc, task, plan, Mark::Found, measure)?;
            Ok(Planned::Plan(text))
        }
        Found::NoneTo => Ok(Planned::NoneTo { measure, bound }),
        Found::ManyStates => Ok(Planned::ManyStates),
        Found::Wide(plan) => Ok(Planned::WideAfter {
            count: plan.as_slice().len(),
            actions: print_actions(alloc, task, plan)?,
        }),
    }
}

// Searches, on a counter of its own.
fn search_on<L: Ledger>(
    alloc: Global,
    problem: &Problem,
    bounds: Bounds,
    mode: Mode,
    guide: &mut Box<dyn Guide>,
    blank: Blank,
) -> Result<Found, OutOfMemory>
    requires bounds { IsBounds bounds }
    requires name { blank.name ≡ L.name }
    requires parts { blank.parts ≡ L.parts }
    requires some { 0 < L.parts }
    ensures allowed { IfOk result (Allowed problem.now bounds mode) }
    ensures asked { IfOk result (λ found. WasAsked bounds.bound found (asked guide.old) (asked guide.new)) }
    ensures grows { asked guide.old ≤ asked guide.new }
{
    let mut steps = Steps::<L>::new(blank);
    search(alloc, problem, bounds, mode, guide, &mut steps)
}

/// Searches for a plan.
pub fn search_plan(
    alloc: Global,
    problem: &Problem,
    bounds: Bounds,
    mode: Mode,
    guide: &mut Box<dyn Guide>,
) -> Result<Found, OutOfMemory>
    requires { IsBounds bounds }
    ensures allowed { IfOk result (Allowed problem.now bounds mode) }
    ensures asked { IfOk result (λ found. WasAsked bounds.bound found (asked guide.old) (asked guide.new)) }
    ensures grows { asked guide.old ≤ asked guide.new }
{
    search_on::<Brand>(alloc, problem, bounds, mode, guide, Blank::new(1))
}

// The answer of planning within the bounds.
fn plan_task(
    alloc: Global,
    task: &Task,
    bounds: Bounds,
    mode: Mode,
    guide: &mut Box<dyn Guide>,
) -> Result<Answer, OutOfMemory>
    requires { IsBounds bounds }
    ensures plans { IfOk result (λ answer. Plans bounds mode task.now (answers answer)) }
    ensures asked { IfOk result (λ answer. 1 ≤ bounds.bound → AnswerNeeds answer → Rose (asked guide.old) (asked guide.new)) }
    ensures grows { asked guide.old ≤ asked guide.new }
{
    task.known();
    let found = search_plan(alloc, task.problem(), bounds, mode, guide)?;
    let planned = print_answer(alloc, task, bounds, &found)?;
    Ok(Answer::OfSearch(planned))
}

// The answer of planning for the task of a file.
fn plan_file<L: Library>(
    alloc: Global,
    files: &mut L,
    file: &str,
    bounds: Bounds,
    mode: Mode,
    guide: &mut Box<dyn Guide>,
) -> Result<Answer, Stop>
    requires { IsBounds bounds }
    ensures goes_on { GoesOn (L.library files.old) (L.library files.new) }
    ensures fetches { Fetches (file.now ∷ []) (L.library files.old) (L.library files.new) }
    ensures answer { Serves (λ held. TaskFile held file.now (Plans bounds mode)) (OnlyFile OfTask file.now) ⊥ (L.library files.old) (L.library files.new) result }
    ensures asked { 1 ≤ bounds.bound → ResultNeeds result → Rose (asked guide.old) (asked guide.new) }
    ensures grows { asked guide.old ≤ asked guide.new }
{
    let task = read_task_file(alloc, files, file)?;
    let answer = plan_task(alloc, &task, bounds, mode, guide)?;
    Ok(answer)
}

/// The answer of planning for the task of a file, with the guide at a place, if there is one.
pub fn plan_by_guide<L: Library>(
    alloc: Global,
    files: &mut L,
    file: &str,
    bounds: Bounds,
    mode: Mode,
    guides: &mut Vec<Box<dyn Guide>>,
    place: usize,
) -> Result<Answer, Stop>
    requires { IsBounds bounds }
    ensures goes_on { GoesOn (L.library files.old) (L.library files.new) }
    ensures fetches { Fetches (file.now ∷ []) (L.library files.old) (L.library files.new) }
    ensures answer { Serves (λ held. Guided (length guides.old.items) place (TaskFile held file.now (Plans bounds mode))) (OnlyFile OfTask file.now) (length guides.old.items ≤ place) (L.library files.old) (L.library files.new) result }
    ensures asked { 1 ≤ bounds.bound → ResultNeeds result → WasAskedAt (λ g. asked g) guides.old.items guides.new.items place }
    ensures others { KeepsBut (λ g. asked g) (λ other. other ≡ place) guides.old.items guides.new.items }
{
    if place >= guides.len() {
        return Ok(Answer::NoSuchGuide);
    }
    plan_file(alloc, files, file, bounds, mode, &mut guides[place])
}
