ghost use Rattle.std.specs.Prelude.{◌≡◌, ◌↔◌, IsTrue, ◌+◌, ◌<◌, ◌≤◌, ◌^◌, Some, length, slice_get, unwrap_or, IfOk, IfErr, OnErr};
ghost use Rattle.ep_kripke.specs.declared.limits.TheConstants.{MOST_WORLDS};
ghost use Rattle.ep_theory.specs.Events.{EventModel};
ghost use Rattle.ep_theory.specs.Product.{IsApplicable, product_of};
ghost use Rattle.ep_base.specs.Refusals.{OrWant};
ghost use Rattle.ep_update.specs.Updates.{IsWithin, IsFault};
ghost use Rattle.ep_update.specs.declared.update.UpdateError.TheVariants as refused;
ghost use Rattle.ep_theory.specs.PlanningTask.{IsPlanningTask, IsS5Task};
ghost use Rattle.ep_plan.specs.Runs.{RunUnder, AreOf, product_count};
ghost use Rattle.ep_plan.specs.Stops.{stop_of};
ghost use Rattle.ep_plan.specs.Truthful.{LeavesTruthful};

use ep_kripke::State;
use ep_logic::{ActionId, OutOfMemory, Steps};
use ep_problem::{Plan, Problem};
use ep_update::{Size, UpdateError, product};
use std::alloc::Global;
use std::sync::ledger::Ledger;

/// What a run under a size comes to. A step is counted from 1, and `worlds` and `links` are the exact numbers of the
/// product that is too large.
#[derive(Drop)]
pub enum Outcome {
    After(State),
    Stuck { step: u32 },
    SpentWorlds { step: u32, worlds: u64 },
    SpentLinks { step: u32, links: u64 },
}

/// Whether every action of the plan is one of the problem's.
pub fn plan_fits(problem: &Problem, plan: &[ActionId]) -> bool
    ensures { IsTrue result ↔ AreOf problem.now plan.now }
{
    for place in plan {
        if place.n >= problem.actions() {
            return false;
        }
    }
    true
}

/// Runs the plan by plain products, and builds none that is larger than the size. The counter ticks once for each
/// product that is asked for. The problem's own state is copied only where the plan is empty.
pub fn run_plan<L: Ledger>(
    alloc: Global,
    problem: &Problem,
    plan: &Plan,
    size: Size,
    steps: &mut Steps<L>,
) -> Result<Outcome, OutOfMemory>
    requires length { length plan.now < 2 ^ 32 }
    requires actions { AreOf problem.now plan.now }
    requires worlds { size.worlds ≤ MOST_WORLDS }
    requires links { size.links < 2 ^ 32 }
    ensures run { IfOk result (RunUnder problem.now plan.now size) }
    ensures truthful { IsS5Task problem.now → IfOk result LeavesTruthful }
    ensures products { IfOk result (λ o. steps.new ≡ steps.old + product_count (length plan.now) o) }
    ensures most { steps.new ≤ steps.old + length plan.now }
    ensures rises { steps.old ≤ steps.new }
{
    problem.known();
    let mut made: Option<State> = None;
    for (before, place) in plan.as_slice().iter().enumerate() {
        let state = reached(problem, &made);
        match next(alloc, problem, state, *place, size, steps) {
            Ok(product) => made = Some(product),
            Err(error) => return stopped(before as u32 + 1, error),
        }
    }
    match made {
        Some(state) => Ok(Outcome::After(state)),
        None => Ok(Outcome::After(problem.initial().copy(alloc)?)),
    }
}

// The last product, or before the first the problem's own state.
fn reached<'a>(problem: &'a Problem, made: &'a Option<State>) -> &'a State
    ensures value { result.now ≡ unwrap_or made.now problem.now.initial }
    ensures valid { IsPlanningTask problem.now }
{
    let initial = problem.initial();
    match made {
        Some(state) => state,
        None => initial,
    }
}

// The product of the state with the action at this place.
fn next<L: Ledger>(
    alloc: Global,
    problem: &Problem,
    state: &State,
    place: ActionId,
    size: Size,
    steps: &mut Steps<L>,
) -> Result<State, UpdateError>
    requires place { place.n < length problem.now.actions }
    requires agents { state.now.agents ≡ problem.now.initial.agents }
    requires atoms { state.now.atoms ≡ problem.now.initial.atoms }
    requires worlds { size.worlds ≤ MOST_WORLDS }
    requires links { size.links < 2 ^ 32 }
    ensures product { IfOk result (λ t. (A : EventModel) × (slice_get problem.now.actions place.n ≡ Some A)
        × IsApplicable state.now A × (t ≡ product_of state.now A) × IsWithin size t) }
    ensures refusal { IfErr result (λ e. (A : EventModel) × (slice_get problem.now.actions place.n ≡ Some A)
        × OrWant UpdateError.OutOfMemory (IsFault state.now A size) e) }
    ensures step { steps.new ≡ steps.old + 1 }
{
    let action = problem.action(place);
    product(alloc, state, action, size, steps)
}

// How a run stops at this step.
fn stopped(step: u32, error: UpdateError) -> Result<Outcome, OutOfMemory>
    ensures ok { IfOk result (λ o. stop_of step error ≡ Some o) }
    ensures err { OnErr result (error ≡ refused.OutOfMemory) }
{
    match error {
        UpdateError::Inapplicable { .. } => Ok(Outcome::Stuck { step }),
        UpdateError::TooManyWorlds { worlds } => Ok(Outcome::SpentWorlds { step, worlds }),
        UpdateError::TooManyLinks { links } => Ok(Outcome::SpentLinks { step, links }),
        UpdateError::OutOfMemory => Err(OutOfMemory {}),
    }
}
