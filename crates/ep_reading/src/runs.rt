// The run of a plan, and the verdict on it.
ghost use Rattle.std.specs.Prelude.{◌≡◌, ◌<◌, ◌≤◌, length, IfOk, MatchResult};
ghost use Rattle.ep_lex.specs.declared.limits.TheConstants.{MOST_TOKENS};
ghost use Rattle.ep_plan.specs.Runs.{AreOf, RunUnder};
ghost use Rattle.ep_plan.specs.Verdicts.{IsVerdict};
ghost use Rattle.ep_reading.specs.PlanFile.{AreItsActions, Ran, run_size};
ghost use Rattle.ep_reading.specs.Steps.{IsLeft, StopsBy, nothing_behind};

use ep_answer::{Answer, RunStop, Stop, Whose};
use ep_base::OutOfMemory;
use ep_ground::{Plan, Problem, Task};
use ep_kripke::State;
use ep_logic::Steps;
use ep_plan::{MOST_LINKS, Outcome, Verdict, run_plan, validate};
use ep_update::Size;
use std::alloc::Global;
use std::marker::Brand;
use std::sync::ledger::{Blank, Ledger};

// ---- runs

/// The most worlds of the states of a run whose end a command goes on with.
pub const MOST_RUN_WORLDS: u32 = 4_096;

const RUN_SIZE: Size = Size {
    worlds: MOST_RUN_WORLDS,
    links: MOST_LINKS,
};

// The run, on a counter of its own.
fn run_counting<L: Ledger>(
    alloc: Global,
    problem: &Problem,
    plan: &Plan,
    blank: Blank,
) -> Result<Outcome, OutOfMemory>
    requires length { length plan.now ≤ MOST_TOKENS }
    requires actions { AreOf problem.now plan.now }
    requires name { blank.name ≡ L.name }
    requires parts { blank.parts ≡ L.parts }
    requires some { 0 < L.parts }
    ensures { IfOk result (RunUnder problem.now plan.now run_size) }
{
    let mut steps = Steps::<L>::new(blank);
    run_plan(alloc, problem, plan, RUN_SIZE, &mut steps)
}

fn run_within(alloc: Global, problem: &Problem, plan: &Plan) -> Result<Outcome, OutOfMemory>
    requires length { length plan.now ≤ MOST_TOKENS }
    requires actions { AreOf problem.now plan.now }
    ensures { IfOk result (RunUnder problem.now plan.now run_size) }
{
    run_counting::<Brand>(alloc, problem, plan, Blank::new(1))
}

fn stop_of_run(whose: Whose, stop: RunStop) -> Stop
    ensures { result ≡ Stop.Told (Answer.Stopped whose stop) }
{
    Stop::Told(Answer::Stopped(whose, stop))
}

/// The state that the plan leaves.
pub fn run_to_end(alloc: Global, task: &Task, whose: Whose, plan: &Plan) -> Result<State, Stop>
    requires length { length plan.now ≤ MOST_TOKENS }
    requires actions { AreItsActions task.now plan.now }
    ensures { MatchResult result (IsLeft task.now plan.now) (StopsBy (Ran whose task.now plan.now nothing_behind)) }
{
    task.known();
    match run_within(alloc, task.problem(), plan)? {
        Outcome::After(state) => Ok(state),
        Outcome::Stuck { step } => Err(stop_of_run(whose, RunStop::Stuck { step })),
        Outcome::SpentWorlds { step, worlds } => {
            Err(stop_of_run(whose, RunStop::SpentWorlds { step, worlds }))
        }
        Outcome::SpentLinks { step, links } => {
            Err(stop_of_run(whose, RunStop::SpentLinks { step, links }))
        }
    }
}

// ---- verdicts

// The verdict, on a counter of its own.
fn judge_counting<L: Ledger>(
    alloc: Global,
    problem: &Problem,
    plan: &Plan,
    blank: Blank,
) -> Result<Verdict, OutOfMemory>
    requires length { length plan.now ≤ MOST_TOKENS }
    requires actions { AreOf problem.now plan.now }
    requires name { blank.name ≡ L.name }
    requires parts { blank.parts ≡ L.parts }
    requires some { 0 < L.parts }
    ensures { IfOk result (IsVerdict problem.now plan.now) }
{
    let mut steps = Steps::<L>::new(blank);
    validate(alloc, problem, plan, &mut steps)
}

/// The verdict on a plan of a task.
pub fn judge(alloc: Global, task: &Task, plan: &Plan) -> Result<Verdict, OutOfMemory>
    requires length { length plan.now ≤ MOST_TOKENS }
    requires actions { AreItsActions task.now plan.now }
    ensures { IfOk result (IsVerdict task.now.problem plan.now) }
{
    task.known();
    judge_counting::<Brand>(alloc, task.problem(), plan, Blank::new(1))
}
