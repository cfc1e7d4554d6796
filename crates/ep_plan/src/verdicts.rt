ghost use Rattle.std.specs.Prelude.{◌≡◌, ◌+◌, ◌<◌, ◌≤◌, ◌^◌, length, IfOk};
ghost use Rattle.ep_plan.specs.Runs.{AreOf};
ghost use Rattle.ep_plan.specs.Verdicts.{IsVerdict, verdict_count};

use crate::runs::{Outcome, run_plan};
use ep_kripke::MOST_WORLDS;
use ep_logic::{OutOfMemory, Steps};
use ep_problem::{Plan, Problem};
use ep_truth::holds_all;
use ep_update::Size;
use std::alloc::Global;
use std::sync::ledger::Ledger;

/// What is answered on a plan. A step is counted from 1, and `worlds` and `links` are the exact numbers of the product
/// that is too large.
#[derive(Clone, Copy, Debug, PartialEq, Eq)]
pub enum Verdict {
    Yes,
    Inapplicable { step: u32 },
    GoalFalse,
    SpentWorlds { step: u32, worlds: u64 },
    SpentLinks { step: u32, links: u64 },
}

/// The most links of the states of a run whose plan is judged.
pub const MOST_LINKS: u64 = 33_554_432;

const WIDEST: Size = Size {
    worlds: MOST_WORLDS,
    links: MOST_LINKS,
};

/// The verdict on the plan, by its run under 65,536 worlds and 33,554,432 links. The counter ticks as for `run_plan`.
pub fn validate<L: Ledger>(
    alloc: Global,
    problem: &Problem,
    plan: &Plan,
    steps: &mut Steps<L>,
) -> Result<Verdict, OutOfMemory>
    requires length { length plan.now < 2 ^ 32 }
    requires actions { AreOf problem.now plan.now }
    ensures verdict { IfOk result (IsVerdict problem.now plan.now) }
    ensures products { IfOk result (λ v. steps.new ≡ steps.old + verdict_count (length plan.now) v) }
    ensures most { steps.new ≤ steps.old + length plan.now }
    ensures rises { steps.old ≤ steps.new }
{
    match run_plan(alloc, problem, plan, WIDEST, steps)? {
        Outcome::After(state) => {
            if holds_all(alloc, &state, problem.goal())? {
                Ok(Verdict::Yes)
            } else {
                Ok(Verdict::GoalFalse)
            }
        }
        Outcome::Stuck { step } => Ok(Verdict::Inapplicable { step }),
        Outcome::SpentWorlds { step, worlds } => Ok(Verdict::SpentWorlds { step, worlds }),
        Outcome::SpentLinks { step, links } => Ok(Verdict::SpentLinks { step, links }),
    }
}
