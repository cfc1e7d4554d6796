//! Verdicts on plans.

ghost use Rattle.std.specs.Prelude.{◌≡◌, ◌<◌};

use crate::tasks::{BLUR, FINISH, TOLD, WAIT, WAITING, plan, problem, repeated};
use ep_logic::{OutOfMemory, Steps};
use ep_plan::{Verdict, plan_fits, validate};
use ep_problem::{Plan, Problem};
use std::alloc::Global;
use std::marker::Brand;
use std::process::Abort;
use std::sync::ledger::{Blank, Ledger};
use std::test::Fail;

fn judged<L: Ledger>(
    rt: &impl Abort,
    alloc: Global,
    problem: &Problem,
    plan: &Plan,
    blank: Blank,
) -> Result<Verdict, OutOfMemory>
    requires name { blank.name ≡ L.name }
    requires parts { blank.parts ≡ L.parts }
    requires some { 0 < L.parts }
{
    assert!(rt; plan.as_slice().len() < 1 << 32 && plan_fits(problem, plan.as_slice()));
    let mut steps = Steps::<L>::new(blank);
    validate(alloc, problem, plan, &mut steps)
}

fn verdict(
    rt: &impl Abort,
    alloc: Global,
    problem: &Problem,
    plan: &Plan,
) -> Result<Verdict, OutOfMemory> {
    judged::<Brand>(rt, alloc, problem, plan, Blank::new(1))
}

// The name of the verdict, with the number of the step and of what is too many there.
fn told(verdict: Verdict) -> (&'static str, u32, u64) {
    match verdict {
        Verdict::Yes => ("yes", 0, 0),
        Verdict::Inapplicable { step } => ("inapplicable", step, 0),
        Verdict::GoalFalse => ("goal false", 0, 0),
        Verdict::SpentWorlds { step, worlds } => ("worlds", step, worlds),
        Verdict::SpentLinks { step, links } => ("links", step, links),
    }
}

fn check(
    rt: &impl Abort,
    alloc: Global,
    problem: &Problem,
    plan: &Plan,
    wanted: (&'static str, u32, u64),
) -> Result<(), Fail> {
    let verdict = verdict(rt, alloc, problem, plan)?;
    assert_eq!(rt; told(verdict), wanted);
    Ok(())
}

// Twelve doublings that link all copies are 4,096 worlds and 16,777,216 links.
#[test]
fn waiting_spends_worlds_and_links(rt: HostRuntime) -> Result<(), Fail> {
    let task = problem(&rt, rt.alloc(), &WAITING)?;
    for (action, times, wanted) in [
        (WAIT, 17, ("worlds", 17, 131_072)),
        (WAIT, 16, ("goal false", 0, 0)),
        (BLUR, 13, ("links", 13, 67_108_864)),
        (FINISH, 1, ("yes", 0, 0)),
        (FINISH, 0, ("goal false", 0, 0)),
    ] {
        let plan = repeated(rt.alloc(), action, times)?;
        check(&rt, rt.alloc(), &task, &plan, wanted)?;
    }
    Ok(())
}

// The goal is true at the first world alone, so the empty plan does not reach it.
#[test]
fn what_is_true_at_one_world_cannot_be_said(rt: HostRuntime) -> Result<(), Fail> {
    let task = problem(&rt, rt.alloc(), &TOLD)?;
    let rows: [(&[u32], (&str, u32, u64)); 3] = [
        (&[], ("goal false", 0, 0)),
        (&[1], ("inapplicable", 1, 0)),
        (&[0, 1], ("inapplicable", 2, 0)),
    ];
    for (places, wanted) in rows {
        let plan = plan(rt.alloc(), places)?;
        check(&rt, rt.alloc(), &task, &plan, wanted)?;
    }
    Ok(())
}
