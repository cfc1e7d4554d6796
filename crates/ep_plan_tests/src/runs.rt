//! Runs under a size.

ghost use Rattle.std.specs.Prelude.{◌≡◌, ◌<◌};

use crate::tasks::{BLUR, COIN, FINISH, TOLD, WAIT, WAITING, plan, problem};
use ep_logic::{OutOfMemory, Steps};
use ep_plan::{Outcome, plan_fits, run_plan};
use ep_problem::{Plan, Problem};
use ep_update::Size;
use std::alloc::Global;
use std::marker::Brand;
use std::process::Abort;
use std::sync::ledger::{Blank, Ledger};
use std::test::Fail;

const WIDE: Size = Size {
    worlds: 65_536,
    links: 33_554_432,
};

fn ran<L: Ledger>(
    rt: &impl Abort,
    alloc: Global,
    problem: &Problem,
    plan: &Plan,
    size: Size,
    blank: Blank,
) -> Result<Outcome, OutOfMemory>
    requires name { blank.name ≡ L.name }
    requires parts { blank.parts ≡ L.parts }
    requires some { 0 < L.parts }
{
    assert!(rt; plan.as_slice().len() < 1 << 32 && plan_fits(problem, plan.as_slice()));
    assert!(rt; size.worlds <= 65_536 && size.links < 1 << 32);
    let mut steps = Steps::<L>::new(blank);
    run_plan(alloc, problem, plan, size, &mut steps)
}

fn outcome(
    rt: &impl Abort,
    alloc: Global,
    problem: &Problem,
    plan: &Plan,
    size: Size,
) -> Result<Outcome, OutOfMemory> {
    ran::<Brand>(rt, alloc, problem, plan, size, Blank::new(1))
}

// The worlds and links of the state that is left, or the number of the step and of what is too many there.
fn told(outcome: &Outcome) -> (&'static str, u32, u64) {
    match outcome {
        Outcome::After(state) => ("after", state.worlds(), state.links()),
        Outcome::Stuck { step } => ("stuck", *step, 0),
        Outcome::SpentWorlds { step, worlds } => ("worlds", *step, *worlds),
        Outcome::SpentLinks { step, links } => ("links", *step, *links),
    }
}

fn check(
    rt: &impl Abort,
    alloc: Global,
    problem: &Problem,
    places: &[u32],
    size: Size,
    wanted: (&'static str, u32, u64),
) -> Result<(), Fail> {
    let plan = plan(alloc, places)?;
    let outcome = outcome(rt, alloc, problem, &plan, size)?;
    assert_eq!(rt; told(&outcome), wanted);
    Ok(())
}

#[test]
fn runs_under_a_size_stop_where_it_is_spent(rt: HostRuntime) -> Result<(), Fail> {
    let task = problem(&rt, rt.alloc(), &WAITING)?;
    let small = Size {
        worlds: 4,
        links: 15,
    };
    let rows: [(&[u32], (&str, u32, u64)); 5] = [
        (&[], ("after", 1, 1)),
        (&[WAIT, FINISH, WAIT], ("after", 4, 4)),
        (&[WAIT, WAIT, FINISH, BLUR], ("worlds", 4, 8)),
        (&[WAIT, BLUR, FINISH], ("after", 4, 8)),
        (&[BLUR, BLUR, FINISH], ("links", 2, 16)),
    ];
    for (places, wanted) in rows {
        check(&rt, rt.alloc(), &task, places, small, wanted)?;
    }
    Ok(())
}

#[test]
fn a_run_is_stuck_at_an_inapplicable_action(rt: HostRuntime) -> Result<(), Fail> {
    let task = problem(&rt, rt.alloc(), &TOLD)?;
    check(&rt, rt.alloc(), &task, &[0, 1, 0], WIDE, ("stuck", 2, 0))
}

// Whether the state that is left has equivalences, where one is left.
fn left_s5(outcome: &Outcome) -> Option<bool> {
    match outcome {
        Outcome::After(state) => Some(state.is_s5()),
        _ => None,
    }
}

fn check_s5(
    rt: &impl Abort,
    alloc: Global,
    problem: &Problem,
    places: &[u32],
    is_s5: bool,
) -> Result<(), Fail> {
    let plan = plan(alloc, places)?;
    let outcome = outcome(rt, alloc, problem, &plan, WIDE)?;
    assert_eq!(rt; left_s5(&outcome), Some(is_s5));
    Ok(())
}

// An announcement and a message to all agents keep equivalences, and an event that is taken for another does not.
#[test]
fn runs_of_s5_actions_leave_s5_states(rt: HostRuntime) -> Result<(), Fail> {
    let task = problem(&rt, rt.alloc(), &COIN)?;
    let rows: [(&[u32], bool); 3] = [(&[], true), (&[0, 1], true), (&[2], false)];
    for (places, is_s5) in rows {
        check_s5(&rt, rt.alloc(), &task, places, is_s5)?;
    }
    Ok(())
}
