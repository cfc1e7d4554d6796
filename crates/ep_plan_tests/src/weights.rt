//! What plans measure.

use crate::tasks::{BLUR, FINISH, WAIT, WAITING, plan, problem};
use ep_logic::ActionId;
use ep_plan::plan_fits;
use ep_problem::{Measure, Problem};
use std::alloc::Global;
use std::process::Abort;
use std::test::Fail;

fn check(
    rt: &impl Abort,
    alloc: Global,
    problem: &Problem,
    places: &[u32],
    wanted: (u32, u32),
) -> Result<(), Fail> {
    let plan = plan(alloc, places)?;
    let actions = plan.as_slice();
    assert!(rt; actions.len() <= 262_144 && plan_fits(problem, actions));
    let length = problem.weigh(actions, Measure::Length);
    let cost = problem.weigh(actions, Measure::Cost);
    assert_eq!(rt; (length, cost), wanted);
    Ok(())
}

// The costs are 10, 3 and 4.
#[test]
fn a_plan_costs_the_sum_of_its_actions(rt: HostRuntime) -> Result<(), Fail> {
    let task = problem(&rt, rt.alloc(), &WAITING)?;
    let rows: [(&[u32], (u32, u32)); 5] = [
        (&[], (0, 0)),
        (&[WAIT], (1, 10)),
        (&[BLUR, FINISH], (2, 7)),
        (&[WAIT, WAIT], (2, 20)),
        (&[FINISH, WAIT, BLUR, FINISH], (4, 21)),
    ];
    for (places, wanted) in rows {
        check(&rt, rt.alloc(), &task, places, wanted)?;
    }
    Ok(())
}

#[test]
fn each_action_has_its_cost(rt: HostRuntime) -> Result<(), Fail> {
    let task = problem(&rt, rt.alloc(), &WAITING)?;
    assert!(rt; task.actions() == 3);
    for (n, cost) in [(WAIT, 10), (BLUR, 3), (FINISH, 4)] {
        assert!(rt; n < 3 && task.cost(ActionId { n }) == cost);
    }
    Ok(())
}
