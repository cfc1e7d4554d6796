//! What a search tells its guide.

use crate::own_guides::{Order, Record, Recorder};
use crate::searches::answer;
use crate::tasks::{COIN, COSTLY_FIRST, COSTLY_WAY, FORK, TOLL, Task, WAYS};
use ep_bounds::{Bounds, Measure, Mode};
use ep_guide::{Guide, View};
use std::alloc::Global;
use std::cell::RefCell;
use std::process::Abort;
use std::rc::Rc;
use std::test::Fail;

const LENGTHS: (Measure, u32) = (Measure::Length, 8);

const COSTS: (Measure, u32) = (Measure::Cost, 100);

fn check_records(rt: &impl Abort, found: &[Record], wanted: &[Record]) {
    assert_eq!(rt; found.len(), wanted.len());
    for (place, (one, two)) in found.iter().zip(wanted).enumerate() {
        assert!(rt; one.is(two), "at {place}");
    }
}

// What a guide is told of a task under a measure and a bound, one call after another.
fn check(
    rt: &impl Abort,
    alloc: Global,
    task: &Task,
    (measure, bound): (Measure, u32),
    order: Order,
    wanted: &[Record],
) -> Result<(), Fail> {
    let records = Rc::new(alloc, RefCell::new(Vec::with_capacity(alloc, 100)?))?;
    let recorder = Recorder::new(order, Rc::clone(&records)?);
    let mut guide: Box<dyn Guide> = Box::new(alloc, recorder)?;
    let bounds = Bounds {
        measure,
        bound,
        states: 1000,
        worlds: 256,
    };
    let _answer = answer(rt, alloc, task, bounds, Mode::Prove, &mut guide)?;
    match records.try_borrow() {
        Ok(found) => check_records(rt, found.as_slice(), wanted),
        Err(_error) => assert!(rt; false),
    }
    Ok(())
}

// One world, and one part of the goal, which is not met.
fn lone(weight: u32) -> Record {
    Record::Seen(View {
        depth: weight,
        worlds: 1,
        designated: 1,
        unmet: 1,
        parts: 1,
    })
}

fn coin(weight: u32, unmet: u32) -> Record {
    Record::Seen(View {
        depth: weight,
        worlds: 2,
        designated: 1,
        unmet,
        parts: 2,
    })
}

// The order of the scores is that of the expansions, and each weight at which the goal is met is told.
#[test]
fn a_guide_is_told_each_state_and_each_goal(rt: HostRuntime) -> Result<(), Fail> {
    let heaviest = [
        lone(0),
        lone(1),
        lone(1),
        lone(2),
        lone(3),
        lone(4),
        Record::Met(5),
        lone(2),
        lone(3),
        Record::Met(4),
    ];
    check(&rt, rt.alloc(), &WAYS, LENGTHS, Order::Heaviest, &heaviest)?;
    let lightest = [
        lone(0),
        lone(1),
        lone(1),
        lone(2),
        lone(2),
        lone(3),
        Record::Met(4),
    ];
    check(&rt, rt.alloc(), &WAYS, LENGTHS, Order::Lightest, &lightest)?;
    let of_coin = [coin(0, 1), Record::Met(1), coin(1, 2)];
    check(&rt, rt.alloc(), &COIN, LENGTHS, Order::Lightest, &of_coin)
}

// A plan of two actions is known before the second state of weight 1 has its turn: what that leads to is of no use.
#[test]
fn no_state_is_expanded_that_leads_to_no_lighter_plan(rt: HostRuntime) -> Result<(), Fail> {
    let of_fork = [lone(0), lone(1), lone(1), Record::Met(2)];
    check(&rt, rt.alloc(), &FORK, LENGTHS, Order::Lightest, &of_fork)
}

// The heaviest state is expanded first. The last two states come again, at less weight, and are expanded again.
#[test]
fn a_state_that_is_met_at_less_cost_is_expanded_again(rt: HostRuntime) -> Result<(), Fail> {
    let heaviest = [
        lone(0),
        lone(1),
        lone(5),
        lone(10),
        lone(11),
        Record::Met(12),
        lone(2),
        lone(3),
        lone(4),
        Record::Met(5),
    ];
    check(
        &rt,
        rt.alloc(),
        &COSTLY_WAY,
        COSTS,
        Order::Heaviest,
        &heaviest,
    )?;
    let lightest = [
        lone(0),
        lone(1),
        lone(5),
        lone(2),
        lone(3),
        lone(4),
        Record::Met(5),
    ];
    check(
        &rt,
        rt.alloc(),
        &COSTLY_WAY,
        COSTS,
        Order::Lightest,
        &lightest,
    )
}

// The last state is expanded at weight 11 when its parent was met at weight 3 already: the goal is met at 12 by a plan that
// costs 5, and at weight 4 the state is not expanded again.
#[test]
fn a_plan_may_cost_less_than_the_weight_at_which_it_is_met(rt: HostRuntime) -> Result<(), Fail> {
    let oldest = [
        lone(0),
        lone(5),
        lone(1),
        lone(10),
        lone(2),
        lone(11),
        lone(3),
        Record::Met(12),
        lone(4),
    ];
    check(
        &rt,
        rt.alloc(),
        &COSTLY_FIRST,
        COSTS,
        Order::Oldest,
        &oldest,
    )
}

// Neither flying at once nor riding on is within the bound, so the goal is never met.
#[test]
fn no_action_is_tried_that_leads_past_the_bound(rt: HostRuntime) -> Result<(), Fail> {
    let below = [lone(0), lone(3)];
    check(
        &rt,
        rt.alloc(),
        &TOLL,
        (Measure::Cost, 6),
        Order::Lightest,
        &below,
    )?;
    let at = [lone(0), lone(3), Record::Met(7)];
    check(
        &rt,
        rt.alloc(),
        &TOLL,
        (Measure::Cost, 7),
        Order::Lightest,
        &at,
    )
}
