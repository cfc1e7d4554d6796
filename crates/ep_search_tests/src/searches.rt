//! What searches answer.

ghost use Rattle.std.specs.Prelude.{◌≡◌, ◌<◌};

use crate::own_guides::Heaviest;
use crate::tasks::{
    COIN, COSTLY_WAY, DEAR, LOOK, SEVENTH_STATE, TOLL, TRUE_AT_ONCE, Task, WAYS, WIDE_STATE,
    problem,
};
use ep_bounds::{Bounds, Measure, Mode};
use ep_guide::{ByDepth, ByUnmet, Contrary, Flat, Guide, Loud, Mixer};
use ep_logic::{ActionId, OutOfMemory, Steps};
use ep_problem::Problem;
use ep_search::{Answer, search};
use std::alloc::Global;
use std::marker::Brand;
use std::process::Abort;
use std::sync::ledger::{Blank, Ledger};
use std::test::Fail;

fn counted<L: Ledger>(
    rt: &impl Abort,
    alloc: Global,
    problem: &Problem,
    bounds: Bounds,
    mode: Mode,
    guide: &mut Box<dyn Guide>,
    blank: Blank,
) -> Result<Answer, OutOfMemory>
    requires name { blank.name ≡ L.name }
    requires parts { blank.parts ≡ L.parts }
    requires some { 0 < L.parts }
{
    assert!(rt; bounds.bound <= 1000 && bounds.worlds <= 256);
    assert!(rt; bounds.states >= 1 && bounds.states <= 16_384);
    let mut steps = Steps::<L>::new(blank);
    search(alloc, problem, bounds, mode, guide, &mut steps)
}

pub fn answer(
    rt: &impl Abort,
    alloc: Global,
    task: &Task,
    bounds: Bounds,
    mode: Mode,
    guide: &mut Box<dyn Guide>,
) -> Result<Answer, Fail> {
    let problem = problem(rt, alloc, task)?;
    let found = counted::<Brand>(rt, alloc, &problem, bounds, mode, guide, Blank::new(1))?;
    Ok(found)
}

// The kind of the answer, and its plan if it has one.
fn told(answer: &Answer) -> (&'static str, &[ActionId]) {
    match answer {
        Answer::Least(plan) => ("least", plan.as_slice()),
        Answer::Found(plan) => ("found", plan.as_slice()),
        Answer::NoneTo => ("none", &[]),
        Answer::ManyStates => ("many states", &[]),
        Answer::Wide(plan) => ("wide", plan.as_slice()),
    }
}

// A task, the bound, states and worlds of its bounds, the mode, and the answer with the numbers of its actions.
type Row = (
    &'static Task,
    (u32, u32, u32),
    Mode,
    &'static str,
    &'static [u32],
);

static LIGHTEST_FIRST: [Row; 10] = [
    (&TRUE_AT_ONCE, (0, 1, 1), Mode::Prove, "least", &[]),
    (&TRUE_AT_ONCE, (0, 1, 1), Mode::First, "found", &[]),
    (&COIN, (0, 1, 2), Mode::Prove, "none", &[]),
    (&COIN, (8, 1000, 256), Mode::Prove, "least", &[0]),
    (&COIN, (8, 1000, 1), Mode::Prove, "wide", &[]),
    (&LOOK, (1000, 2, 256), Mode::Prove, "none", &[]),
    (&LOOK, (1000, 1, 256), Mode::Prove, "many states", &[]),
    (&WAYS, (4, 6, 256), Mode::Prove, "least", &[3, 4, 5, 6]),
    (&WAYS, (3, 6, 256), Mode::Prove, "none", &[]),
    (&WAYS, (8, 1000, 256), Mode::First, "found", &[3, 4, 5, 6]),
];

// A state comes at weight 3 first and at weight 2 later, and a plan is known before a budget ends.
static HEAVIEST_FIRST: [Row; 4] = [
    (&WAYS, (4, 6, 256), Mode::Prove, "least", &[3, 4, 5, 6]),
    (
        &WAYS,
        (8, 1000, 256),
        Mode::First,
        "found",
        &[0, 1, 2, 5, 6],
    ),
    (
        &SEVENTH_STATE,
        (8, 6, 256),
        Mode::Prove,
        "found",
        &[0, 1, 2, 6, 7],
    ),
    (
        &WIDE_STATE,
        (8, 1000, 1),
        Mode::Prove,
        "found",
        &[0, 1, 2, 6, 7],
    ),
];

// By costs: the plan of fewest actions is not the cheapest, and a bound is kept to the number.
static CHEAPEST_FIRST: [Row; 9] = [
    (&TOLL, (10, 1000, 256), Mode::Prove, "least", &[1, 2]),
    (&TOLL, (7, 1000, 256), Mode::Prove, "least", &[1, 2]),
    (&TOLL, (6, 1000, 256), Mode::Prove, "none", &[]),
    (&TOLL, (6, 1000, 256), Mode::First, "none", &[]),
    (&TOLL, (1000, 1, 256), Mode::Prove, "found", &[0]),
    (
        &COSTLY_WAY,
        (100, 1000, 256),
        Mode::First,
        "found",
        &[0, 1, 2, 5, 6],
    ),
    (
        &DEAR,
        (1000, 1000, 256),
        Mode::Prove,
        "least",
        &[0, 1, 2, 3, 4, 5, 6, 7, 8, 9],
    ),
    (&DEAR, (999, 1000, 256), Mode::Prove, "none", &[]),
    (&DEAR, (1000, 9, 256), Mode::Prove, "many states", &[]),
];

// By costs: x is expanded at weight 10, and again when it is met by more actions at weight 3.
static DEAREST_FIRST: [Row; 4] = [
    (
        &COSTLY_WAY,
        (100, 1000, 256),
        Mode::Prove,
        "least",
        &[0, 1, 2, 5, 6],
    ),
    (
        &COSTLY_WAY,
        (100, 1000, 256),
        Mode::First,
        "found",
        &[3, 4, 5, 6],
    ),
    (
        &COSTLY_WAY,
        (5, 1000, 256),
        Mode::Prove,
        "least",
        &[0, 1, 2, 5, 6],
    ),
    (&COSTLY_WAY, (4, 1000, 256), Mode::Prove, "none", &[]),
];

// What no guide changes.
static BY_ANY: [Row; 4] = [
    (&COIN, (8, 1000, 256), Mode::Prove, "least", &[0]),
    (&LOOK, (1000, 2, 256), Mode::Prove, "none", &[]),
    (&WAYS, (8, 1000, 256), Mode::Prove, "least", &[3, 4, 5, 6]),
    (&WAYS, (3, 1000, 256), Mode::Prove, "none", &[]),
];

// The same by costs.
static CHEAPEST_BY_ANY: [Row; 4] = [
    (&TOLL, (10, 1000, 256), Mode::Prove, "least", &[1, 2]),
    (&TOLL, (6, 1000, 256), Mode::Prove, "none", &[]),
    (
        &COSTLY_WAY,
        (100, 1000, 256),
        Mode::Prove,
        "least",
        &[0, 1, 2, 5, 6],
    ),
    (&COSTLY_WAY, (4, 1000, 256), Mode::Prove, "none", &[]),
];

static BY_UNMET: [Row; 1] = [(&COIN, (8, 1000, 256), Mode::First, "found", &[0])];

fn check_answer(rt: &impl Abort, answer: &Answer, kind: &str, wanted: &[u32]) {
    let (found_kind, plan) = told(answer);
    assert_eq!(rt; found_kind, kind);
    assert!(rt;
        plan.iter().map(|a| a.n).eq(wanted.iter().copied()),
        "{kind}"
    );
}

fn check_row(
    rt: &impl Abort,
    alloc: Global,
    measure: Measure,
    guide: &mut Box<dyn Guide>,
    row: &Row,
) -> Result<(), Fail> {
    let (task, (bound, states, worlds), mode, kind, plan) = row;
    let bounds = Bounds {
        measure,
        bound: *bound,
        states: *states,
        worlds: *worlds,
    };
    let answer = answer(rt, alloc, task, bounds, *mode, guide)?;
    check_answer(rt, &answer, kind, plan);
    Ok(())
}

fn check(
    rt: &impl Abort,
    alloc: Global,
    measure: Measure,
    guide: &mut Box<dyn Guide>,
    rows: &[Row],
) -> Result<(), Fail> {
    for row in rows {
        check_row(rt, alloc, measure, guide, row)?;
    }
    Ok(())
}

#[test]
fn a_search_lightest_first_answers_each_task(rt: HostRuntime) -> Result<(), Fail> {
    let mut guide: Box<dyn Guide> = Box::new(rt.alloc(), ByDepth::new())?;
    check(
        &rt,
        rt.alloc(),
        Measure::Length,
        &mut guide,
        &LIGHTEST_FIRST,
    )?;
    check(&rt, rt.alloc(), Measure::Cost, &mut guide, &CHEAPEST_FIRST)
}

#[test]
fn a_search_heaviest_first_still_proves_the_least(rt: HostRuntime) -> Result<(), Fail> {
    let mut guide: Box<dyn Guide> = Box::new(rt.alloc(), Heaviest::new())?;
    check(
        &rt,
        rt.alloc(),
        Measure::Length,
        &mut guide,
        &HEAVIEST_FIRST,
    )?;
    check(&rt, rt.alloc(), Measure::Cost, &mut guide, &DEAREST_FIRST)
}

// One task, by the number of actions and by their costs.
static FEWEST: [Row; 1] = [(&TOLL, (10, 1000, 256), Mode::Prove, "least", &[0])];

static CHEAPEST: [Row; 1] = [(&TOLL, (10, 1000, 256), Mode::Prove, "least", &[1, 2])];

#[test]
fn the_plan_of_fewest_actions_is_not_the_cheapest(rt: HostRuntime) -> Result<(), Fail> {
    let mut guide: Box<dyn Guide> = Box::new(rt.alloc(), Flat::new())?;
    check(&rt, rt.alloc(), Measure::Length, &mut guide, &FEWEST)?;
    check(&rt, rt.alloc(), Measure::Cost, &mut guide, &CHEAPEST)
}

#[test]
fn a_search_by_unmet_parts_finds_a_plan(rt: HostRuntime) -> Result<(), Fail> {
    let mut guide: Box<dyn Guide> = Box::new(rt.alloc(), ByUnmet::new())?;
    check(&rt, rt.alloc(), Measure::Length, &mut guide, &BY_UNMET)
}

#[test]
fn a_search_is_right_whatever_its_guide_scores(rt: HostRuntime) -> Result<(), Fail> {
    let mut guides: [Box<dyn Guide>; 4] = [
        Box::new(rt.alloc(), Contrary::new())?,
        Box::new(rt.alloc(), Flat::new())?,
        Box::new(rt.alloc(), Loud::new())?,
        Box::new(rt.alloc(), Mixer::new())?,
    ];
    for guide in &mut guides {
        check(&rt, rt.alloc(), Measure::Length, guide, &BY_ANY)?;
        check(&rt, rt.alloc(), Measure::Cost, guide, &CHEAPEST_BY_ANY)?;
    }
    Ok(())
}
