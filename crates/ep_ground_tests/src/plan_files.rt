//! Plan files of a ground task, and the texts of plans.

use crate::reading::{discard_task, ground_task};
use ep_base::List;
use ep_bounds::Measure;
use ep_ground::{Plan, Task};
use ep_logic::ActionId;
use ep_plan_text::{Mark, PlanError, print_actions, print_plan, read_plan};
use std::alloc::Global;
use std::process::Abort;
use std::test::Fail;

// The ground actions are peek(ann), peek(bob) and twice.
const COIN: &str = "task coin; objects { ann, bob : agent; } fluents { heads; } \
    init { world u { heads } world v { } designated { u } links all all; } \
    action peek(a : agent) { sense heads by { a }; } \
    action twice { event e pre true { } event f pre true { } designated { e, f } links all all; } \
    goal (knows ann heads and not knows bob heads);";

// The ground actions are fly, walk and ride.
const TOLL: &str = "task toll; objects { ann : agent; } fluents { mid; done; } \
    init { world o { } designated { o } } \
    action fly cost 10 { assign when true { done := true; } } \
    action walk cost 3 { assign when not mid { mid := true; } } \
    action ride cost 4 { assign when mid { done := true; } } goal done;";

fn coin(rt: &impl Abort, alloc: Global) -> Result<Task, Fail> {
    Ok(ground_task(rt, alloc, COIN)??)
}

fn toll(rt: &impl Abort, alloc: Global) -> Result<Task, Fail> {
    Ok(ground_task(rt, alloc, TOLL)??)
}

fn read(rt: &impl Abort, alloc: Global, task: &Task, text: &[u8]) -> Result<Plan, PlanError> {
    assert!(rt; text.len() <= 1_048_576);
    read_plan(alloc, task, text)
}

// Comments and lines mean nothing.
#[test]
fn a_plan_with_comments(rt: HostRuntime) -> Result<(), Fail> {
    let text =
        "# by hand\nplan 1 task coin\nactions 3 # of them\ntwice peek\n( bob\n) peek(ann)\nend # .";
    let task = coin(&rt, rt.alloc())?;
    let plan = read(&rt, rt.alloc(), &task, text.as_bytes());
    discard_task(task);
    let want = [2u32, 1, 0].map(|n| ActionId { n });
    assert_eq!(rt; plan?.as_slice(), want.as_slice());
    Ok(())
}

const REFUSED: [(&str, PlanError); 10] = [
    ("plan 1\ntask coin\n?", PlanError::Stray { at: 17 }),
    (
        "plan 3\ntask coin\nactions 0\nend\n",
        PlanError::Syntax { token: 1, line: 1 },
    ),
    (
        "plan 2\ntask coin\nactions 0\nend\n",
        PlanError::Syntax { token: 4, line: 3 },
    ),
    (
        "plan 1\ntask coin\nactions 01\ntwice\nend\n",
        PlanError::Syntax { token: 5, line: 3 },
    ),
    (
        "plan 1\ntask coin\nactions 1\npeek(an",
        PlanError::Syntax { token: 9, line: 4 },
    ),
    (
        "plan 1\ntask other\nactions 2\nfly\nend\n",
        PlanError::OtherTask,
    ),
    (
        "plan 1\ntask coin\nactions 2\nfly\nend\n",
        PlanError::UnknownAction { line: 4 },
    ),
    (
        "plan 1\ntask coin\nactions 1\ntwice\npeek\nend\n",
        PlanError::UnknownAction { line: 5 },
    ),
    (
        "plan 1\ntask coin\nactions 2\ntwice\nend\n",
        PlanError::WrongCount {
            stated: 2,
            listed: 1,
        },
    ),
    (
        "plan 2\ntask coin\ncost 2\nactions 1\ntwice\nend\n",
        PlanError::WrongCost {
            stated: 2,
            summed: 1,
        },
    ),
];

// Of plans of actions that cost 3 and 4.
const REFUSED_COSTS: [(&str, PlanError); 8] = [
    (
        "plan 2\ntask toll\n# cheapest\ncost 8\nactions 2\nwalk\nride\nend\n",
        PlanError::WrongCost {
            stated: 8,
            summed: 7,
        },
    ),
    (
        "plan 2\ntask toll\ncost 6\nactions 2\nwalk\nride\nend\n",
        PlanError::WrongCost {
            stated: 6,
            summed: 7,
        },
    ),
    (
        "plan 2\ntask toll\ncost 1\nactions 0\nend\n",
        PlanError::WrongCost {
            stated: 1,
            summed: 0,
        },
    ),
    (
        "plan 2\ntask toll\ncost 8\nactions 3\nwalk\nride\nend\n",
        PlanError::WrongCount {
            stated: 3,
            listed: 2,
        },
    ),
    (
        "plan 2\ntask toll\ncost 8\nactions 3\nwalk\nswim\nend\n",
        PlanError::UnknownAction { line: 6 },
    ),
    (
        "plan 1\ntask toll\n# cheapest\ncost 7\nactions 2\nwalk\nride\nend\n",
        PlanError::Syntax { token: 4, line: 4 },
    ),
    (
        "plan 2\ntask toll\ncost 07\nactions 2\nwalk\nride\nend\n",
        PlanError::Syntax { token: 5, line: 3 },
    ),
    (
        "plan 2\ntask toll\nactions 2\ncost 7\nwalk\nride\nend\n",
        PlanError::Syntax { token: 4, line: 3 },
    ),
];

fn check_refused(rt: &impl Abort, alloc: Global, task: &Task, rows: &[(&str, PlanError)]) {
    for (text, want) in rows {
        let found = read(rt, alloc, task, text.as_bytes()).err();
        assert_eq!(rt; found, Some(*want), "{text}");
    }
}

#[test]
fn refused_plans(rt: HostRuntime) -> Result<(), Fail> {
    let task = coin(&rt, rt.alloc())?;
    check_refused(&rt, rt.alloc(), &task, &REFUSED);
    discard_task(task);
    Ok(())
}

#[test]
fn refused_costs(rt: HostRuntime) -> Result<(), Fail> {
    let task = toll(&rt, rt.alloc())?;
    check_refused(&rt, rt.alloc(), &task, &REFUSED_COSTS);
    discard_task(task);
    Ok(())
}

fn check_read(rt: &impl Abort, alloc: Global, task: &Task) -> Result<(), Fail> {
    let rows: [(&str, &[u32]); 4] = [
        (
            "plan 2\ntask toll\n# cheapest\ncost 7\nactions 2\nwalk\nride\nend\n",
            &[1, 2],
        ),
        ("plan 2\ntask toll\ncost 10\nactions 1\nfly\nend\n", &[0]),
        ("plan 2\ntask toll\ncost 0\nactions 0\nend\n", &[]),
        ("plan 1\ntask toll\nactions 2\nwalk\nride\nend\n", &[1, 2]),
    ];
    for (text, want) in rows {
        let plan = read(rt, alloc, task, text.as_bytes())?;
        assert_eq!(rt; plan.as_slice().len(), want.len());
        assert!(rt;
            plan.as_slice().iter().zip(want).all(|(a, n)| a.n == *n),
            "{text}"
        );
    }
    Ok(())
}

#[test]
fn plans_with_costs(rt: HostRuntime) -> Result<(), Fail> {
    let task = toll(&rt, rt.alloc())?;
    let told = check_read(&rt, rt.alloc(), &task);
    discard_task(task);
    told
}

// What an error tells.
#[test]
fn wrong_costs_are_told(rt: HostRuntime) -> Result<(), Fail> {
    let error = PlanError::WrongCost {
        stated: 8,
        summed: 7,
    };
    let text = format!(in rt.alloc(); "{error}")?;
    assert_eq!(rt;
        text.as_str(),
        "the cost 8 is stated and the actions cost 7"
    );
    Ok(())
}

fn too_many(alloc: Global) -> Result<Vec<u8>, Fail> {
    let mut text = Vec::new(alloc);
    for _ in 0..262_145 {
        text.extend_from_slice(b"x ")?;
    }
    Ok(text)
}

#[test]
fn too_many_tokens(rt: HostRuntime) -> Result<(), Fail> {
    let text = too_many(rt.alloc())?;
    let task = coin(&rt, rt.alloc())?;
    let found = read(&rt, rt.alloc(), &task, text.as_slice()).err();
    discard_task(task);
    assert_eq!(rt; found, Some(PlanError::TooManyTokens));
    Ok(())
}

type Row = (Measure, Mark, &'static str);

// The plan of twice and peek(ann), of no stated costs.
const PRINTED: [Row; 4] = [
    (
        Measure::Length,
        Mark::Plain,
        "plan 1\ntask coin\nactions 2\ntwice\npeek(ann)\nend\n",
    ),
    (
        Measure::Length,
        Mark::Least,
        "plan 1\ntask coin\n# shortest\nactions 2\ntwice\npeek(ann)\nend\n",
    ),
    (
        Measure::Length,
        Mark::Found,
        "plan 1\ntask coin\n# found\nactions 2\ntwice\npeek(ann)\nend\n",
    ),
    (
        Measure::Cost,
        Mark::Plain,
        "plan 2\ntask coin\ncost 2\nactions 2\ntwice\npeek(ann)\nend\n",
    ),
];

// The plan of walk and ride.
const PRINTED_COSTS: [Row; 4] = [
    (
        Measure::Cost,
        Mark::Plain,
        "plan 2\ntask toll\ncost 7\nactions 2\nwalk\nride\nend\n",
    ),
    (
        Measure::Cost,
        Mark::Least,
        "plan 2\ntask toll\n# cheapest\ncost 7\nactions 2\nwalk\nride\nend\n",
    ),
    (
        Measure::Cost,
        Mark::Found,
        "plan 2\ntask toll\n# found\ncost 7\nactions 2\nwalk\nride\nend\n",
    ),
    (
        Measure::Length,
        Mark::Least,
        "plan 1\ntask toll\n# shortest\nactions 2\nwalk\nride\nend\n",
    ),
];

fn check_printed(
    rt: &impl Abort,
    alloc: Global,
    task: &Task,
    plan: &Plan,
    rows: &[Row],
) -> Result<(), Fail> {
    let known = task.actions();
    assert!(rt; plan.as_slice().len() <= 262_144);
    assert!(rt; plan.as_slice().iter().all(|a| a.n < known));
    for (measure, mark, want) in rows {
        let text = print_plan(alloc, task, plan, *mark, *measure)?;
        assert_eq!(rt; text.as_slice(), want.as_bytes());
    }
    Ok(())
}

fn plan_of(alloc: Global, numbers: [u32; 2]) -> Result<Plan, Fail> {
    let mut plan = List::new(alloc);
    for n in numbers {
        plan.push(ActionId { n })?;
    }
    Ok(plan)
}

#[test]
fn printed_plans(rt: HostRuntime) -> Result<(), Fail> {
    let plan = plan_of(rt.alloc(), [2, 0])?;
    let task = coin(&rt, rt.alloc())?;
    let told = check_printed(&rt, rt.alloc(), &task, &plan, &PRINTED);
    discard_task(task);
    told
}

#[test]
fn printed_costs(rt: HostRuntime) -> Result<(), Fail> {
    let plan = plan_of(rt.alloc(), [1, 2])?;
    let task = toll(&rt, rt.alloc())?;
    let told = check_printed(&rt, rt.alloc(), &task, &plan, &PRINTED_COSTS);
    discard_task(task);
    told
}

fn check_names(rt: &impl Abort, alloc: Global, task: &Task, plan: &Plan) -> Result<(), Fail> {
    let known = task.actions();
    assert!(rt; plan.as_slice().iter().all(|a| a.n < known));
    let lines = print_actions(alloc, task, plan)?;
    assert_eq!(rt; lines.as_slice(), "twice\npeek(ann)\n".as_bytes());
    Ok(())
}

#[test]
fn printed_names(rt: HostRuntime) -> Result<(), Fail> {
    let plan = plan_of(rt.alloc(), [2, 0])?;
    let task = coin(&rt, rt.alloc())?;
    let told = check_names(&rt, rt.alloc(), &task, &plan);
    discard_task(task);
    told
}
