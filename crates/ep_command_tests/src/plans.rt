// What the commands with plans answer.

use crate::memory::tells_of_plans;
use crate::tasks::{COIN, FAR, LETTER, LONE, MSG, SIDES, SWAP, TOLL, TWO, WAIT, WIDE};
use std::alloc::Global;
use std::process::Abort;
use std::test::Fail;

// Words, the task `t`, the plan file `a`, and what is answered.
type Row = (
    &'static [&'static str],
    &'static str,
    &'static str,
    u8,
    &'static str,
);

fn serves(rt: &impl Abort, alloc: Global, rows: &[Row]) -> Result<(), Fail> {
    for (words, task, plan, code, text) in rows {
        tells_of_plans(rt, alloc, (task, [plan, ""]), words, *code, text)?;
    }
    Ok(())
}

const SAY: &str = "plan 1\ntask two\nactions 1\nsay\nend\n";

const SWAPS: &str = "plan 1\ntask swap_task\nactions 1\nswap\nend\n";

const BOTH: &str = "plan 1\ntask msg\nactions 1\nboth\nend\n";

const ONLY: &str = "plan 1\ntask msg\nactions 1\nonly\nend\n";

const PEEK: &str = "plan 1\ntask coin\nactions 1\npeek(ann)\nend\n";

const TWICE: &str = "plan 1\ntask coin\nactions 1\ntwice\nend\n";

const THREE: &str = "plan 1\ntask far\nactions 1\nthree\nend\n";

const FOUR: &str = "plan 1\ntask far\nactions 1\nfour\nend\n";

const OPENS: &str = "plan 1\ntask sides\nactions 1\nopen\nend\n";

const SPLITS: &str = "plan 1\ntask wide\nactions 1\nsplit\nend\n";

const RIDES: &str = "plan 2\ntask toll\n# cheapest\ncost 7\nactions 2\nwalk\nride\nend\n";

const VALIDATED: [Row; 12] = [
    (&["validate", "t", "a"], TWO, SAY, 1, "no: step 1\n"),
    (&["validate", "t", "a"], SWAP, SWAPS, 0, "yes\n"),
    (&["validate", "t", "-"], SWAP, "", 1, "no: goal\n"),
    (
        &["validate", "t", "a"],
        COIN,
        "plan 1\ntask coin\nactions 2\npeek(ann)\nend\n",
        3,
        "refused: plan: wrong count\n",
    ),
    (
        &["validate", "t", "a"],
        COIN,
        "plan 1\ntask coin\nactions 1\npeek(an",
        3,
        "refused: plan: syntax at token 9, line 4\n",
    ),
    (
        &["validate", "t", "a"],
        COIN,
        "plan 1\ntask coin\nactions 1\nfly\nend\n",
        3,
        "refused: plan: unknown action at line 4\n",
    ),
    (
        &["validate", "t", "a"],
        COIN,
        SAY,
        3,
        "refused: plan: other task\n",
    ),
    (
        &["validate", "t", "u"],
        COIN,
        SAY,
        3,
        "refused: plan: no such file\n",
    ),
    (&["validate", "t", "a"], TOLL, RIDES, 0, "yes\n"),
    (
        &["validate", "t", "a"],
        TOLL,
        "plan 2\ntask toll\ncost 8\nactions 2\nwalk\nride\nend\n",
        3,
        "refused: plan: wrong cost\n",
    ),
    (
        &["validate", "t", "a"],
        TOLL,
        "plan 2\ntask toll\ncost 8\nactions 3\nwalk\nride\nend\n",
        3,
        "refused: plan: wrong count\n",
    ),
    (
        &["validate", "t", "a"],
        TOLL,
        "plan 1\ntask toll\n# cheapest\ncost 7\nactions 2\nwalk\nride\nend\n",
        3,
        "refused: plan: syntax at token 4, line 4\n",
    ),
];

#[test]
fn plans_are_validated(rt: HostRuntime) -> Result<(), Fail> {
    serves(&rt, rt.alloc(), &VALIDATED)?;
    Ok(())
}

// A plan of so many calls, each on a line.
fn repeated(alloc: Global, call: &str, count: u32) -> Result<String, Fail> {
    let calls = call.repeat(alloc, count as usize)?;
    Ok(format!(in alloc; "plan 1\ntask wait_task\nactions {count}\n{calls}end\n")?)
}

// The verb, the call and how often it is made, and what is answered.
type LongRow = (&'static str, &'static str, u32, u8, &'static str);

fn runs_to(rt: &impl Abort, alloc: Global, row: &LongRow) -> Result<(), Fail> {
    let (verb, call, count, code, text) = *row;
    let plan = repeated(alloc, call, count)?;
    let files = (WAIT, [plan.as_str(), ""]);
    tells_of_plans(rt, alloc, files, &[verb, "t", "a"], code, text)
}

// Each call doubles the worlds, and `blur` makes four times as many links.
#[test]
fn long_runs_are_spent(rt: HostRuntime) -> Result<(), Fail> {
    let rows: [LongRow; 5] = [
        ("validate", "wait\n", 16, 1, "no: goal\n"),
        (
            "validate",
            "wait\n",
            17,
            7,
            "spent: step 17, worlds 131072\n",
        ),
        (
            "validate",
            "blur\n",
            13,
            7,
            "spent: step 13, links 67108864\n",
        ),
        ("contract", "wait\n", 3, 0, WAITED),
        ("state", "wait\n", 13, 7, "spent: step 13, worlds 8192\n"),
    ];
    for row in rows {
        runs_to(&rt, rt.alloc(), &row)?;
    }
    Ok(())
}

const WAITED: &str =
    "worlds 1\natom done\nworld 0 0 designated\nlinks ann 0: 0\nbytes 0001010001000101\n";

const EVALUATED: [Row; 11] = [
    (
        &["eval", "t", "a", "(q and not p)"],
        SWAP,
        SWAPS,
        0,
        "true at 1 of 1\n",
    ),
    (
        &["eval", "t", "a", "common {ann, bob} heads"],
        MSG,
        BOTH,
        0,
        "true at 1 of 1\n",
    ),
    (
        &["eval", "t", "a", "common {ann, bob} heads"],
        MSG,
        ONLY,
        0,
        "true at 0 of 1\n",
    ),
    (
        &["eval", "t", "-", "knows bob heads"],
        LONE,
        "",
        0,
        "true at 1 of 1\n",
    ),
    (&["eval", "t", "-", "heads"], TWO, "", 0, "true at 1 of 2\n"),
    (
        &["eval", "t", "-", "knows carl heads"],
        COIN,
        "",
        3,
        "refused: formula: unknown name at token 1, line 1\n",
    ),
    (
        &["eval", "t", "-", "knows ann"],
        COIN,
        "",
        3,
        "refused: formula: syntax at token 2, line 1\n",
    ),
    (
        &["eval", "t", "-", "heads ?"],
        COIN,
        "",
        3,
        "refused: formula: stray byte at 6\n",
    ),
    // The plan file is read before the formula, and run behind it.
    (
        &["eval", "t", "a", "heads ?"],
        COIN,
        SAY,
        3,
        "refused: plan: other task\n",
    ),
    (
        &["eval", "t", "a", "tails"],
        TWO,
        SAY,
        3,
        "refused: formula: unknown name at token 0, line 1\n",
    ),
    (&["eval", "t", "a", "heads"], TWO, SAY, 1, "no: step 1\n"),
];

#[test]
fn formulas_are_evaluated(rt: HostRuntime) -> Result<(), Fail> {
    serves(&rt, rt.alloc(), &EVALUATED)?;
    Ok(())
}

const LETTER_STATE: &str = "worlds 2
atom pass
world 0 0
world 1 1 designated
links ann 0: 0
links ann 1: 1
links bob 0: 0 1
links bob 1: 0 1
links cat 0: 0 1
links cat 1: 0 1
";

const PEEKED: &str = "worlds 2
atom heads
world 0 1 designated
world 1 0
links ann 0: 0
links ann 1: 1
links bob 0: 0 1
links bob 1: 0 1
";

const LONE_CONTRACTED: &str = "worlds 1
atom heads
world 0 1 designated
links ann 0: 0
links bob 0: 0
bytes 000102000101010101
";

const COIN_CONTRACTED: &str = "worlds 2
atom heads
world 0 0
world 1 1 designated
links ann 0: 0 1
links ann 1: 0 1
links bob 0: 0 1
links bob 1: 0 1
bytes 000202000100010303030302
";

const FAR_CONTRACTED: &str = "worlds 3
world 0 -
world 1 -
world 2 - designated
links ann 0:
links ann 1: 0
links ann 2: 1
bytes 000301000000010204
";

const SHOWN: [Row; 7] = [
    (&["state", "t", "-"], LETTER, "", 0, LETTER_STATE),
    (&["state", "t", "a"], COIN, PEEK, 0, PEEKED),
    (&["state", "t", "a"], TWO, SAY, 1, "no: step 1\n"),
    (&["contract", "t", "-"], LONE, "", 0, LONE_CONTRACTED),
    (&["contract", "t", "-"], COIN, "", 0, COIN_CONTRACTED),
    (&["contract", "t", "a"], COIN, TWICE, 0, COIN_CONTRACTED),
    (&["contract", "t", "a"], FAR, THREE, 0, FAR_CONTRACTED),
];

#[test]
fn states_are_shown(rt: HostRuntime) -> Result<(), Fail> {
    serves(&rt, rt.alloc(), &SHOWN)?;
    Ok(())
}

// Words, the task, both plan files, and what is answered.
type SameRow = (
    &'static [&'static str],
    &'static str,
    [&'static str; 2],
    u8,
    &'static str,
);

const COMPARED: [SameRow; 6] = [
    (
        &["same", "t", "-", "a"],
        COIN,
        [TWICE, ""],
        0,
        "bisimilar\n",
    ),
    (
        &["same", "t", "a", "b"],
        FAR,
        [THREE, FOUR],
        1,
        "different\n",
    ),
    (
        &["same", "t", "a", "-"],
        TWO,
        [SAY, ""],
        1,
        "no: first plan, step 1\n",
    ),
    (
        &["same", "t", "-", "a"],
        TWO,
        [SAY, ""],
        1,
        "no: second plan, step 1\n",
    ),
    // The first plan is run before the second file is fetched.
    (
        &["same", "t", "a", "u"],
        TWO,
        [SAY, ""],
        1,
        "no: first plan, step 1\n",
    ),
    (
        &["same", "t", "b", "u"],
        COIN,
        ["", PEEK],
        3,
        "refused: second plan: no such file\n",
    ),
];

fn compares(rt: &impl Abort, alloc: Global, rows: &[SameRow]) -> Result<(), Fail> {
    for (words, task, [one, two], code, text) in rows {
        tells_of_plans(rt, alloc, (task, [one, two]), words, *code, text)?;
    }
    Ok(())
}

#[test]
fn states_are_compared(rt: HostRuntime) -> Result<(), Fail> {
    compares(&rt, rt.alloc(), &COMPARED)?;
    Ok(())
}

const TOLD_APART: [SameRow; 12] = [
    (
        &["apart", "t", "-", "a"],
        COIN,
        [TWICE, ""],
        0,
        "bisimilar\n",
    ),
    (
        &["apart", "t", "-", "a"],
        COIN,
        [PEEK, ""],
        1,
        "apart: first\n0 atom heads\n1 knows ann 0\n2 not 1\n",
    ),
    // Chains of three and of four worlds, which differ three links away.
    (
        &["apart", "t", "a", "b"],
        FAR,
        [THREE, FOUR],
        1,
        "apart: first\n0 true\n1 not 0\n2 knows ann 1\n3 not 2\n4 knows ann 3\n5 knows ann 4\n6 not 5\n",
    ),
    // The states differ in their designated worlds alone.
    (
        &["apart", "t", "-", "a"],
        SIDES,
        [OPENS, ""],
        1,
        "apart: second\n0 atom heads\n1 not 0\n",
    ),
    (
        &["apart", "t", "a", "-"],
        SIDES,
        [OPENS, ""],
        1,
        "apart: first\n0 atom heads\n1 not 0\n",
    ),
    (
        &["apart", "t", "-", "a"],
        WIDE,
        [SPLITS, ""],
        7,
        "spent: second plan, contracted worlds 512\n",
    ),
    (
        &["apart", "t", "a", "a"],
        WIDE,
        [SPLITS, ""],
        7,
        "spent: first plan, contracted worlds 512\n",
    ),
    (
        &["apart", "t", "-", "a"],
        TWO,
        [SAY, ""],
        1,
        "no: second plan, step 1\n",
    ),
    // The first plan is run before the second file is fetched.
    (
        &["apart", "t", "a", "u"],
        TWO,
        [SAY, ""],
        1,
        "no: first plan, step 1\n",
    ),
    (
        &["apart", "t", "b", "u"],
        COIN,
        ["", PEEK],
        3,
        "refused: second plan: no such file\n",
    ),
    (
        &["apart", "t", "a", "-"],
        COIN,
        [SAY, ""],
        3,
        "refused: first plan: other task\n",
    ),
    (
        &["apart", "u", "-", "-"],
        COIN,
        ["", ""],
        3,
        "refused: task: no such file\n",
    ),
];

#[test]
fn states_are_told_apart(rt: HostRuntime) -> Result<(), Fail> {
    compares(&rt, rt.alloc(), &TOLD_APART)?;
    Ok(())
}
