// What `plan` and `trial` answer.

use crate::memory::{is_told, library, sink, strings, tells_of_task};
use crate::tasks::{
    COIN, COIN0, FAR, KINDS, LETTER, LONE, LOOK, MSG, PAIR, SWAP, TOLL, TWO, WAIT, WAYS,
};
use ep_cli::{Status, run};
use ep_guide::{Guide, View};
use ep_io::{MemoryLibrary, MemorySink};
use std::alloc::{AllocError, Global};
use std::process::Abort;
use std::test::Fail;

// Scores deep states first.
#[derive(Drop)]
struct Deepest {
    asked: u64,
}

impl Guide for Deepest {
    ghost asked = { λ g. g.asked };

    fn score(&mut self, view: &View) -> u64 {
        self.asked = self.asked.saturating_add(1);
        u64::MAX - u64::from(view.depth)
    }

    fn met(&mut self, _depth: u32) {}
}

// Runs the words with one guide, which likes deep states.
fn ran_deepest(
    alloc: Global,
    words: &[String],
    files: &mut MemoryLibrary,
    out: &mut MemorySink,
) -> Result<Status, AllocError> {
    let deepest: Box<dyn Guide> = Box::new(alloc, Deepest { asked: 0 })?;
    let mut guides = Vec::new(alloc);
    guides.push(deepest)?;
    Ok(run(alloc, words, files, out, &mut guides))
}

fn deepest_tells(
    rt: &impl Abort,
    alloc: Global,
    task: &str,
    words: &[&str],
    text: &str,
) -> Result<(), Fail> {
    let words = strings(alloc, words)?;
    let mut files = library(alloc, task, &[])?;
    let mut out = sink(alloc, &[])?;
    let status = ran_deepest(alloc, &words, &mut files, &mut out)?;
    is_told(rt, &out, status, 0, text);
    Ok(())
}

const LONG_WAY: &str = "plan 1\ntask ways\n# found\nactions 5\ns1\ns2\ns3\ngo1\ngo2\nend\n";

// The further actions make a seventh state, and a state of two worlds.
const SEVENTH: &str = "action t3 { assign when b1 { d := true; } } action go1 ";

const TWO_WORLDS: &str =
    "action t3 { event e pre b1 { } event f pre b1 { d := true; } designated { e } links all all; } action go1 ";

// With a guide in the first place that likes deep states.
#[test]
fn deep_states_come_first(rt: HostRuntime) -> Result<(), Fail> {
    let seventh = WAYS.replace(rt.alloc(), "action go1 ", SEVENTH)?;
    let two_worlds = WAYS.replace(rt.alloc(), "action go1 ", TWO_WORLDS)?;
    let rows: [(&[&str], &str, &str); 5] = [
        (
            &["plan", "t", "--depth", "4"],
            WAYS,
            "plan 1\ntask ways\n# shortest\nactions 4\nt1\nt2\ngo1\ngo2\nend\n",
        ),
        (
            &["plan", "t", "--cost", "4"],
            WAYS,
            "plan 2\ntask ways\n# cheapest\ncost 4\nactions 4\nt1\nt2\ngo1\ngo2\nend\n",
        ),
        (&["plan", "t", "--first", "yes"], WAYS, LONG_WAY),
        (&["plan", "t", "--states", "6"], seventh.as_str(), LONG_WAY),
        (
            &["plan", "t", "--worlds", "1"],
            two_worlds.as_str(),
            LONG_WAY,
        ),
    ];
    for (words, task, text) in rows {
        deepest_tells(&rt, rt.alloc(), task, words, text)?;
    }
    Ok(())
}

// Words, the task file `t`, and what is answered.
type Row = (&'static [&'static str], &'static str, u8, &'static str);

const NONE: &str = "none to 0\n";

const PLANNED: [Row; 22] = [
    (&["plan", "t", "--depth", "0"], COIN0, 1, NONE),
    (
        &["plan", "t"],
        FAR,
        0,
        "plan 1\ntask far\n# shortest\nactions 0\nend\n",
    ),
    (
        &["plan", "t"],
        COIN,
        0,
        "plan 1\ntask coin\n# shortest\nactions 1\npeek(ann)\nend\n",
    ),
    (
        &["plan", "t", "--guide", "unmet", "--first", "yes"],
        COIN,
        0,
        "plan 1\ntask coin\n# found\nactions 1\npeek(ann)\nend\n",
    ),
    (
        &["plan", "t", "--worlds", "1"],
        COIN,
        7,
        "undecided: worlds after 0\n",
    ),
    (
        &["plan", "t", "--depth", "1000", "--states", "2"],
        LOOK,
        1,
        "none to 1000\n",
    ),
    (
        &["plan", "t", "--states", "1", "--depth", "1000"],
        LOOK,
        7,
        "undecided: states\n",
    ),
    (&["plan", "t"], TWO, 1, "none to 8\n"),
    (
        &["plan", "t"],
        MSG,
        0,
        "plan 1\ntask msg\n# shortest\nactions 1\nboth\nend\n",
    ),
    (
        &["plan", "t"],
        LONE,
        0,
        "plan 1\ntask lone\n# shortest\nactions 0\nend\n",
    ),
    (
        &["plan", "t"],
        WAIT,
        0,
        "plan 1\ntask wait_task\n# shortest\nactions 1\nfinish\nend\n",
    ),
    (
        &["plan", "t"],
        SWAP,
        0,
        "plan 1\ntask swap_task\n# shortest\nactions 1\nswap\nend\n",
    ),
    (
        &["plan", "t", "--depth", "4"],
        WAYS,
        0,
        "plan 1\ntask ways\n# shortest\nactions 4\nt1\nt2\ngo1\ngo2\nend\n",
    ),
    (&["plan", "t", "--depth", "3"], WAYS, 1, "none to 3\n"),
    (
        &["plan", "t"],
        KINDS,
        0,
        "plan 1\ntask kinds\n# shortest\nactions 1\ndry(kid)\nend\n",
    ),
    (
        &["plan", "t"],
        LETTER,
        0,
        "plan 1\ntask letter\n# shortest\nactions 1\nwhisper(ann,bob)\nend\n",
    ),
    (
        &["plan", "t"],
        PAIR,
        0,
        "plan 1\ntask pair\n# shortest\nactions 1\nswap(ann,bob)\nend\n",
    ),
    // The fewest actions, whatever they cost.
    (
        &["plan", "t"],
        TOLL,
        0,
        "plan 1\ntask toll\n# shortest\nactions 1\nfly\nend\n",
    ),
    // The least cost, by however many actions.
    (
        &["plan", "t", "--cost", "10"],
        TOLL,
        0,
        "plan 2\ntask toll\n# cheapest\ncost 7\nactions 2\nwalk\nride\nend\n",
    ),
    (
        &["plan", "t", "--cost", "10", "--first", "yes"],
        TOLL,
        0,
        "plan 2\ntask toll\n# found\ncost 10\nactions 1\nfly\nend\n",
    ),
    (&["plan", "t", "--cost", "6"], TOLL, 1, "none to cost 6\n"),
    (&["plan", "t", "--cost", "0"], COIN0, 1, "none to cost 0\n"),
];

#[test]
fn plans_are_told(rt: HostRuntime) -> Result<(), Fail> {
    for (words, task, code, text) in PLANNED {
        tells_of_task(&rt, rt.alloc(), task, words, code, text)?;
    }
    Ok(())
}

#[test]
fn trials_are_told(rt: HostRuntime) -> Result<(), Fail> {
    let rows = [
        (
            "1",
            "trial 1\nworlds 2\ncontracted 2\nshortest 1\nvalidator yes\n",
        ),
        (
            "3",
            "trial 3\nworlds 8\ncontracted 8\nshortest 3\nvalidator yes\n",
        ),
        (
            "8",
            "trial 8\nworlds 256\ncontracted 256\nshortest 8\nvalidator yes\n",
        ),
    ];
    for (children, text) in rows {
        tells_of_task(&rt, rt.alloc(), "", &["trial", children], 0, text)?;
    }
    Ok(())
}
