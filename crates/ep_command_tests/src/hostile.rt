// What is answered with guides whose scores mislead.

use crate::memory::{is_told, library, sink, strings};
use crate::tasks::{LOOK, WAYS};
use ep_cli::{Status, run};
use ep_guide::{Contrary, Flat, Guide, Loud, Mixer};
use ep_io::{MemoryLibrary, MemorySink};
use std::alloc::{AllocError, Global};
use std::process::Abort;
use std::test::Fail;

// Runs the words with one of the four guides, by its number.
fn misled(
    alloc: Global,
    guide: u32,
    words: &[String],
    files: &mut MemoryLibrary,
    out: &mut MemorySink,
) -> Result<Status, AllocError> {
    let boxed: Box<dyn Guide> = match guide {
        0 => Box::new(alloc, Contrary::new())?,
        1 => Box::new(alloc, Flat::new())?,
        2 => Box::new(alloc, Loud::new())?,
        _ => Box::new(alloc, Mixer::new())?,
    };
    let mut guides = Vec::new(alloc);
    guides.push(boxed)?;
    Ok(run(alloc, words, files, out, &mut guides))
}

// Words, the task file `t`, and what is answered.
type Row = (&'static [&'static str], &'static str, u8, &'static str);

fn tells_misled(rt: &impl Abort, alloc: Global, guide: u32, row: &Row) -> Result<(), Fail> {
    let (words, task, code, text) = *row;
    let words = strings(alloc, words)?;
    let mut files = library(alloc, task, &[])?;
    let mut out = sink(alloc, &[])?;
    let status = misled(alloc, guide, &words, &mut files, &mut out)?;
    is_told(rt, &out, status, code, text);
    Ok(())
}

#[test]
fn no_guide_misleads(rt: HostRuntime) -> Result<(), Fail> {
    let rows: [Row; 3] = [
        (
            &["plan", "t", "--depth", "4"],
            WAYS,
            0,
            "plan 1\ntask ways\n# shortest\nactions 4\nt1\nt2\ngo1\ngo2\nend\n",
        ),
        (
            &["plan", "t", "--depth", "1000", "--states", "2"],
            LOOK,
            1,
            "none to 1000\n",
        ),
        (
            &["trial", "3"],
            "",
            0,
            "trial 3\nworlds 8\ncontracted 8\nshortest 3\nvalidator yes\n",
        ),
    ];
    for row in rows {
        for guide in 0..4 {
            tells_misled(&rt, rt.alloc(), guide, &row)?;
        }
    }
    Ok(())
}
