// Runs of the words over a library and a sink in memory.
ghost use Rattle.std.specs.Prelude.{◌≡◌, ◌<◌, ◌∷◌, [], IfOk};

use ep_base::{List, Text};
use ep_cli::{Status, run};
use ep_guide::{ByDepth, ByUnmet, Guide};
use ep_io::{MemoryLibrary, MemorySink, SinkFault};
use std::alloc::{AllocError, Global};
use std::process::Abort;
use std::test::Fail;

// A file whose name is one letter.
fn file(alloc: Global, letter: u8, text: &str) -> Result<(Text, List<u8>), AllocError>
    requires { letter < 128 }
    ensures { IfOk result (λ file. file.0 ≡ letter ∷ []) }
{
    let bytes = List::from_vec(text.as_bytes().to_vec(alloc)?);
    let name = Text::from_vec(vec![in alloc; letter]?);
    Ok((name, bytes))
}

/// A library with a task `t`. The fetches whose numbers are given fail.
pub fn library(alloc: Global, task: &str, failing: &[u32]) -> Result<MemoryLibrary, AllocError> {
    let failing = List::from_vec(failing.to_vec(alloc)?);
    let task = file(alloc, b't', task)?;
    let files = List::from_vec(vec![in alloc; task]?);
    Ok(MemoryLibrary::new(alloc, files, failing))
}

/// A library with a task `t` and the plan files `a` and `b`.
pub fn library_of_plans(
    alloc: Global,
    task: &str,
    plans: [&str; 2],
    failing: &[u32],
) -> Result<MemoryLibrary, AllocError> {
    let [a, b] = plans;
    let failing = List::from_vec(failing.to_vec(alloc)?);
    let task = file(alloc, b't', task)?;
    let first = file(alloc, b'a', a)?;
    let second = file(alloc, b'b', b)?;
    let files = List::from_vec(vec![in alloc; task, first, second]?);
    Ok(MemoryLibrary::new(alloc, files, failing))
}

/// A sink whose puts at these faults fail.
pub fn sink(alloc: Global, faults: &[SinkFault]) -> Result<MemorySink, Fail> {
    let faults = List::from_vec(faults.to_vec(alloc)?);
    Ok(MemorySink::new(alloc, 1000, faults)?)
}

/// The words as strings.
pub fn strings(alloc: Global, words: &[&str]) -> Result<Vec<String>, AllocError> {
    let mut all = Vec::new(alloc);
    for word in words {
        all.push(String::from_str(alloc, word)?)?;
    }
    Ok(all)
}

// Runs the words with two guides: `depth` and `unmet`.
fn guided(
    alloc: Global,
    words: &[String],
    files: &mut MemoryLibrary,
    out: &mut MemorySink,
) -> Result<Status, AllocError> {
    let mut guides = Vec::new(alloc);
    let by_depth: Box<dyn Guide> = Box::new(alloc, ByDepth::new())?;
    guides.push(by_depth)?;
    let by_unmet: Box<dyn Guide> = Box::new(alloc, ByUnmet::new())?;
    guides.push(by_unmet)?;
    Ok(run(alloc, words, files, out, &mut guides))
}

/// Runs the words with the guides `depth` and `unmet`.
pub fn ran(
    alloc: Global,
    words: &[&str],
    files: &mut MemoryLibrary,
    out: &mut MemorySink,
) -> Result<Status, AllocError> {
    let words = strings(alloc, words)?;
    guided(alloc, &words, files, out)
}

/// That this text was written with this status.
pub fn is_told(rt: &impl Abort, out: &MemorySink, status: Status, code: u8, text: &str) {
    assert_eq!(rt; out.bytes(), text.as_bytes(), "{text}");
    assert_eq!(rt; status.code(), code, "{text}");
}

/// What the words answer over these files.
pub fn tells(
    rt: &impl Abort,
    alloc: Global,
    files: &mut MemoryLibrary,
    words: &[&str],
    code: u8,
    text: &str,
) -> Result<(), Fail> {
    let mut out = sink(alloc, &[])?;
    let status = ran(alloc, words, files, &mut out)?;
    is_told(rt, &out, status, code, text);
    Ok(())
}

/// What the words answer for the task `t`.
pub fn tells_of_task(
    rt: &impl Abort,
    alloc: Global,
    task: &str,
    words: &[&str],
    code: u8,
    text: &str,
) -> Result<(), Fail> {
    let mut files = library(alloc, task, &[])?;
    tells(rt, alloc, &mut files, words, code, text)
}

/// What the words answer for the task `t` and the plan files `a` and `b`.
pub fn tells_of_plans(
    rt: &impl Abort,
    alloc: Global,
    files: (&str, [&str; 2]),
    words: &[&str],
    code: u8,
    text: &str,
) -> Result<(), Fail> {
    let (task, plans) = files;
    let mut files = library_of_plans(alloc, task, plans, &[])?;
    tells(rt, alloc, &mut files, words, code, text)
}
