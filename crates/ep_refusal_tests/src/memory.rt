// Runs of the words over a library of one task and a sink in memory.

use ep_base::{List, Text};
use ep_cli::{Status, run};
use ep_guide::{ByDepth, Guide};
use ep_io::{MemoryLibrary, MemorySink};
use std::alloc::{AllocError, Global};
use std::process::Abort;
use std::test::Fail;

// A library with a task `t`.
fn library(alloc: Global, task: &[u8]) -> Result<MemoryLibrary, AllocError> {
    let bytes = List::from_vec(task.to_vec(alloc)?);
    let name = Text::from_vec(vec![in alloc; b't']?);
    let files = List::from_vec(vec![in alloc; (name, bytes)]?);
    Ok(MemoryLibrary::new(alloc, files, List::new(alloc)))
}

fn strings(alloc: Global, words: &[&str]) -> Result<Vec<String>, AllocError> {
    let mut all = Vec::new(alloc);
    for word in words {
        all.push(String::from_str(alloc, word)?)?;
    }
    Ok(all)
}

// Runs the words with the guide `depth`.
fn guided(
    alloc: Global,
    words: &[String],
    files: &mut MemoryLibrary,
    out: &mut MemorySink,
) -> Result<Status, AllocError> {
    let by_depth: Box<dyn Guide> = Box::new(alloc, ByDepth::new())?;
    let mut guides = Vec::new(alloc);
    guides.push(by_depth)?;
    Ok(run(alloc, words, files, out, &mut guides))
}

fn ran(
    alloc: Global,
    words: &[&str],
    task: &[u8],
    out: &mut MemorySink,
) -> Result<Status, AllocError> {
    let words = strings(alloc, words)?;
    let mut files = library(alloc, task)?;
    guided(alloc, &words, &mut files, out)
}

fn is_told(rt: &impl Abort, out: &MemorySink, told: Status, status: Status, text: &str) {
    assert_eq!(rt; out.bytes(), text.as_bytes(), "{text}");
    assert_eq!(rt; told, status, "{text}");
}

/// What `plan` to depth 0 answers for the task of these bytes.
pub fn answers(
    rt: &impl Abort,
    alloc: Global,
    task: &[u8],
    status: Status,
    text: &str,
) -> Result<(), Fail> {
    let mut out = MemorySink::new(alloc, 100, List::new(alloc))?;
    let told = ran(alloc, &["plan", "t", "--depth", "0"], task, &mut out)?;
    is_told(rt, &out, told, status, text);
    Ok(())
}

fn checked(rt: &impl Abort, alloc: Global, task: &[u8], text: &str) -> Result<(), Fail> {
    let mut out = MemorySink::new(alloc, 100, List::new(alloc))?;
    let told = ran(alloc, &["check", "t"], task, &mut out)?;
    is_told(rt, &out, told, Status::Refused, text);
    Ok(())
}

/// That the task of these bytes is refused.
pub fn refuses(rt: &impl Abort, alloc: Global, task: &[u8], cause: &str) -> Result<(), Fail> {
    let text = format!(in alloc; "refused: task: {cause}\n")?;
    checked(rt, alloc, task, &text)
}
