//! The rule of each line.

ghost use Rattle.std.specs.Prelude.{◌≡◌, ◌+◌, ◌<◌, ◌≤◌, ◌↔◌, ◌++◌, ◌==◌, [], if◌then◌else◌, length, IsTrue, IfOk, codes};
ghost use Rattle.std.specs.Bool.{MatchBool};
ghost use Rattle.ep_bounds.specs.declared.bounds.TheConstants.{MOST_STATES};
ghost use Rattle.ep_audit.specs.Certificates.{TakesBound, TakesCount, TakesEntry, ShowsStart, ShowsStep, GoesOn};
ghost use Rattle.ep_audit.specs.Sound.{IsSound, IsAt, IsListed};
ghost use Rattle.ep_audit.specs.Shown.{IsTaken};
ghost use Rattle.ep_audit.specs.declared.progress.Progress.{Progress as TheProgress};

use crate::due::next_step;
use crate::entry::{may_stand, read_entry};
use crate::lines::{behind, number_behind};
use crate::map::shows_map;
use crate::named_task::NamedTask;
use crate::progress::{DueLine, Progress};
use crate::step::is_shown;
use ep_bounds::{MOST_BOUND, MOST_STATES};
use ep_logic::OutOfMemory;
use std::alloc::Global;

fn is_task_line(task: &NamedTask, line: &[u8]) -> bool
    ensures { IsTrue result ↔ (line.now ≡ codes "task " ++ task.now.name) }
{
    match behind(line, b"task ") {
        Some(name) => name == task.name().as_slice(),
        None => false,
    }
}

fn take_version(told: &mut Progress, line: &[u8]) -> bool
    ensures { MatchBool result
        ((line.now ≡ codes "cert 1") × (told.new ≡ record told.old { due = DueLine.Task }))
        (line.now ≡ codes "cert 1" → ⊥) }
{
    if line == b"cert 1".as_slice() {
        told.due = DueLine::Task;
        true
    } else {
        false
    }
}

fn take_task(task: &NamedTask, told: &mut Progress, line: &[u8]) -> bool
    ensures { MatchBool result
        ((line.now ≡ codes "task " ++ task.now.name) × (told.new ≡ record told.old { due = DueLine.Bound }))
        (line.now ≡ codes "task " ++ task.now.name → ⊥) }
{
    if is_task_line(task, line) {
        told.due = DueLine::Bound;
        true
    } else {
        false
    }
}

fn is_empty(text: &[u8]) -> bool
    ensures { IsTrue result ↔ (text.now ≡ []) }
{
    match text {
        [] => true,
        [_first, ..] => false,
    }
}

fn take_end(told: &mut Progress, line: &[u8], behind: &[u8]) -> bool
    ensures { MatchBool result
        ((line.now ≡ codes "end") × (behind.now ≡ []) × (told.new ≡ record told.old { due = DueLine.Nothing }))
        ((line.now ≡ codes "end") × (behind.now ≡ []) → ⊥) }
{
    if line == b"end".as_slice() && is_empty(behind) {
        told.due = DueLine::Nothing;
        true
    } else {
        false
    }
}

fn take_bound(told: &mut Progress, line: &[u8]) -> bool
    ensures { MatchBool result (TakesBound told.old line.now told.new) ((next : TheProgress) → TakesBound told.old line.now next → ⊥) }
{
    match number_behind(line, b"none to cost ", MOST_BOUND) {
        Some(bound) => {
            told.bound = bound;
            told.due = DueLine::Count;
            true
        }
        None => false,
    }
}

fn take_count(told: &mut Progress, line: &[u8]) -> bool
    ensures { MatchBool result (TakesCount told.old line.now told.new) ((next : TheProgress) → TakesCount told.old line.now next → ⊥) }
{
    match number_behind(line, b"states ", MOST_STATES) {
        Some(count) => {
            if count == 0 {
                return false;
            }
            told.count = count;
            told.due = DueLine::Entry;
            true
        }
        None => false,
    }
}

fn place_of(told: &Progress) -> u32
    requires { length told.now.entries ≤ MOST_STATES }
    ensures { result ≡ length told.now.entries }
{
    told.entries.as_slice().len() as u32
}

// The first entry has weight 0.
fn is_first_right(place: u32, weight: u32) -> bool
    ensures { IsTrue result ↔ (place ≡ 0 → weight ≡ 0) }
{
    place != 0 || weight == 0
}

fn due_after(place: u32, count: u32) -> DueLine
    requires { place ≤ MOST_STATES }
    ensures { result ≡ (if place + 1 == count then DueLine.Start else DueLine.Entry) }
{
    if place + 1 == count {
        DueLine::Start
    } else {
        DueLine::Entry
    }
}

fn take_entry(
    alloc: Global,
    task: &NamedTask,
    told: &mut Progress,
    line: &[u8],
) -> Result<bool, OutOfMemory>
    requires told { IsSound task.now told.old }
    requires room { length told.old.entries < told.old.count }
    ensures { IfOk result (λ b. MatchBool b (TakesEntry task.now told.old line.now told.new) ((next : TheProgress) → TakesEntry task.now told.old line.now next → ⊥)) }
{
    task.known();
    let place = place_of(told);
    let Some((state, weight)) = read_entry(alloc, line, place, told.bound)? else {
        return Ok(false);
    };
    if !is_first_right(place, weight) {
        return Ok(false);
    }
    if !may_stand(alloc, task, &state)? {
        return Ok(false);
    }
    told.entries.push((state, weight))?;
    told.due = due_after(place, told.count);
    Ok(true)
}

fn take_start(
    alloc: Global,
    task: &NamedTask,
    told: &mut Progress,
    line: &[u8],
) -> Result<bool, OutOfMemory>
    requires told { IsSound task.now told.old }
    requires listed { IsListed told.old }
    ensures { IfOk result (λ b. MatchBool b (ShowsStart task.now told.old line.now × GoesOn task.now told.old 0 told.new) (ShowsStart task.now told.old line.now → ⊥)) }
{
    let Some(text) = behind(line, b"start map ") else {
        return Ok(false);
    };
    let (first, _weight) = &told.entries.as_slice()[0];
    if !shows_map(alloc, task.problem().initial(), first, text)? {
        return Ok(false);
    }
    told.due = next_step(task, told, 0);
    Ok(true)
}

fn take_step(
    alloc: Global,
    task: &NamedTask,
    told: &mut Progress,
    pair: u32,
    line: &[u8],
) -> Result<bool, OutOfMemory>
    requires told { IsSound task.now told.old }
    requires at { IsAt task.now told.old pair }
    ensures { IfOk result (λ b. MatchBool b (ShowsStep task.now told.old pair line.now × GoesOn task.now told.old (pair + 1) told.new) (ShowsStep task.now told.old pair line.now → ⊥)) }
{
    task.known();
    if !is_shown(alloc, task, told, pair, line)? {
        return Ok(false);
    }
    told.due = next_step(task, told, pair + 1);
    Ok(true)
}

/// Takes the line that is due, where `behind` follows it. Whether it keeps its rule.
pub fn take(
    alloc: Global,
    task: &NamedTask,
    told: &mut Progress,
    line: &[u8],
    behind: &[u8],
) -> Result<bool, OutOfMemory>
    requires { IsSound task.now told.old }
    ensures { IfOk result (IsTaken task.now told.old line.now behind.now told.new) }
{
    match told.due {
        DueLine::Version => Ok(take_version(told, line)),
        DueLine::Task => Ok(take_task(task, told, line)),
        DueLine::Bound => Ok(take_bound(told, line)),
        DueLine::Count => Ok(take_count(told, line)),
        DueLine::Entry => take_entry(alloc, task, told, line),
        DueLine::Start => take_start(alloc, task, told, line),
        DueLine::Step { pair } => take_step(alloc, task, told, pair, line),
        DueLine::End => Ok(take_end(told, line, behind)),
        DueLine::Nothing => Ok(false),
    }
}
