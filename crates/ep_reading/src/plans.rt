// The plan of a word.
ghost use Rattle.std.specs.Prelude.{◌≡◌, ◌≤◌, length, MatchOption, MatchResult, OnOk};
ghost use Rattle.ep_lex.specs.declared.limits.TheConstants.{MOST_BYTES};
ghost use Rattle.ep_plan_text.specs.declared.read.PlanError.TheVariants as fault;
ghost use Rattle.ep_reading.specs.Fetches.{Fetches, FetchesAll, plan_files};
ghost use Rattle.ep_reading.specs.PlanFile.{IsPlanCause, PlanRead};
ghost use Rattle.ep_reading.specs.Run.{GoesOn};
ghost use Rattle.ep_reading.specs.Steps.{IsReadPlan, IsPlanWord, StopsAtPlan, StopsBy, nothing_behind};

use crate::files::fetch_file;
use ep_answer::{Answer, Cause, Place, Stop, Subject};
use ep_base::List;
use ep_ground::{Plan, Task};
use ep_io::Library;
use ep_plan_text::PlanError;
use std::alloc::Global;

// The cause that tells the fault of a plan file; there is none for want of memory.
fn cause_of(error: PlanError) -> Option<Cause>
    ensures { MatchOption result (error ≡ fault.OutOfMemory) (IsPlanCause error) }
{
    match error {
        PlanError::Stray { at } => Some(Cause::StrayByte { at }),
        PlanError::TooManyTokens => Some(Cause::TooManyTokens),
        PlanError::Syntax { token, line } => Some(Cause::Syntax(Place { token, line })),
        PlanError::OtherTask => Some(Cause::OtherTask),
        PlanError::UnknownAction { line } => Some(Cause::UnknownAction { line }),
        PlanError::WrongCount { .. } => Some(Cause::WrongCount),
        PlanError::WrongCost { .. } => Some(Cause::WrongCost),
        PlanError::OutOfMemory => None,
    }
}

fn read_plan(alloc: Global, subject: Subject, task: &Task, bytes: &[u8]) -> Result<Plan, Stop>
    requires { length bytes.now ≤ MOST_BYTES }
    ensures { MatchResult result (IsReadPlan task.now bytes.now)
        (StopsBy (PlanRead subject task.now bytes.now nothing_behind)) }
{
    match ep_plan_text::read_plan(alloc, task, bytes) {
        Ok(plan) => Ok(plan),
        Err(error) => match cause_of(error) {
            Some(cause) => Err(Stop::Told(Answer::Refused(subject, cause))),
            None => Err(Stop::OutOfMemory),
        },
    }
}

/// The plan of a word: `-` is the empty plan, and any other word names a plan file of the task.
pub fn read_plan_file<L: Library>(
    alloc: Global,
    files: &mut L,
    subject: Subject,
    task: &Task,
    word: &str,
) -> Result<Plan, Stop>
    ensures goes_on { GoesOn (L.library files.old) (L.library files.new) }
    ensures plan { MatchResult result
        (IsPlanWord (L.library files.old) word.now task.now)
        (StopsAtPlan (L.library files.old) (L.library files.new) subject word.now task.now) }
    ensures fetches { Fetches (plan_files word.now) (L.library files.old) (L.library files.new) }
    ensures whole { OnOk result (FetchesAll (plan_files word.now) (L.library files.old) (L.library files.new)) }
{
    if word == "-" {
        return Ok(List::new(alloc));
    }
    let bytes = fetch_file(alloc, files, subject, word)?;
    read_plan(alloc, subject, task, &bytes)
}
