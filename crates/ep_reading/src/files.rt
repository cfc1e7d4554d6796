// The files that a command names.
ghost use Rattle.std.specs.Prelude.{[], ◌∷◌, IfErr, OnOk, MatchResult};
ghost use Rattle.ep_reading.specs.Fetches.{Fetches, FetchesAll};
ghost use Rattle.ep_reading.specs.Guides.{StopNeeds};
ghost use Rattle.ep_reading.specs.Run.{GoesOn};
ghost use Rattle.ep_reading.specs.Steps.{IsFetched, IsTaskFile, StopsAtFetch, StopsAtTask};

use crate::read::read_task;
use ep_answer::{Answer, Cause, Stop, Subject};
use ep_ground::Task;
use ep_io::{FetchError, Library};
use ep_lex::MOST_BYTES;
use std::alloc::Global;

/// The bytes of a file.
#[tactic(auto, using(crate::proofs::FetchLemmas::fetches_any))]
pub fn fetch_file<L: Library>(
    alloc: Global,
    files: &mut L,
    subject: Subject,
    name: &str,
) -> Result<Vec<u8>, Stop>
    ensures goes_on { GoesOn (L.library files.old) (L.library files.new) }
    ensures fetched { MatchResult result
        (λ bytes. IsFetched (L.library files.old) name.now bytes.items)
        (StopsAtFetch (L.library files.old) (L.library files.new) subject name.now) }
    ensures needs { IfErr result (λ stop. StopNeeds stop → ⊥) }
    ensures fetches { Fetches (name.now ∷ []) (L.library files.old) (L.library files.new) }
    ensures whole { OnOk result (FetchesAll (name.now ∷ []) (L.library files.old) (L.library files.new)) }
{
    let mut bytes = Vec::new(alloc);
    match files.fetch(name, MOST_BYTES, &mut bytes) {
        Ok(()) => Ok(bytes),
        Err(FetchError::Missing) => Err(Stop::Told(Answer::Refused(subject, Cause::NoSuchFile))),
        Err(FetchError::TooLong) => Err(Stop::Told(Answer::Refused(subject, Cause::TooLong))),
        Err(FetchError::Failed) => Err(Stop::Told(Answer::Unreadable(subject))),
        Err(FetchError::OutOfMemory) => Err(Stop::OutOfMemory),
    }
}

/// The ground task of a file.
pub fn read_task_file<L: Library>(alloc: Global, files: &mut L, name: &str) -> Result<Task, Stop>
    ensures goes_on { GoesOn (L.library files.old) (L.library files.new) }
    ensures task { MatchResult result
        (IsTaskFile (L.library files.old) name.now)
        (StopsAtTask (L.library files.old) (L.library files.new) name.now) }
    ensures needs { IfErr result (λ stop. StopNeeds stop → ⊥) }
    ensures fetches { Fetches (name.now ∷ []) (L.library files.old) (L.library files.new) }
    ensures whole { OnOk result (FetchesAll (name.now ∷ []) (L.library files.old) (L.library files.new)) }
{
    let bytes = fetch_file(alloc, files, Subject::Task, name)?;
    read_task(alloc, &bytes)
}
