// Runs over a library, or a sink, that never fails.
ghost use Rattle.std.specs.Prelude.{◌≢◌};

use crate::top::run;
use ep_answer::Status;
use ep_guide::Guide;
use ep_io::{ClearLibrary, ClearSink, Library, Sink};
use std::alloc::Global;

/// `run`, where no read fault comes.
pub fn run_on_clear_library<S: Sink>(
    alloc: Global,
    words: &[String],
    files: &mut ClearLibrary,
    out: &mut S,
    guides: &mut Vec<Box<dyn Guide>>,
) -> Status
    ensures { result ≢ Status.ReadFault }
{
    run(alloc, words, files, out, guides)
}

/// `run`, where no write fault comes.
pub fn run_to_clear_sink<L: Library>(
    alloc: Global,
    words: &[String],
    files: &mut L,
    out: &mut ClearSink,
    guides: &mut Vec<Box<dyn Guide>>,
) -> Status
    ensures { result ≢ Status.WriteFault }
{
    run(alloc, words, files, out, guides)
}
