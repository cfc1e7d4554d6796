// A library whose count of faults stands at its end.

ghost use Rattle.std.specs.Prelude.{None};
ghost use Rattle.ep_base.specs.Counts.{last_count};

use crate::memory::{is_told, sink, strings};
use ep_base::List;
use ep_cli::run;
use ep_guide::Guide;
use ep_io::{FetchError, Library};
use std::alloc::Global;
use std::test::Fail;

// Fails at every call.
#[derive(Drop)]
struct Worn {
    alloc: Global,
    blamed: Option<List<u8>>,
    fetched: List<List<u8>>,
}

impl Library for Worn {
    ghost library = { λ w. record { held = None; faults = last_count; blamed = w.blamed; taken = 0; fetched = w.fetched; started = 0 } };

    fn fetch(&mut self, name: &str, _limit: u32, _into: &mut Vec<u8>) -> Result<(), FetchError> {
        let copy = List::from_vec(Vec::from_slice(self.alloc, name.as_bytes())?);
        let kept = List::from_vec(Vec::from_slice(self.alloc, name.as_bytes())?);
        self.fetched.push(kept)?;
        self.blamed = Some(copy);
        Err(FetchError::Failed)
    }
}

#[test]
fn a_worn_library_still_fails(rt: HostRuntime) -> Result<(), Fail> {
    let alloc = rt.alloc();
    let words = strings(alloc, &["check", "t"])?;
    let mut files = Worn {
        alloc,
        blamed: None,
        fetched: List::new(alloc),
    };
    let mut out = sink(alloc, &[])?;
    let mut guides: Vec<Box<dyn Guide>> = Vec::new(alloc);
    let status = run(alloc, &words, &mut files, &mut out, &mut guides);
    is_told(&rt, &out, status, 4, "fault: task cannot be read\n");
    Ok(())
}
