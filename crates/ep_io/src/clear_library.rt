// A library in memory that never fails.
ghost use Rattle.std.specs.Prelude.{◌≡◌, []};
ghost use Rattle.ep_io.specs.MemoryLibrary.{memory_library, failing_calls};

use crate::{FetchError, Library, MemoryLibrary};
use ep_base::{List, Text};
use std::alloc::Global;

/// Files in memory. No call fails, and its count of faults stays at 0.
#[derive(Drop)]
pub struct ClearLibrary {
    library: MemoryLibrary,
    ghost clear: { failing_calls library ≡ [] },
    ghost without_fault: { (memory_library library).faults ≡ 0 },
}

impl ClearLibrary {
    ghost use Rattle.std.specs.Prelude.{◌≡◌};
    ghost use Rattle.ep_io.specs.MemoryLibrary.{AreNamesDistinct, new_library};
    ghost use Rattle.ep_io.specs.Clear.{clear_library};

    pub fn new(alloc: Global, files: List<(Text, List<u8>)>) -> ClearLibrary
        requires { AreNamesDistinct files }
        ensures { clear_library result ≡ new_library files }
    {
        ClearLibrary {
            library: MemoryLibrary::new(alloc, files, List::new(alloc)),
        }
    }
}

impl Library for ClearLibrary {
    ghost use Rattle.ep_io.specs.Clear.{clear_library};

    ghost library = { clear_library };

    fn fetch(&mut self, name: &str, limit: u32, into: &mut Vec<u8>) -> Result<(), FetchError> {
        self.library.fetch(name, limit, into)
    }
}
