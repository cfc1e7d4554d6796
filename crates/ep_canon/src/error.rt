// Why bytes are not those of a canonical state.

use ep_bytes::ReadError;
use ep_logic::OutOfMemory;
use std::fmt;

/// Why bytes were not read.
#[derive(Clone, Copy, Debug, PartialEq, Eq)]
pub enum CanonError {
    /// No canonical state of at most 4,096 worlds, 8 agents and 256 atoms has these bytes.
    NotCanonical,
    OutOfMemory,
}

impl fmt::Display for CanonError {
    fn fmt<W: fmt::Write>(&self, f: &mut fmt::Formatter<W>) -> fmt::Result {
        match self {
            CanonError::NotCanonical => write!(f, "no canonical state"),
            CanonError::OutOfMemory => write!(f, "out of memory"),
        }
    }
}

impl std::error::Error for CanonError {}

impl From<OutOfMemory> for CanonError {
    ghost use Rattle.std.specs.Prelude.{◌≡◌};
    ghost use Rattle.ep_canon.specs.declared.error.CanonError.TheVariants.{OutOfMemory};

    ghost from_gives = { λ _ e. e ≡ OutOfMemory };

    fn from(_error: OutOfMemory) -> CanonError {
        CanonError::OutOfMemory
    }
}

impl From<ReadError> for CanonError {
    ghost use Rattle.std.specs.Prelude.{◌≡◌};
    ghost use Rattle.ep_canon.specs.Canon.{refusal_of};

    ghost from_gives = { λ error e. e ≡ refusal_of error };

    fn from(error: ReadError) -> CanonError {
        match error {
            ReadError::NoState => CanonError::NotCanonical,
            ReadError::OutOfMemory => CanonError::OutOfMemory,
        }
    }
}
