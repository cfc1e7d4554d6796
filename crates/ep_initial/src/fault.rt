//! Why a task has no initial state.

use ep_logic::OutOfMemory;
use std::fmt;

/// The first in this order comes, with its exact count. The explicit form has but its worlds to count.
#[derive(Clone, Copy, Debug, PartialEq, Eq)]
pub enum InitialError {
    /// Too many distinct varied atoms.
    TooManyVaried { count: u64 },
    /// Too many worlds.
    TooManyWorlds { count: u64 },
    NoDesignated,
    OutOfMemory,
}

impl fmt::Display for InitialError {
    fn fmt<W: fmt::Write>(&self, f: &mut fmt::Formatter<W>) -> fmt::Result {
        match self {
            InitialError::TooManyVaried { count } => write!(f, "too many varied atoms: {count}"),
            InitialError::TooManyWorlds { count } => write!(f, "too many worlds: {count}"),
            InitialError::NoDesignated => write!(f, "no designated world"),
            InitialError::OutOfMemory => write!(f, "out of memory"),
        }
    }
}

impl std::error::Error for InitialError {}

impl From<OutOfMemory> for InitialError {
    ghost use Rattle.std.specs.Prelude.{◌≡◌};
    ghost use Rattle.ep_initial.specs.declared.fault.InitialError.TheVariants.{OutOfMemory};

    ghost from_gives = { λ _ e. e ≡ OutOfMemory };

    fn from(_error: OutOfMemory) -> InitialError {
        InitialError::OutOfMemory
    }
}
