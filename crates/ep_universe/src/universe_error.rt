//! Why a typed task has no universe.

use ep_logic::OutOfMemory as NoMemory;
use std::fmt;

/// The first in this order comes, with its exact count.
#[derive(Clone, Copy, Debug, PartialEq, Eq)]
pub enum UniverseError {
    TooManyObjects { count: u64 },
    NoAgent,
    TooManyAgents { count: u64 },
    /// Too many ground atoms.
    TooManyAtoms { count: u64 },
    OutOfMemory,
}

impl fmt::Display for UniverseError {
    fn fmt<W: fmt::Write>(&self, f: &mut fmt::Formatter<W>) -> fmt::Result {
        match self {
            UniverseError::TooManyObjects { count } => write!(f, "too many objects: {count}"),
            UniverseError::NoAgent => write!(f, "no agent"),
            UniverseError::TooManyAgents { count } => write!(f, "too many agents: {count}"),
            UniverseError::TooManyAtoms { count } => write!(f, "too many atoms: {count}"),
            UniverseError::OutOfMemory => write!(f, "out of memory"),
        }
    }
}

impl std::error::Error for UniverseError {}

impl From<NoMemory> for UniverseError {
    ghost use Rattle.std.specs.Prelude.{◌≡◌};
    ghost use Rattle.ep_universe.specs.declared.universe_error.UniverseError.TheVariants.{OutOfMemory};

    ghost from_gives = { λ _ e. e ≡ OutOfMemory };

    fn from(_error: NoMemory) -> UniverseError {
        UniverseError::OutOfMemory
    }
}
