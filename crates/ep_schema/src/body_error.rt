//! Why a body gives no action.

use ep_logic::OutOfMemory as NoMemory;
use std::fmt;

/// An event assigns to one atom twice, or memory is wanting.
#[derive(Clone, Copy, Debug, PartialEq, Eq)]
pub enum BodyError {
    AtomTwice,
    OutOfMemory,
}

impl fmt::Display for BodyError {
    fn fmt<W: fmt::Write>(&self, f: &mut fmt::Formatter<W>) -> fmt::Result {
        match self {
            BodyError::AtomTwice => write!(f, "atom set twice"),
            BodyError::OutOfMemory => write!(f, "out of memory"),
        }
    }
}

impl std::error::Error for BodyError {}

impl From<NoMemory> for BodyError {
    ghost use Rattle.std.specs.Prelude.{◌≡◌};
    ghost use Rattle.ep_schema.specs.declared.body_error.BodyError.TheVariants.{OutOfMemory};

    ghost from_gives = { λ _ e. e ≡ OutOfMemory };

    fn from(_error: NoMemory) -> BodyError {
        BodyError::OutOfMemory
    }
}
