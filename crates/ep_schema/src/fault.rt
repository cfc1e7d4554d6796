//! Why schemas have no ground actions.

use ep_logic::{OutOfMemory as NoMemory, Text};
use std::{fmt, str};

/// An event assigns to one atom twice, or memory is wanting.
#[derive(Debug, Drop)]
pub enum SchemaError {
    /// The printed name of the first ground action with such an event.
    AtomTwice { name: Text },
    OutOfMemory,
}

impl fmt::Display for SchemaError {
    fn fmt<W: fmt::Write>(&self, f: &mut fmt::Formatter<W>) -> fmt::Result {
        match self {
            SchemaError::AtomTwice { name } => write_twice(f, name),
            SchemaError::OutOfMemory => write!(f, "out of memory"),
        }
    }
}

fn write_twice<W: fmt::Write>(f: &mut fmt::Formatter<W>, name: &Text) -> fmt::Result {
    match str::from_utf8(name.as_slice()) {
        Ok(name) => write!(f, "atom set twice: {name}"),
        Err(_) => Err(fmt::Error),
    }
}

impl std::error::Error for SchemaError {}

impl From<NoMemory> for SchemaError {
    ghost use Rattle.std.specs.Prelude.{◌≡◌};
    ghost use Rattle.ep_schema.specs.declared.fault.SchemaError.TheVariants.{OutOfMemory};

    ghost from_gives = { λ _ e. e ≡ OutOfMemory };

    fn from(_error: NoMemory) -> SchemaError {
        SchemaError::OutOfMemory
    }
}
