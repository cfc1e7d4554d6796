// What is stored, and the answers of the store.

ghost use Rattle.std.specs.Prelude.{◌≡◌, ◌<◌, ◌≤◌, if◌then◌else◌};
ghost use Rattle.std.specs.Bool.{MatchBool};

use ep_canon::Canon;
use ep_logic::{ActionId, StateId};
use std::fmt;

/// An action that was done in the state of an entry, and what it adds to the weight: at least 1.
#[derive(Clone, Copy)]
pub struct Step {
    pub parent: StateId,
    pub action: ActionId,
    pub toll: u32,
}

/// A state, the weight at which it was met, and the step that it was made by, if it is not the first.
#[derive(Drop)]
pub struct Entry {
    pub canon: Canon,
    pub weight: u32,
    pub from: Option<Step>,
}

/// The entry that has the state, and what became of it.
#[derive(Clone, Copy)]
pub enum Added {
    New(StateId),
    /// It had the state with a greater weight.
    Better(StateId),
    Known(StateId),
}

/// A state that was not stored.
#[derive(Debug, Drop)]
pub enum StoreError {
    /// The store has as many states as it may have, and this is none of them.
    Full(Canon),
    OutOfMemory(Canon),
}

impl fmt::Display for StoreError {
    fn fmt<W: fmt::Write>(&self, f: &mut fmt::Formatter<W>) -> fmt::Result {
        match self {
            StoreError::Full(_) => write!(f, "the store is full"),
            StoreError::OutOfMemory(_) => write!(f, "out of memory"),
        }
    }
}

impl std::error::Error for StoreError {}

// Takes the weight and the step, if the weight is less. Whether it is.
pub(crate) fn improve(entry: &mut Entry, weight: u32, from: Option<Step>) -> bool
    ensures less { MatchBool result (weight < entry.old.weight) (entry.old.weight ≤ weight) }
    ensures after { entry.new ≡ (if result then record entry.old { weight = weight; from = from } else entry.old) }
{
    let less = weight < entry.weight;
    if less {
        entry.weight = weight;
        entry.from = from;
    }
    less
}
