//! How many things there may be.

/// The most agents.
pub const MOST_AGENTS: usize = 8;

/// The most ground atoms.
pub const MOST_ATOMS: u64 = 256;

/// The most events of an action.
pub const MOST_EVENTS: usize = 16;

/// The most ground actions of a task.
pub const MOST_GROUND_ACTIONS: u64 = 1_024;

/// The most worlds of the initial state of a task.
pub const MOST_INITIAL_WORLDS: usize = 256;
