//! How many parameters and objects there may be.

/// The most parameters of one list.
pub const MOST_PARAMETERS: usize = 6;

/// The most objects, of a parameter as of a task.
pub const MOST_OBJECTS: usize = 64;
