//! How large states may be.

/// The most worlds of a state that is told apart from another.
pub const MOST_TOLD: u32 = 256;

/// The most worlds of two such states.
pub const MOST_JOINT: u32 = 512;
