//! How large a state may be that is written as bytes.

/// The most worlds of a state that is written as bytes.
pub const MOST_WRITTEN_WORLDS: u32 = 4_096;
