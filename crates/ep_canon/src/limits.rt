//! How large a state may be that is contracted.

/// The most worlds of a state that is contracted.
pub const MOST_CONTRACTED_WORLDS: u32 = 4_096;
