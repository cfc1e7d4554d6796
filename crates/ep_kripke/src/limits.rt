//! How large a state may be.

/// The most worlds of a state.
pub const MOST_WORLDS: u32 = 65_536;

/// The most worlds of a state whose links are kept as rows of bits.
pub const MOST_PACKED: u32 = 4_096;
