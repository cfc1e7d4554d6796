//! How much a ground form may have.

/// The most nodes of a ground form.
pub const MOST_GROUND_NODES: u64 = 65_536;
