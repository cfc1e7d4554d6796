//! How much an initial state of the lawful form may vary.

/// The most distinct varied atoms.
pub const MOST_VARIED: usize = 12;
