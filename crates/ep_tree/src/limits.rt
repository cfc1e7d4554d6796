//! How deep formulas may be written one in another.

/// The greatest nesting of a formula that is read.
pub const MOST_NESTING: u32 = 64;
