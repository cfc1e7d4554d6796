//! How much a text may hold.

/// The most bytes of a text whose tokens are read.
pub const MOST_BYTES: u32 = 1_048_576;

/// The most tokens of a text.
pub const MOST_TOKENS: usize = 262_144;

/// The most bytes of a word.
pub const MOST_WORD_BYTES: usize = 64;

/// The most digits of a number.
pub const MOST_DIGITS: usize = 9;
