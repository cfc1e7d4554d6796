//! Why a list of tokens is not read.

use ep_base::OutOfMemory;
use std::alloc::AllocError;
use std::fmt;

/// `token` is the place of a token, or the number of tokens where the end is at fault.
#[derive(Clone, Copy, Debug, PartialEq, Eq)]
pub enum SyntaxError {
    /// No text of the grammar goes on with this token.
    Syntax { token: u32 },
    /// The token begins a formula that stands in too many others.
    TooDeep { token: u32 },
    OutOfMemory,
}

impl fmt::Display for SyntaxError {
    fn fmt<W: fmt::Write>(&self, f: &mut fmt::Formatter<W>) -> fmt::Result {
        match self {
            SyntaxError::Syntax { token } => write!(f, "syntax at token {token}"),
            SyntaxError::TooDeep { token } => write!(f, "too deep at token {token}"),
            SyntaxError::OutOfMemory => write!(f, "out of memory"),
        }
    }
}

impl std::error::Error for SyntaxError {}

impl From<AllocError> for SyntaxError {
    ghost use Rattle.std.specs.Prelude.{◌≡◌};
    ghost use Rattle.ep_reader.specs.declared.error.SyntaxError.TheVariants as error;

    ghost from_gives = { λ _ e. e ≡ error.OutOfMemory };

    fn from(_error: AllocError) -> SyntaxError {
        SyntaxError::OutOfMemory
    }
}

impl From<OutOfMemory> for SyntaxError {
    ghost use Rattle.std.specs.Prelude.{◌≡◌};
    ghost use Rattle.ep_reader.specs.declared.error.SyntaxError.TheVariants as error;

    ghost from_gives = { λ _ e. e ≡ error.OutOfMemory };

    fn from(_error: OutOfMemory) -> SyntaxError {
        SyntaxError::OutOfMemory
    }
}
