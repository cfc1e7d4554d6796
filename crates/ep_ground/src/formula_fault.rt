//! Why a formula has no ground form.

use ep_logic::OutOfMemory;
use ep_types::{TypeError, TypeFault};
use std::fmt;

/// Why a formula has no ground form in a task. `token` is the formula's first.
#[derive(Clone, Copy, Debug, PartialEq, Eq)]
pub enum FormulaFault {
    /// The first type fault, with its own token.
    Typing { fault: TypeFault, token: u32 },
    /// The ground form has more nodes than it may have.
    TooLarge { token: u32 },
    OutOfMemory,
}

impl fmt::Display for FormulaFault {
    fn fmt<W: fmt::Write>(&self, f: &mut fmt::Formatter<W>) -> fmt::Result {
        match self {
            FormulaFault::Typing { fault, token } => write!(f, "{fault} at token {token}"),
            FormulaFault::TooLarge { token } => write!(f, "formula too large at token {token}"),
            FormulaFault::OutOfMemory => write!(f, "out of memory"),
        }
    }
}

impl std::error::Error for FormulaFault {}

impl From<TypeError> for FormulaFault {
    ghost use Rattle.std.specs.Prelude.{◌≡◌};
    ghost use Rattle.ep_ground.specs.FormulaFaults.{of_type_error};

    ghost from_gives = { λ error fault. fault ≡ of_type_error error };

    fn from(error: TypeError) -> FormulaFault {
        match error {
            TypeError::At { fault, token } => FormulaFault::Typing { fault, token },
            TypeError::OutOfMemory => FormulaFault::OutOfMemory,
        }
    }
}

impl From<OutOfMemory> for FormulaFault {
    ghost use Rattle.std.specs.Prelude.{◌≡◌};
    ghost use Rattle.ep_ground.specs.declared.formula_fault.FormulaFault.TheVariants.{OutOfMemory};

    ghost from_gives = { λ _ e. e ≡ OutOfMemory };

    fn from(_error: OutOfMemory) -> FormulaFault {
        FormulaFault::OutOfMemory
    }
}
