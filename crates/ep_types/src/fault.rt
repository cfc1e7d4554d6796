use ep_base::OutOfMemory as NoMemory;
use std::alloc::AllocError;
use std::fmt;

/// What is wrong at a token.
#[derive(Clone, Copy, Debug, PartialEq, Eq)]
pub enum TypeFault {
    /// A parameter or parameter type behind as many as a list may have.
    TooManyParameters,
    /// A declared name that its list already has, or a fact that is varied.
    Duplicate,
    /// A used name that is not declared in its list at that place.
    Unknown,
    /// An atom with another number of arguments than declared.
    WrongArity,
    /// An argument whose type is neither the declared one nor below it.
    WrongType,
    /// A name after `knows` or in a group whose type is neither `agent` nor below it.
    NotAgent,
    /// A group without a member.
    EmptyGroup,
    /// Knowledge in the law or in the designated formula of an initial state.
    NotObjective,
}

impl fmt::Display for TypeFault {
    ghost use Rattle.std.specs.Prelude.{Some};
    ghost use Rattle.ep_types.specs.FaultTexts.{fault_text};

    ghost output = { λ f. Some (fault_text f) };

    fn fmt<W: fmt::Write>(&self, f: &mut fmt::Formatter<W>) -> fmt::Result {
        f.write_str(match self {
            TypeFault::TooManyParameters => "too many parameters",
            TypeFault::Duplicate => "duplicate name",
            TypeFault::Unknown => "unknown name",
            TypeFault::WrongArity => "wrong number of arguments",
            TypeFault::WrongType => "wrong type",
            TypeFault::NotAgent => "not an agent",
            TypeFault::EmptyGroup => "empty group",
            TypeFault::NotObjective => "knowledge not allowed",
        })
    }
}

/// The first fault with the number of its token, or want of memory.
#[derive(Clone, Copy, Debug, PartialEq, Eq)]
pub enum TypeError {
    At { fault: TypeFault, token: u32 },
    OutOfMemory,
}

impl fmt::Display for TypeError {
    fn fmt<W: fmt::Write>(&self, f: &mut fmt::Formatter<W>) -> fmt::Result {
        match self {
            TypeError::At { fault, token } => write!(f, "{fault} at token {token}"),
            TypeError::OutOfMemory => write!(f, "out of memory"),
        }
    }
}

impl std::error::Error for TypeError {}

impl From<AllocError> for TypeError {
    ghost use Rattle.std.specs.Prelude.{◌≡◌};
    ghost use Rattle.ep_types.specs.declared.fault.TypeError.TheVariants.{OutOfMemory};

    ghost from_gives = { λ _ e. e ≡ OutOfMemory };

    fn from(_: AllocError) -> TypeError {
        TypeError::OutOfMemory
    }
}

impl From<NoMemory> for TypeError {
    ghost use Rattle.std.specs.Prelude.{◌≡◌};
    ghost use Rattle.ep_types.specs.declared.fault.TypeError.TheVariants.{OutOfMemory};

    ghost from_gives = { λ _ e. e ≡ OutOfMemory };

    fn from(_: NoMemory) -> TypeError {
        TypeError::OutOfMemory
    }
}
