//! Why a typed task has no ground task.

use ep_initial::InitialError;
use ep_logic::{OutOfMemory, Text};
use ep_schema::SchemaError;
use ep_universe::UniverseError;
use std::{fmt, str};

/// Where a relation is no equivalence.
#[derive(Debug, Drop)]
pub enum S5Place {
    Initial,
    /// A ground action, by its printed name.
    Action { name: Text },
}

/// The first in this order comes, with its exact count. `schema` counts the schemas from 0, and `token` is the first one of
/// the formula.
#[derive(Debug, Drop)]
pub enum GroundError {
    TooManyObjects { count: u64 },
    NoAgent,
    TooManyAgents { count: u64 },
    TooManyAtoms { count: u64 },
    TooManyActions { count: u64 },
    TooManyEvents { schema: u32, count: u64 },
    TooLargeFormula { token: u32 },
    TooLargeTask { count: u64 },
    /// The printed name of the first ground action with an event that assigns to one atom twice.
    AtomTwice { name: Text },
    TooManyVaried { count: u64 },
    TooManyWorlds { count: u64 },
    NoDesignated,
    /// The relations are to be equivalences, and that of this agent is none: the first, the initial state before the
    /// actions in order, and in each the first agent.
    NotS5 { place: S5Place, agent: Text },
    OutOfMemory,
}

impl fmt::Display for GroundError {
    fn fmt<W: fmt::Write>(&self, f: &mut fmt::Formatter<W>) -> fmt::Result {
        match self {
            GroundError::TooManyObjects { count } => write!(f, "too many objects: {count}"),
            GroundError::NoAgent => write!(f, "no agent"),
            GroundError::TooManyAgents { count } => write!(f, "too many agents: {count}"),
            GroundError::TooManyAtoms { count } => write!(f, "too many atoms: {count}"),
            GroundError::TooManyActions { count } => write!(f, "too many actions: {count}"),
            GroundError::TooManyEvents { schema, count } => {
                write!(f, "too many events in schema {schema}: {count}")
            }
            GroundError::TooLargeFormula { token } => {
                write!(f, "formula too large at token {token}")
            }
            GroundError::TooLargeTask { count } => write!(f, "task too large: {count}"),
            GroundError::AtomTwice { name } => write_twice(f, name),
            GroundError::TooManyVaried { count } => write!(f, "too many varied atoms: {count}"),
            GroundError::TooManyWorlds { count } => write!(f, "too many worlds: {count}"),
            GroundError::NoDesignated => write!(f, "no designated world"),
            GroundError::NotS5 { place, agent } => write_not_s5(f, place, agent),
            GroundError::OutOfMemory => write!(f, "out of memory"),
        }
    }
}

fn write_twice<W: fmt::Write>(f: &mut fmt::Formatter<W>, name: &Text) -> fmt::Result {
    match str::from_utf8(name.as_slice()) {
        Ok(name) => write!(f, "atom set twice: {name}"),
        Err(_) => Err(fmt::Error),
    }
}

fn write_not_s5<W: fmt::Write>(
    f: &mut fmt::Formatter<W>,
    place: &S5Place,
    agent: &Text,
) -> fmt::Result {
    let Ok(agent) = str::from_utf8(agent.as_slice()) else {
        return Err(fmt::Error);
    };
    match place {
        S5Place::Initial => write!(f, "not s5: initial state, agent {agent}"),
        S5Place::Action { name } => match str::from_utf8(name.as_slice()) {
            Ok(name) => write!(f, "not s5: {name}, agent {agent}"),
            Err(_) => Err(fmt::Error),
        },
    }
}

impl std::error::Error for GroundError {}

impl From<OutOfMemory> for GroundError {
    ghost use Rattle.std.specs.Prelude.{◌≡◌};
    ghost use Rattle.ep_ground.specs.declared.fault.GroundError.TheVariants.{OutOfMemory};

    ghost from_gives = { λ _ e. e ≡ OutOfMemory };

    fn from(_error: OutOfMemory) -> GroundError {
        GroundError::OutOfMemory
    }
}

impl From<SchemaError> for GroundError {
    ghost use Rattle.std.specs.Prelude.{◌≡◌};
    ghost use Rattle.ep_ground.specs.Grounding.{of_schema};

    ghost from_gives = { λ error fault. fault ≡ of_schema error };

    fn from(error: SchemaError) -> GroundError {
        match error {
            SchemaError::AtomTwice { name } => GroundError::AtomTwice { name },
            SchemaError::OutOfMemory => GroundError::OutOfMemory,
        }
    }
}

impl From<InitialError> for GroundError {
    ghost use Rattle.std.specs.Prelude.{◌≡◌};
    ghost use Rattle.ep_ground.specs.Grounding.{of_initial};

    ghost from_gives = { λ error fault. fault ≡ of_initial error };

    fn from(error: InitialError) -> GroundError {
        match error {
            InitialError::TooManyVaried { count } => GroundError::TooManyVaried { count },
            InitialError::TooManyWorlds { count } => GroundError::TooManyWorlds { count },
            InitialError::NoDesignated => GroundError::NoDesignated,
            InitialError::OutOfMemory => GroundError::OutOfMemory,
        }
    }
}

impl From<UniverseError> for GroundError {
    ghost use Rattle.std.specs.Prelude.{◌≡◌};
    ghost use Rattle.ep_ground.specs.Grounding.{of_universe};

    ghost from_gives = { λ error fault. fault ≡ of_universe error };

    fn from(error: UniverseError) -> GroundError {
        match error {
            UniverseError::TooManyObjects { count } => GroundError::TooManyObjects { count },
            UniverseError::NoAgent => GroundError::NoAgent,
            UniverseError::TooManyAgents { count } => GroundError::TooManyAgents { count },
            UniverseError::TooManyAtoms { count } => GroundError::TooManyAtoms { count },
            UniverseError::OutOfMemory => GroundError::OutOfMemory,
        }
    }
}
