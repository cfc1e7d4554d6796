// Why a text is refused.
ghost use Rattle.std.specs.Prelude.{Some};
ghost use Rattle.ep_answer.specs.Answer.{subject_text, place_text, cause_text};

use ep_base::Text;
use ep_types::TypeFault;
use std::{fmt, str};

/// What an answer speaks of.
#[derive(Clone, Copy)]
pub enum Subject {
    Task,
    Plan,
    FirstPlan,
    SecondPlan,
    Formula,
}

impl fmt::Display for Subject {
    ghost output = { λ s. Some (subject_text s) };

    fn fmt<W: fmt::Write>(&self, f: &mut fmt::Formatter<W>) -> fmt::Result {
        f.write_str(match self {
            Subject::Task => "task",
            Subject::Plan => "plan",
            Subject::FirstPlan => "first plan",
            Subject::SecondPlan => "second plan",
            Subject::Formula => "formula",
        })
    }
}

/// A token of a text by its number, or the end where that is the number of tokens, with its line.
#[derive(Clone, Copy)]
pub struct Place {
    pub token: u32,
    pub line: u32,
}

impl fmt::Display for Place {
    ghost output = { λ p. Some (place_text p) };

    fn fmt<W: fmt::Write>(&self, f: &mut fmt::Formatter<W>) -> fmt::Result {
        write!(f, "token {}, line {}", self.token, self.line)
    }
}

// An ASCII text, as it stands.
#[derive(Drop)]
pub struct Shown<'a>(pub &'a Text);

impl fmt::Display for Shown<'_> {
    ghost output = { λ t. Some t.0.now };

    fn fmt<W: fmt::Write>(&self, f: &mut fmt::Formatter<W>) -> fmt::Result {
        match str::from_utf8(self.0.as_slice()) {
            Ok(text) => f.write_str(text),
            Err(_) => Err(fmt::Error),
        }
    }
}

/// The first cause in the order of work. Counts are exact.
#[derive(Drop)]
pub enum Cause {
    NoSuchFile,
    TooLong,
    /// `at` is the number of bytes before the stray one.
    StrayByte { at: u32 },
    TooManyTokens,
    Syntax(Place),
    TooDeep(Place),
    Mistyped(TypeFault, Place),
    TooManyObjects { count: u64 },
    NoAgent,
    TooManyAgents { count: u64 },
    TooManyAtoms { count: u64 },
    TooManyActions { count: u64 },
    TooManyEvents { count: u64 },
    /// A formula whose ground form is too large.
    TooLarge(Place),
    TooLargeTask { count: u64 },
    /// The printed name of an action.
    AtomTwice { name: Text },
    TooManyVaried { count: u64 },
    TooManyWorlds { count: u64 },
    NoDesignated,
    /// An agent's relation in the initial state is to be an equivalence, and is none.
    NotS5Initial { agent: Text },
    /// The same of an action, by its printed name.
    NotS5Action { action: Text, agent: Text },
    /// The plan is one of another task.
    OtherTask,
    /// The line of the first call that names no action.
    UnknownAction { line: u32 },
    WrongCount,
    WrongCost,
}

impl fmt::Display for Cause {
    ghost output = { λ c. Some (cause_text c) };

    fn fmt<W: fmt::Write>(&self, f: &mut fmt::Formatter<W>) -> fmt::Result {
        match self {
            Cause::NoSuchFile => f.write_str("no such file"),
            Cause::TooLong => f.write_str("too long"),
            Cause::StrayByte { at } => write!(f, "stray byte at {at}"),
            Cause::TooManyTokens => f.write_str("too many tokens"),
            Cause::Syntax(place) => write!(f, "syntax at {place}"),
            Cause::TooDeep(place) => write!(f, "too deep at {place}"),
            Cause::Mistyped(fault, place) => write!(f, "{fault} at {place}"),
            Cause::TooManyObjects { count } => write!(f, "too many objects: {count}"),
            Cause::NoAgent => f.write_str("no agent"),
            Cause::TooManyAgents { count } => write!(f, "too many agents: {count}"),
            Cause::TooManyAtoms { count } => write!(f, "too many atoms: {count}"),
            Cause::TooManyActions { count } => write!(f, "too many actions: {count}"),
            Cause::TooManyEvents { count } => write!(f, "too many events: {count}"),
            Cause::TooLarge(place) => write!(f, "formula too large at {place}"),
            Cause::TooLargeTask { count } => write!(f, "task too large: {count}"),
            Cause::AtomTwice { name } => write!(f, "atom set twice: {}", Shown(name)),
            Cause::TooManyVaried { count } => write!(f, "too many varied atoms: {count}"),
            Cause::TooManyWorlds { count } => write!(f, "too many worlds: {count}"),
            Cause::NoDesignated => f.write_str("no designated world"),
            Cause::NotS5Initial { agent } => {
                write!(f, "not s5: initial state, agent {}", Shown(agent))
            }
            Cause::NotS5Action { action, agent } => {
                write!(f, "not s5: {}, agent {}", Shown(action), Shown(agent))
            }
            Cause::OtherTask => f.write_str("other task"),
            Cause::UnknownAction { line } => write!(f, "unknown action at line {line}"),
            Cause::WrongCount => f.write_str("wrong count"),
            Cause::WrongCost => f.write_str("wrong cost"),
        }
    }
}
