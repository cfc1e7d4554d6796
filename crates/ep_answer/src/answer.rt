// What is answered, as a status and a text.
ghost use Rattle.std.specs.Prelude.{◌≡◌, Some};
ghost use Rattle.ep_answer.specs.Answer.{counts_text, answer_text, answer_status};

use crate::Status;
use crate::cause::{Cause, Shown as Plain, Subject};
use crate::planned::Planned;
use crate::run_stop::{Judgement, RunStop, StopOf, Whose, verdict_status};
use crate::trial_text::Trial;
use ep_base::{OutOfMemory, Text};
use ep_plan::Verdict;
use std::fmt;

/// The numbers of a ground task, and of its initial worlds.
#[derive(Clone, Copy)]
pub struct Counts {
    pub agents: u32,
    pub objects: u32,
    pub atoms: u32,
    pub actions: u32,
    pub worlds: u32,
}

impl fmt::Display for Counts {
    ghost output = { λ c. Some (counts_text c) };

    fn fmt<W: fmt::Write>(&self, f: &mut fmt::Formatter<W>) -> fmt::Result {
        write!(
            f,
            "# agents {} objects {} atoms {} actions {} worlds {}",
            self.agents, self.objects, self.atoms, self.actions, self.worlds
        )
    }
}

/// What the words are answered. It is shown as the text that goes out.
pub enum Answer {
    Refused(Subject, Cause),
    /// The words are those of no command.
    Misused,
    /// No guide stands at the place that the words ask for.
    NoSuchGuide,
    /// The library failed on this file.
    Unreadable(Subject),
    /// The numbers of a task, and its layout.
    Checked { counts: Counts, layout: Text },
    /// An answer of the search.
    OfSearch(Planned),
    /// The verdict on a plan.
    Judged(Verdict),
    /// The run of a plan stops.
    Stopped(Whose, RunStop),
    /// A formula is true at so many of the designated worlds.
    TrueAt { count: u64, designated: u64 },
    /// The text of a state.
    Shown(Text),
    /// The text of a contraction, and its canonical bytes in hexadecimal.
    Contraction { state: Text, bytes: String },
    Bisimilar,
    Different,
    /// The contraction of what a plan leaves has too many worlds, so many.
    WideContraction { whose: Whose, worlds: u32 },
    /// The text of a formula that tells two states apart.
    ToldApart(Text),
    Tried(Trial),
}

impl Drop for Answer {
    fn drop(self) {
        match self {
            Answer::Refused(_subject, _cause) => {}
            Answer::OfSearch(_planned) => {}
            Answer::Tried(_trial) => {}
            Answer::Checked {
                counts: _counts,
                layout: _layout,
            } => {}
            Answer::Contraction {
                state: _state,
                bytes: _bytes,
            } => {}
            Answer::Shown(_text) => {}
            Answer::ToldApart(_text) => {}
            Answer::Misused | Answer::NoSuchGuide | Answer::Bisimilar | Answer::Different => {}
            Answer::Unreadable(_) | Answer::Judged(_) | Answer::Stopped(_, _) => {}
            Answer::WideContraction {
                whose: _,
                worlds: _,
            } => {}
            Answer::TrueAt {
                count: _,
                designated: _,
            } => {}
        }
    }
}

impl Answer {
    pub fn status(&self) -> Status
        ensures { result ≡ answer_status self.now }
    {
        match self {
            Answer::Refused(..) => Status::Refused,
            Answer::Misused | Answer::NoSuchGuide => Status::Usage,
            Answer::Unreadable(_) => Status::ReadFault,
            Answer::Checked { .. } | Answer::Shown(_) | Answer::Contraction { .. } => Status::Ok,
            Answer::OfSearch(planned) => planned.status(),
            Answer::Judged(verdict) => verdict_status(*verdict),
            Answer::Stopped(_, stop) => stop.status(),
            Answer::TrueAt { .. } | Answer::Bisimilar => Status::Ok,
            Answer::Different | Answer::ToldApart(_) => Status::No,
            Answer::WideContraction { .. } => Status::Undecided,
            Answer::Tried(trial) => trial.end.status(),
        }
    }
}

impl fmt::Display for Answer {
    ghost output = { λ a. Some (answer_text a) };

    fn fmt<W: fmt::Write>(&self, f: &mut fmt::Formatter<W>) -> fmt::Result {
        match self {
            Answer::Refused(subject, cause) => write!(f, "refused: {subject}: {cause}\n"),
            Answer::Misused => {
                f.write_str("usage: plan|validate|eval|state|contract|same|check|trial|apart\n")
            }
            Answer::NoSuchGuide => f.write_str("usage: no such guide\n"),
            Answer::Unreadable(subject) => write!(f, "fault: {subject} cannot be read\n"),
            Answer::Checked { counts, layout } => write!(f, "{counts}\n{}", Plain(layout)),
            Answer::OfSearch(planned) => write!(f, "{planned}"),
            Answer::Judged(verdict) => write!(f, "{}\n", Judgement(*verdict)),
            Answer::Stopped(whose, stop) => {
                let stop = StopOf {
                    whose: *whose,
                    stop: *stop,
                };
                write!(f, "{stop}\n")
            }
            Answer::TrueAt { count, designated } => {
                write!(f, "true at {count} of {designated}\n")
            }
            Answer::Shown(state) => write!(f, "{}", Plain(state)),
            Answer::ToldApart(formula) => write!(f, "{}", Plain(formula)),
            Answer::Contraction { state, bytes } => { write!(f, "{}bytes {bytes}\n", Plain(state)) }
            Answer::Bisimilar => f.write_str("bisimilar\n"),
            Answer::Different => f.write_str("different\n"),
            Answer::WideContraction { whose, worlds } => {
                write!(f, "spent: {whose}contracted worlds {worlds}\n")
            }
            Answer::Tried(trial) => write!(f, "{trial}"),
        }
    }
}

/// Why the work of a command ends before its end.
pub enum Stop {
    Told(Answer),
    OutOfMemory,
}

impl Drop for Stop {
    fn drop(self) {
        match self {
            Stop::Told(_answer) => {}
            Stop::OutOfMemory => {}
        }
    }
}

impl Stop {
    ghost use Rattle.std.specs.Prelude.{IfOk, Ok};
    ghost use Rattle.ep_answer.specs.declared.answer.Answer.{Answer};
    ghost use Rattle.ep_answer.specs.declared.answer.Stop.TheVariants.{Told};

    /// The answer that ends the work, or out of memory.
    pub fn into_answer(self) -> Result<Answer, OutOfMemory>
        ensures ok { IfOk result (λ answer. self ≡ Told answer) }
        ensures told { (answer : Answer) → self ≡ Told answer → result ≡ Ok answer }
    {
        match self {
            Stop::Told(answer) => Ok(answer),
            Stop::OutOfMemory => Err(OutOfMemory {}),
        }
    }
}

impl From<OutOfMemory> for Stop {
    ghost use Rattle.std.specs.Prelude.{◌≡◌};
    ghost use Rattle.ep_answer.specs.declared.answer.Stop.TheVariants as stop;

    ghost from_gives = { λ _ s. s ≡ stop.OutOfMemory };

    fn from(_error: OutOfMemory) -> Stop {
        Stop::OutOfMemory
    }
}
