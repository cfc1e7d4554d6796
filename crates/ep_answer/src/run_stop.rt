// How the run of a plan stops, and verdicts.
ghost use Rattle.std.specs.Prelude.{◌≡◌, Some};
ghost use Rattle.ep_answer.specs.Answer.{stop_status, stop_text, verdict_status, validator_line, verdict_text, whose_text};

use crate::Status;
use ep_plan::Verdict;
use std::fmt;

/// The plan of a command that has one, or which of its two.
#[derive(Clone, Copy)]
pub enum Whose {
    Only,
    First,
    Second,
}

impl fmt::Display for Whose {
    ghost output = { λ w. Some (whose_text w) };

    fn fmt<W: fmt::Write>(&self, f: &mut fmt::Formatter<W>) -> fmt::Result {
        f.write_str(match self {
            Whose::Only => "",
            Whose::First => "first plan, ",
            Whose::Second => "second plan, ",
        })
    }
}

/// Where a run stops before its end: the step, counted from 1, does not apply, or its product is too large, with the exact number.
#[derive(Clone, Copy)]
pub enum RunStop {
    Stuck { step: u32 },
    SpentWorlds { step: u32, worlds: u64 },
    SpentLinks { step: u32, links: u64 },
}

impl RunStop {
    pub fn status(&self) -> Status
        ensures { result ≡ stop_status self.now }
    {
        match self {
            RunStop::Stuck { .. } => Status::No,
            RunStop::SpentWorlds { .. } | RunStop::SpentLinks { .. } => Status::Undecided,
        }
    }
}

/// The stop of one plan's run.
#[derive(Clone, Copy)]
pub struct StopOf {
    pub whose: Whose,
    pub stop: RunStop,
}

impl fmt::Display for StopOf {
    ghost output = { λ s. Some (stop_text s.whose s.stop) };

    fn fmt<W: fmt::Write>(&self, f: &mut fmt::Formatter<W>) -> fmt::Result {
        let whose = self.whose;
        match self.stop {
            RunStop::Stuck { step } => write!(f, "no: {whose}step {step}"),
            RunStop::SpentWorlds { step, worlds } => {
                write!(f, "spent: {whose}step {step}, worlds {worlds}")
            }
            RunStop::SpentLinks { step, links } => {
                write!(f, "spent: {whose}step {step}, links {links}")
            }
        }
    }
}

// The stop of the only plan's run.
fn only(stop: RunStop) -> StopOf
    ensures { result ≡ record { whose = Whose.Only; stop = stop } }
{
    StopOf {
        whose: Whose::Only,
        stop,
    }
}

/// The text of a verdict.
#[derive(Clone, Copy)]
pub struct Judgement(pub Verdict);

impl fmt::Display for Judgement {
    ghost output = { λ j. Some (verdict_text j.0) };

    fn fmt<W: fmt::Write>(&self, f: &mut fmt::Formatter<W>) -> fmt::Result {
        match self.0 {
            Verdict::Yes => f.write_str("yes"),
            Verdict::GoalFalse => f.write_str("no: goal"),
            Verdict::Inapplicable { step } => write!(f, "{}", only(RunStop::Stuck { step })),
            Verdict::SpentWorlds { step, worlds } => {
                write!(f, "{}", only(RunStop::SpentWorlds { step, worlds }))
            }
            Verdict::SpentLinks { step, links } => {
                write!(f, "{}", only(RunStop::SpentLinks { step, links }))
            }
        }
    }
}

/// The line of a trial that tells the verdict.
#[derive(Clone, Copy)]
pub struct ValidatorLine(pub Verdict);

impl fmt::Display for ValidatorLine {
    ghost output = { λ l. Some (validator_line l.0) };

    fn fmt<W: fmt::Write>(&self, f: &mut fmt::Formatter<W>) -> fmt::Result {
        write!(f, "validator {}\n", Judgement(self.0))
    }
}

pub fn verdict_status(verdict: Verdict) -> Status
    ensures { result ≡ verdict_status verdict }
{
    match verdict {
        Verdict::Yes => Status::Ok,
        Verdict::GoalFalse | Verdict::Inapplicable { .. } => Status::No,
        Verdict::SpentWorlds { .. } | Verdict::SpentLinks { .. } => Status::Undecided,
    }
}
