// What is told of a trial.
ghost use Rattle.std.specs.Prelude.{◌≡◌, Some};
ghost use Rattle.ep_answer.specs.Answer.{end_status, end_text, trial_lines};

use crate::Status;
use crate::planned::Planned;
use crate::run_stop::ValidatorLine;
use ep_plan::Verdict;
use std::fmt;

/// How a trial ends: with the length of a shortest plan and the verdict on it, or with another answer of the search.
#[derive(Drop)]
pub enum TrialEnd {
    Solved { length: u64, verdict: Verdict },
    Open(Planned),
}

impl TrialEnd {
    pub fn status(&self) -> Status
        ensures { result ≡ end_status self.now }
    {
        match self {
            TrialEnd::Solved { .. } => Status::Ok,
            TrialEnd::Open(planned) => planned.status(),
        }
    }
}

impl fmt::Display for TrialEnd {
    ghost output = { λ e. Some (end_text e) };

    fn fmt<W: fmt::Write>(&self, f: &mut fmt::Formatter<W>) -> fmt::Result {
        match self {
            TrialEnd::Solved { length, verdict } => {
                write!(f, "shortest {length}\n{}", ValidatorLine(*verdict))
            }
            TrialEnd::Open(planned) => write!(f, "{planned}"),
        }
    }
}

/// A trial with so many children: the worlds of its initial state and of the contraction of that, and its end.
#[derive(Drop)]
pub struct Trial {
    pub children: u32,
    pub worlds: u32,
    pub contracted: u32,
    pub end: TrialEnd,
}

impl fmt::Display for Trial {
    ghost output = { λ t. Some (trial_lines t) };

    fn fmt<W: fmt::Write>(&self, f: &mut fmt::Formatter<W>) -> fmt::Result {
        write!(
            f,
            "trial {}\nworlds {}\ncontracted {}\n{}",
            self.children, self.worlds, self.contracted, self.end
        )
    }
}
