// What is told of an answer of the search.
ghost use Rattle.std.specs.Prelude.{◌≡◌, Some};
ghost use Rattle.ep_answer.specs.Answer.{planned_status, planned_text};

use crate::Status;
use crate::cause::Shown;
use ep_base::Text;
use ep_bounds::Measure;
use std::fmt;

/// An answer of the search, as it is told.
#[derive(Drop)]
pub enum Planned {
    /// The text of a plan.
    Plan(Text),
    /// No plan measures at most so much.
    NoneTo { measure: Measure, bound: u32 },
    /// More states than may be stored lie within the bound.
    ManyStates,
    /// So many actions, of which these are the lines, leave a state whose contraction has too many worlds.
    WideAfter { count: usize, actions: Text },
}

impl Planned {
    pub fn status(&self) -> Status
        ensures { result ≡ planned_status self.now }
    {
        match self {
            Planned::Plan(_) => Status::Ok,
            Planned::NoneTo { .. } => Status::No,
            Planned::ManyStates | Planned::WideAfter { .. } => Status::Undecided,
        }
    }
}

impl fmt::Display for Planned {
    ghost output = { λ p. Some (planned_text p) };

    fn fmt<W: fmt::Write>(&self, f: &mut fmt::Formatter<W>) -> fmt::Result {
        match self {
            Planned::Plan(text) => write!(f, "{}", Shown(text)),
            Planned::NoneTo { measure, bound } => match measure {
                Measure::Length => write!(f, "none to {bound}\n"),
                Measure::Cost => write!(f, "none to cost {bound}\n"),
            },
            Planned::ManyStates => f.write_str("undecided: states\n"),
            Planned::WideAfter { count, actions } => write!(
                f,
                "undecided: worlds after {count}\n{}",
                Shown(actions)
            ),
        }
    }
}
