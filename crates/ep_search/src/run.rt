// The entries that wait, one after another.

ghost use Rattle.std.specs.Prelude.{◌≡◌, ◌+◌, ◌*◌, ◌<◌, ◌≤◌, IfOk, length};
ghost use Rattle.ep_search.specs.Allowed.{Allowed};
ghost use Rattle.ep_search.specs.Kept.{Kept};
ghost use Rattle.ep_search.specs.Setting.{IsSetting};
ghost use Rattle.ep_search.specs.Progresses.{Keeps, CoversAll, spent};

use crate::answer::Answer;
use crate::expand::expand;
use crate::progress::Progress;
use crate::setting::Setting;
use ep_bounds::Mode;
use ep_guide::Guide;
use ep_logic::{OutOfMemory, Steps};
use ep_problem::Problem;
use std::alloc::Global;
use std::sync::ledger::Ledger;

// Expands what waits, until nothing does.
pub fn run<L: Ledger>(
    alloc: Global,
    problem: &Problem,
    setting: &Setting,
    guide: &mut Box<dyn Guide>,
    steps: &mut Steps<L>,
    p: &mut Progress,
) -> Result<Answer, OutOfMemory>
    requires setting { IsSetting problem.now setting.now }
    requires keeps { Keeps problem.now setting.now.bounds p.old }
    requires covers { CoversAll problem.now setting.now.bounds p.old }
    requires fresh { spent setting.now.bounds.bound p.old.expanded.items ≡ 0 }
    ensures allowed { IfOk result (Allowed problem.now setting.now.bounds setting.now.mode) }
    ensures asked { Kept (asked guide.old) (asked guide.new) }
    ensures steps { steps.new ≤ steps.old
        + setting.now.bounds.states * setting.now.bounds.bound * length problem.now.actions }
{
    while let Some(id) = p.frontier.pop() {
        let weight = p.store.weight(id);
        if weight < p.expanded[id.n as usize] && weight + 1 < p.least {
            let went = expand(alloc, problem, setting, guide, steps, p, id, weight)?;
            if let Some(answer) = went {
                return Ok(answer);
            }
        }
    }
    match p.best.take() {
        None => Ok(Answer::NoneTo),
        Some(plan) => match setting.mode {
            Mode::Prove => Ok(Answer::Least(plan)),
            Mode::First => Ok(Answer::Found(plan)),
        },
    }
}
