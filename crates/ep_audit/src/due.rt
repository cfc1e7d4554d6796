//! Which steps are due.

ghost use Rattle.std.specs.Prelude.{◌<◌, ◌↔◌, IsTrue};
ghost use Rattle.ep_audit.specs.Certificates.{pair_count, IsDue, Comes};
ghost use Rattle.ep_audit.specs.Sound.{IsSound, IsListed};

use crate::named_task::NamedTask;
use crate::progress::{DueLine, Progress};
use ep_logic::ActionId;

// Whether the action of the pair is within the bound in its entry.
fn is_due(task: &NamedTask, told: &Progress, pair: u32) -> bool
    requires told { IsSound task.now told.now }
    requires listed { IsListed told.now }
    requires pair { pair < pair_count task.now told.now }
    ensures { IsTrue result ↔ IsDue task.now told.now pair }
{
    let count = task.problem().actions();
    let (_state, weight) = &told.entries.as_slice()[(pair / count) as usize];
    let cost = task.cost(ActionId { n: pair % count });
    u64::from(*weight) + u64::from(cost) <= u64::from(told.bound)
}

/// The line that comes when the pairs below `from` are done.
pub fn next_step(task: &NamedTask, told: &Progress, from: u32) -> DueLine
    requires told { IsSound task.now told.now }
    requires listed { IsListed told.now }
    ensures { Comes task.now told.now from result }
{
    let count = task.problem().actions();
    for pair in from..told.count * count {
        if is_due(task, told, pair) {
            return DueLine::Step { pair };
        }
    }
    DueLine::End
}
