//! The line of a step.

ghost use Rattle.std.specs.Prelude.{◌↔◌, IsTrue, IfOk};
ghost use Rattle.ep_audit.specs.Certificates.{ShowsStep};
ghost use Rattle.ep_audit.specs.Sound.{IsSound, IsAt};

use crate::lines::behind;
use crate::made::shows_product;
use crate::named_task::NamedTask;
use crate::progress::Progress;
use crate::stuck::shows_stuck;
use ep_logic::{ActionId, OutOfMemory};
use std::alloc::Global;

/// Whether the line shows that the action of the pair was tried in its entry.
pub fn is_shown(
    alloc: Global,
    task: &NamedTask,
    told: &Progress,
    pair: u32,
    line: &[u8],
) -> Result<bool, OutOfMemory>
    requires told { IsSound task.now told.now }
    requires at { IsAt task.now told.now pair }
    ensures { IfOk result (λ b. IsTrue b ↔ ShowsStep task.now told.now pair line.now) }
{
    let count = task.problem().actions();
    let (i, a) = (pair / count, ActionId { n: pair % count });
    let head = format!(in alloc; "step {i} ")?;
    let Some(rest) = behind(line, head.as_bytes()) else {
        return Ok(false);
    };
    let Some(rest) = behind(rest, task.action_name(a).as_slice()) else {
        return Ok(false);
    };
    let (state, weight) = &told.entries.as_slice()[i as usize];
    let action = task.problem().action(a);
    if let Some(digits) = behind(rest, b" stuck ") {
        return shows_stuck(alloc, state, action, digits);
    }
    match behind(rest, b" to ") {
        Some(text) => {
            let most = u64::from(*weight) + u64::from(task.cost(a));
            shows_product(alloc, told.entries.as_slice(), most, state, action, text)
        }
        None => Ok(false),
    }
}
