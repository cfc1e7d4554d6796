// The plan that the parents give.

ghost use Rattle.std.specs.Prelude.{◌<◌, IfOk, length};
ghost use Rattle.ep_search.specs.Planned.{IsPlanBy};

use ep_logic::{List, OutOfMemory};
use ep_problem::Plan;
use ep_store::{Step, Store};
use std::alloc::Global;

// The actions along the parents of an entry, and one more step.
pub fn plan_by(alloc: Global, store: &Store, last: Step) -> Result<Plan, OutOfMemory>
    requires { last.parent.n < length store.now.entries }
    ensures { IfOk result (IsPlanBy store.now.entries last) }
{
    let path = store.path(last.parent)?;
    let mut plan = List::new(alloc);
    for step in path.as_slice() {
        plan.push(step.action)?;
    }
    plan.push(last.action)?;
    Ok(plan)
}
