// What an action makes of a state.

ghost use Rattle.std.specs.Prelude.{◌≡◌, ◌+◌, ◌≤◌, IfOk};
ghost use Rattle.ep_theory.specs.Fits.{ActionFits};
ghost use Rattle.ep_search.specs.Made.{Makes};

use ep_event::Action;
use ep_kripke::State;
use ep_logic::{OutOfMemory, Steps};
use ep_update::{Size, UpdateError, product};
use std::alloc::Global;
use std::sync::ledger::Ledger;

// The largest product of a state of 256 worlds with an action of 16 events among 8 agents.
const LARGEST: Size = Size {
    worlds: 4096,
    links: 134_217_728,
};

// The product, where the action is applicable.
pub fn make<L: Ledger>(
    alloc: Global,
    s: &State,
    a: &Action,
    steps: &mut Steps<L>,
) -> Result<Option<State>, OutOfMemory>
    requires fits { ActionFits s.now a.now }
    requires small { s.now.worlds ≤ 256 }
    ensures makes { IfOk result (Makes s.now a.now) }
    ensures step { steps.new ≡ steps.old + 1 }
{
    s.known();
    a.known();
    match product(alloc, s, a, LARGEST, steps) {
        Ok(state) => Ok(Some(state)),
        Err(UpdateError::Inapplicable { world: _ }) => Ok(None),
        Err(UpdateError::TooManyWorlds { worlds: _ }) => {
            prove!(false);
            Ok(None)
        }
        Err(UpdateError::TooManyLinks { links: _ }) => {
            prove!(false);
            Ok(None)
        }
        Err(UpdateError::OutOfMemory) => Err(OutOfMemory {}),
    }
}
