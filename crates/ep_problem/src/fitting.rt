ghost use Rattle.std.specs.Prelude.{◌↔◌, IsTrue};
ghost use Rattle.std.specs.List.{AllByRecursion};
ghost use Rattle.ep_theory.specs.Fits.{ActionFits};

use ep_event::Action;
use ep_kripke::State;
use ep_update::fits_action;

/// Whether all actions are among the agents and atoms of the state, as the actions of a problem are. It takes no
/// memory.
pub fn actions_fit(s: &State, actions: &[Action]) -> bool
    ensures { IsTrue result ↔ AllByRecursion (ActionFits s.now) actions.now }
{
    for action in actions {
        if !fits_action(s, action) {
            return false;
        }
    }
    true
}
