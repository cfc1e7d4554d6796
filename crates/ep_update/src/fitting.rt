ghost use Rattle.std.specs.Prelude.{◌<◌, ◌↔◌, IsTrue};
ghost use Rattle.std.specs.List.{AllByRecursion};
ghost use Rattle.ep_theory.specs.Fits.{Fits, EventFits, ActionFits};
ghost use Rattle.ep_update.specs.Assigned.{AssignFits};

use ep_event::{Action, Assign};
use ep_kripke::State;
use ep_logic::{EventId, Formula};
use ep_truth::fits;

/// Whether the action is among the state's agents, and each formula and assigned atom of it fits the state.
pub fn fits_action(s: &State, a: &Action) -> bool
    ensures { IsTrue result ↔ ActionFits s.now a.now }
{
    s.agents() == a.agents() && events_fit(s, a)
}

fn events_fit(s: &State, a: &Action) -> bool
    ensures { IsTrue result ↔ AllByRecursion (EventFits s.now) a.now.events }
{
    for e in 0..a.events() {
        let id = EventId { n: e };
        if !event_fits(s, a.pre(id), a.sets(id).as_slice()) {
            return false;
        }
    }
    true
}

fn event_fits(s: &State, pre: &Formula, sets: &[Assign]) -> bool
    ensures { IsTrue result ↔ (Fits s.now pre.now × AllByRecursion (AssignFits s.now) sets.now) }
{
    fits(s, pre) && sets_fit(s, sets)
}

fn sets_fit(s: &State, sets: &[Assign]) -> bool
    ensures { IsTrue result ↔ AllByRecursion (AssignFits s.now) sets.now }
{
    for set in sets {
        if set.atom.n >= s.atoms() || !fits(s, &set.value) {
            return false;
        }
    }
    true
}
