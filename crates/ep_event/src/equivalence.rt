//! Whether the relations of an action are equivalences.

ghost use Rattle.std.specs.Prelude.{◌≡◌, ◌↔◌, ℕ, ◌<◌, IsTrue, length};
ghost use Rattle.std.specs.List.{AllByRecursion};
ghost use Rattle.ep_theory.specs.Rising.{IsIn};
ghost use Rattle.ep_theory.specs.Kripke.{successors};
ghost use Rattle.ep_theory.specs.Events.{IsAction, event_links};
ghost use Rattle.ep_theory.specs.Equivalences.{IsEquivalence, IsS5Action};

use crate::action::Action;
use ep_logic::{AgentId, EventId};

// Whether the agent's links lead from an event to these.
fn leads_to(action: &Action, a: AgentId, e: EventId, targets: &[u32]) -> bool
    requires agent { a.n < length action.now.links }
    requires event { e.n < length action.now.events }
    ensures { IsTrue result ↔ (successors (event_links action.now a.n) e.n ≡ targets.now) }
{
    action.targets(a, e) == targets
}

// Whether they lead from each of these events to the same ones.
fn lead_to(action: &Action, a: AgentId, events: &[u32], targets: &[u32]) -> bool
    requires agent { a.n < length action.now.links }
    requires within { AllByRecursion (λ e. e < length action.now.events) events.now }
    ensures { IsTrue result ↔ AllByRecursion (λ e. successors (event_links action.now a.n) e ≡ targets.now) events.now }
{
    for n in events {
        if !leads_to(action, a, EventId { n: *n }, targets) {
            return false;
        }
    }
    true
}

// Whether an event is among its targets, and each of these has the same.
fn is_class(action: &Action, a: AgentId, e: EventId) -> bool
    requires agent { a.n < length action.now.links }
    requires event { e.n < length action.now.events }
    ensures { IsTrue result ↔ (IsIn e.n (successors (event_links action.now a.n) e.n) ×
        AllByRecursion (λ f. successors (event_links action.now a.n) f ≡ successors (event_links action.now a.n) e.n)
        (successors (event_links action.now a.n) e.n)) }
{
    let targets = action.targets(a, e);
    action.linked(a, e, e) && lead_to(action, a, targets, targets)
}

impl Action {
    /// Whether an agent's relation is an equivalence. It takes no memory.
    pub fn is_equivalence(&self, a: AgentId) -> bool
        requires { a.n < length self.now.links }
        ensures value { IsTrue result ↔ IsEquivalence (length self.now.events) (event_links self.now a.n) }
        ensures valid { IsAction self.now }
    {
        for n in 0..self.events() {
            if !is_class(self, a, EventId { n }) {
                return false;
            }
        }
        true
    }

    /// Whether the relation of each agent is an equivalence. It takes no memory.
    pub fn is_s5(&self) -> bool
        ensures value { IsTrue result ↔ IsS5Action self.now }
        ensures valid { IsAction self.now }
    {
        for n in 0..self.agents() {
            if !self.is_equivalence(AgentId { n }) {
                return false;
            }
        }
        true
    }
}
