ghost use Rattle.std.specs.Prelude.{◌≡◌, ◌<◌, ◌^◌, ◌&&◌, ◌==◌, not, nat_lt, is_some, length, position, None, Some, MatchResult};
ghost use Rattle.std.specs.List.{list_any};

use crate::parts::{ActionParts, Assign, EventLink, EventParts};
use ep_logic::{EventId, MOST_EVENTS, OutOfMemory};
use std::fmt;

/// Why no action has given parts. The variants stand in the order in which they are looked for. Numbers of events and
/// places in lists start at 0.
#[derive(Clone, Copy, Debug, PartialEq, Eq)]
pub enum ActionError {
    /// There is no event.
    NoEvent,
    /// There are this many events, more than 16.
    TooManyEvents { events: u32 },
    /// The first link whose agent is none of the agents.
    AgentOutOfRange { link: u32 },
    /// The first link with an end that is no event.
    EventOutOfRange { link: u32 },
    /// The place of the first designated number that is no event.
    DesignatedOutOfRange { place: u32 },
    /// The first event that assigns to one atom twice, and the atom of its first assignment whose atom an earlier
    /// assignment of that event has.
    AtomTwice { event: u32, atom: u32 },
    /// There is no designated event.
    NoDesignated,
    /// No memory was left.
    OutOfMemory,
}

impl fmt::Display for ActionError {
    fn fmt<W: fmt::Write>(&self, f: &mut fmt::Formatter<W>) -> fmt::Result {
        match self {
            ActionError::NoEvent => write!(f, "no event"),
            ActionError::TooManyEvents { events } => write!(f, "{events} events"),
            ActionError::AgentOutOfRange { link } => write!(f, "no such agent at link {link}"),
            ActionError::EventOutOfRange { link } => write!(f, "no such event at link {link}"),
            ActionError::DesignatedOutOfRange { place } => {
                write!(f, "no such event at designated place {place}")
            }
            ActionError::AtomTwice { event, atom } => {
                write!(f, "event {event} assigns to atom {atom} twice")
            }
            ActionError::NoDesignated => write!(f, "no designated event"),
            ActionError::OutOfMemory => write!(f, "out of memory"),
        }
    }
}

impl std::error::Error for ActionError {}

impl From<OutOfMemory> for ActionError {
    ghost use Rattle.std.specs.Prelude.{◌≡◌};
    ghost use Rattle.ep_event.specs.declared.refusal.ActionError.TheVariants.{OutOfMemory};

    ghost from_gives = { λ _ e. e ≡ OutOfMemory };

    fn from(_error: OutOfMemory) -> ActionError {
        ActionError::OutOfMemory
    }
}

ghost use Rattle.ep_base.specs.Refusals.{told};
ghost use Rattle.ep_event.specs.Refusals.{is_repeated, repeated_atom, atom_twice, refusal_of};

fn assigns_to(sets: &[Assign], atom: u32) -> bool
    ensures { result ≡ list_any (λ s. s.atom.n == atom) sets.now }
{
    sets.iter().any(|set| set.atom.n == atom)
}

// Whether an earlier assignment has the atom of the one at this place.
fn is_repeat(sets: &[Assign], i: usize) -> bool
    requires { i < length sets.now }
    ensures { result ≡ is_repeated sets.now i }
{
    assigns_to(&sets[..i], sets[i].atom.n)
}

// The atom of the first assignment whose atom an earlier assignment has.
pub fn first_repeat(sets: &[Assign]) -> Option<u32>
    ensures { result ≡ repeated_atom sets.now }
{
    for i in 0..sets.len() {
        if is_repeat(sets, i) {
            return Some(sets[i].atom.n);
        }
    }
    None
}

fn first_event_with_repeat(events: &[EventParts]) -> Option<usize>
    ensures { result ≡ position (λ p. is_some (repeated_atom p.sets)) events.now }
{
    events
        .iter()
        .position(|event| first_repeat(event.sets.as_slice()).is_some())
}

fn check_assignments(events: &[EventParts]) -> Result<(), ActionError>
    requires { length events.now < 2 ^ 32 }
    ensures { result ≡ told (atom_twice events.now) }
{
    if let Some(event) = first_event_with_repeat(events) {
        if let Some(atom) = first_repeat(events[event].sets.as_slice()) {
            return Err(ActionError::AtomTwice {
                event: event as u32,
                atom,
            });
        }
    }
    Ok(())
}

fn first_agent(links: &[EventLink], agents: u32) -> Option<usize>
    ensures { result ≡ position (λ l. not (nat_lt l.agent.n agents)) links.now }
{
    links.iter().position(|link| !(link.agent.n < agents))
}

fn first_event(links: &[EventLink], events: u32) -> Option<usize>
    ensures { result ≡ position (λ l. not (nat_lt l.from.n events && nat_lt l.to.n events)) links.now }
{
    links
        .iter()
        .position(|link| !(link.from.n < events && link.to.n < events))
}

fn first_designated(designated: &[EventId], events: u32) -> Option<usize>
    ensures { result ≡ position (λ d. not (nat_lt d.n events)) designated.now }
{
    designated.iter().position(|event| !(event.n < events))
}

// The first refusal but for want of memory.
pub fn check(parts: &ActionParts) -> Result<(), ActionError>
    requires events { length parts.now.events < 2 ^ 32 }
    requires links { length parts.now.links < 2 ^ 32 }
    requires designated { length parts.now.designated < 2 ^ 32 }
    ensures { result ≡ told (refusal_of parts.now) }
{
    let events = parts.events.as_slice();
    let links = parts.links.as_slice();
    let designated = parts.designated.as_slice();
    let count = events.len() as u32;
    if events.is_empty() {
        return Err(ActionError::NoEvent);
    }
    if events.len() > MOST_EVENTS {
        return Err(ActionError::TooManyEvents { events: count });
    }
    if let Some(link) = first_agent(links, parts.agents) {
        return Err(ActionError::AgentOutOfRange { link: link as u32 });
    }
    if let Some(link) = first_event(links, count) {
        return Err(ActionError::EventOutOfRange { link: link as u32 });
    }
    if let Some(place) = first_designated(designated, count) {
        return Err(ActionError::DesignatedOutOfRange {
            place: place as u32,
        });
    }
    check_assignments(events)?;
    if designated.is_empty() {
        return Err(ActionError::NoDesignated);
    }
    Ok(())
}
