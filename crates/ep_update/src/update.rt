ghost use Rattle.std.specs.Prelude.{◌≡◌, ◌+◌, ◌*◌, ◌<◌, ◌≤◌, ◌^◌, IfOk, IfErr, OnOk};
ghost use Rattle.ep_kripke.specs.declared.limits.TheConstants.{MOST_WORLDS};
ghost use Rattle.ep_logic.specs.declared.limits.TheConstants.{MOST_EVENTS};
ghost use Rattle.ep_base.specs.Refusals.{OrWant};
ghost use Rattle.ep_theory.specs.Events.{IsAction};
ghost use Rattle.ep_theory.specs.Fits.{ActionFits, link_count};
ghost use Rattle.ep_theory.specs.Product.{IsApplicable, product_of};
ghost use Rattle.ep_update.specs.Places.{precondition_labels, ArePlaces};

use crate::labelling::{LabelTable, labels};
use crate::places::{Places, find_places};
use crate::rows::{count_links, designated_of, relations_of};
use crate::stuck::first_stuck;
use crate::truth::shared_truth;
use ep_event::Action;
use ep_kripke::State;
use ep_logic::{OutOfMemory, Steps};
use std::alloc::Global;
use std::fmt;
use std::sync::ledger::Ledger;

/// How large a product may be.
#[derive(Clone, Copy, Debug, PartialEq, Eq)]
pub struct Size {
    pub worlds: u32,
    pub links: u64,
}

/// Why there is no product within the size; the first in this order comes. `Inapplicable` has the world of
/// `stuck_at`, and the others have the exact number of the product's worlds and links.
#[derive(Clone, Copy, Debug, PartialEq, Eq)]
pub enum UpdateError {
    Inapplicable { world: u32 },
    TooManyWorlds { worlds: u64 },
    TooManyLinks { links: u64 },
    OutOfMemory,
}

impl fmt::Display for UpdateError {
    fn fmt<W: fmt::Write>(&self, f: &mut fmt::Formatter<W>) -> fmt::Result {
        match self {
            UpdateError::Inapplicable { world } => write!(f, "inapplicable at world {world}"),
            UpdateError::TooManyWorlds { worlds } => write!(f, "too many worlds: {worlds}"),
            UpdateError::TooManyLinks { links } => write!(f, "too many links: {links}"),
            UpdateError::OutOfMemory => write!(f, "out of memory"),
        }
    }
}

impl std::error::Error for UpdateError {}

impl From<OutOfMemory> for UpdateError {
    ghost use Rattle.std.specs.Prelude.{◌≡◌};
    ghost use Rattle.ep_update.specs.declared.update.UpdateError.TheVariants.{OutOfMemory};

    ghost from_gives = { λ _ e. e ≡ OutOfMemory };

    fn from(_error: OutOfMemory) -> UpdateError {
        UpdateError::OutOfMemory
    }
}

ghost use Rattle.ep_update.specs.Updates.{IsWithin, IsFault, IsProductUpTo, IsRefusalUpTo};

/// The product, where the action is applicable and the product is within the size. A refusal builds no product.
/// The counter ticks once, whatever the answer.
pub fn product<L: Ledger>(
    alloc: Global,
    s: &State,
    a: &Action,
    size: Size,
    steps: &mut Steps<L>,
) -> Result<State, UpdateError>
    requires fits { ActionFits s.now a.now }
    requires worlds { size.worlds ≤ MOST_WORLDS }
    requires links { size.links < 2 ^ 32 }
    ensures applicable { OnOk result (IsApplicable s.now a.now) }
    ensures product { IfOk result (λ t. t ≡ product_of s.now a.now) }
    ensures size { IfOk result (IsWithin size) }
    ensures err { IfErr result (OrWant UpdateError.OutOfMemory (IsFault s.now a.now size)) }
    ensures step { steps.new ≡ steps.old + 1 }

    // The same for each state that is bisimilar.
    ensures bisimilar { IfOk result (IsProductUpTo s.now a.now) }
    ensures bisimilar_err { IfErr result (IsRefusalUpTo s.now a.now) }
{
    steps.tick();
    let l = labels(alloc, s, a)?;
    updated(alloc, s, a, &l, size)
}

/// The product by the labels of the preconditions, which a search may have made for many actions at once; else as
/// `product`.
pub fn product_labelled<L: Ledger>(
    alloc: Global,
    s: &State,
    a: &Action,
    l: &LabelTable,
    size: Size,
    steps: &mut Steps<L>,
) -> Result<State, UpdateError>
    requires fits { ActionFits s.now a.now }
    requires labels { l.now ≡ precondition_labels s.now a.now }
    requires worlds { size.worlds ≤ MOST_WORLDS }
    requires links { size.links < 2 ^ 32 }
    ensures applicable { OnOk result (IsApplicable s.now a.now) }
    ensures product { IfOk result (λ t. t ≡ product_of s.now a.now) }
    ensures size { IfOk result (IsWithin size) }
    ensures err { IfErr result (OrWant UpdateError.OutOfMemory (IsFault s.now a.now size)) }
    ensures step { steps.new ≡ steps.old + 1 }

    // The same for each state that is bisimilar.
    ensures bisimilar { IfOk result (IsProductUpTo s.now a.now) }
    ensures bisimilar_err { IfErr result (IsRefusalUpTo s.now a.now) }
{
    steps.tick();
    updated(alloc, s, a, l, size)
}

fn updated(
    alloc: Global,
    s: &State,
    a: &Action,
    l: &LabelTable,
    size: Size,
) -> Result<State, UpdateError>
    requires fits { ActionFits s.now a.now }
    requires labels { l.now ≡ precondition_labels s.now a.now }
    requires worlds { size.worlds ≤ MOST_WORLDS }
    requires links { size.links < 2 ^ 32 }
    ensures applicable { OnOk result (IsApplicable s.now a.now) }
    ensures product { IfOk result (λ t. t ≡ product_of s.now a.now) }
    ensures size { IfOk result (IsWithin size) }
    ensures err { IfErr result (OrWant UpdateError.OutOfMemory (IsFault s.now a.now size)) }
    ensures bisimilar { IfOk result (IsProductUpTo s.now a.now) }
    ensures bisimilar_err { IfErr result (IsRefusalUpTo s.now a.now) }
{
    a.known();
    if let Some(world) = first_stuck(s, a, l.rows()) {
        return Err(UpdateError::Inapplicable { world: world.n });
    }
    let found = find_places(alloc, s.worlds(), l.rows())?;
    check_size(alloc, s, a, size, &found)?;
    Ok(built(alloc, s, a, &found)?)
}

// Whether the product is within the size. Its links are counted only where there may be too many.
fn check_size(
    alloc: Global,
    s: &State,
    a: &Action,
    size: Size,
    found: &Places,
) -> Result<(), UpdateError>
    requires fits { ActionFits s.now a.now }
    requires worlds { size.worlds ≤ MOST_WORLDS }
    requires places { ArePlaces s.now a.now found.now }
    requires applicable { IsApplicable s.now a.now }
    ensures ok { OnOk result (IsWithin size (product_of s.now a.now)) }
    ensures err { IfErr result (OrWant UpdateError.OutOfMemory (IsFault s.now a.now size)) }
{
    let worlds = found.list.len() as u64;
    if worlds > u64::from(size.worlds) {
        return Err(UpdateError::TooManyWorlds { worlds });
    }
    if most_links(s.links(), a.events()) <= size.links {
        return Ok(());
    }
    let links = count_links(alloc, s, a, found)?;
    if links > size.links {
        return Err(UpdateError::TooManyLinks { links });
    }
    Ok(())
}

// How many links there are where each becomes one for each pair of events.
fn most_links(links: u64, events: u32) -> u64
    requires links { links < 2 ^ 32 }
    requires events { events ≤ MOST_EVENTS }
    ensures { result ≡ links * (events * events) }
{
    links * u64::from(events * events)
}

// The product from its places.
fn built(alloc: Global, s: &State, a: &Action, found: &Places) -> Result<State, OutOfMemory>
    requires fits { ActionFits s.now a.now }
    requires action { IsAction a.now }
    requires places { ArePlaces s.now a.now found.now }
    requires applicable { IsApplicable s.now a.now }
    requires worlds { (product_of s.now a.now).worlds ≤ MOST_WORLDS }
    requires links { link_count (product_of s.now a.now) < 2 ^ 32 }
    ensures { IfOk result (λ t. t ≡ product_of s.now a.now) }
{
    let list = found.list.as_slice();
    let truth = shared_truth(alloc, s, a, list)?;
    let relations = relations_of(alloc, s, a, found)?;
    let designated = designated_of(alloc, s, a, list)?;
    Ok(State::from_relations(s.agents(), s.atoms(), truth, relations, designated))
}
