//! Whether the product of a step is shown to lead to an entry.

ghost use Rattle.std.specs.Prelude.{◌≡◌, ◌<◌, ◌≤◌, ◌↔◌, length, IsTrue, IfOk};
ghost use Rattle.std.specs.List.{AllByRecursion};
ghost use Rattle.ep_bounds.specs.declared.bounds.TheConstants.{MOST_STATES, MOST_WORLDS};
ghost use Rattle.ep_theory.specs.Fits.{ActionFits};
ghost use Rattle.ep_audit.specs.Shown.{Makes, ShowsProduct};

use crate::lines::{behind, cut_at};
use crate::map::shows_map;
use crate::number::number;
use ep_bounds::MOST_STATES;
use ep_event::Action;
use ep_kripke::State;
use ep_logic::{OutOfMemory, Steps};
use ep_update::{Size, UpdateError, product};
use std::alloc::Global;
use std::marker::Brand;
use std::sync::ledger::{Blank, Ledger};

// The largest product of a state of 256 worlds with an action of 16 events among 8 agents.
const LARGEST: Size = Size {
    worlds: 4_096,
    links: 134_217_728,
};

// The product, counted by a counter that nobody reads.
fn counted<L: Ledger>(
    alloc: Global,
    s: &State,
    a: &Action,
    blank: Blank,
) -> Result<Option<State>, OutOfMemory>
    requires name { blank.name ≡ L.name }
    requires parts { blank.parts ≡ L.parts }
    requires some { 0 < L.parts }
    requires fits { ActionFits s.now a.now }
    requires small { s.now.worlds ≤ MOST_WORLDS }
    ensures { IfOk result (Makes s.now a.now) }
{
    s.known();
    a.known();
    let mut steps = Steps::<L>::new(blank);
    match product(alloc, s, a, LARGEST, &mut steps) {
        Ok(state) => Ok(Some(state)),
        Err(UpdateError::Inapplicable { world: _ }) => Ok(None),
        Err(UpdateError::TooManyWorlds { worlds: _ }) => {
            prove!(false);
            Ok(None)
        }
        Err(UpdateError::TooManyLinks { links: _ }) => {
            prove!(false);
            Ok(None)
        }
        Err(UpdateError::OutOfMemory) => Err(OutOfMemory {}),
    }
}

// The product, where the action is applicable.
fn make(alloc: Global, s: &State, a: &Action) -> Result<Option<State>, OutOfMemory>
    requires fits { ActionFits s.now a.now }
    requires small { s.now.worlds ≤ MOST_WORLDS }
    ensures { IfOk result (Makes s.now a.now) }
{
    counted::<Brand>(alloc, s, a, Blank::new(1))
}

/// Whether the text names an entry of at most this weight and a map of the product to it.
pub fn shows_product(
    alloc: Global,
    entries: &[(State, u32)],
    most: u64,
    s: &State,
    a: &Action,
    text: &[u8],
) -> Result<bool, OutOfMemory>
    requires fits { ActionFits s.now a.now }
    requires small { s.now.worlds ≤ MOST_WORLDS }
    requires few { length entries.now ≤ MOST_STATES }
    requires agents { AllByRecursion (λ e. (e.0.agents ≡ s.now.agents) × (e.0.atoms ≡ s.now.atoms)) entries.now }
    ensures { IfOk result (λ b. IsTrue b ↔ ShowsProduct entries.now most s.now a.now text.now) }
{
    let Some((digits, rest)) = cut_at(text, b' ') else {
        return Ok(false);
    };
    let Some(place) = number(digits, MOST_STATES) else {
        return Ok(false);
    };
    let Some(fields) = behind(rest, b"map ") else {
        return Ok(false);
    };
    if place as usize >= entries.len() {
        return Ok(false);
    }
    let (target, weight) = &entries[place as usize];
    if u64::from(*weight) > most {
        return Ok(false);
    }
    match make(alloc, s, a)? {
        Some(made) => shows_map(alloc, &made, target, fields),
        None => Ok(false),
    }
}
