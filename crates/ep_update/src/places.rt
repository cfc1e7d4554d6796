ghost use Rattle.std.specs.Prelude.{◌≡◌, ℕ, ◌+◌, ◌*◌, ◌<◌, ◌≤◌, ◌++◌, length, vec_len, map, IfOk, OnOk};
ghost use Rattle.std.specs.List.{AllByRecursion};
ghost use Rattle.ep_logic.specs.declared.limits.TheConstants.{MOST_EVENTS};
ghost use Rattle.ep_kripke.specs.declared.limits.TheConstants.{MOST_WORLDS};
ghost use Rattle.ep_logic.specs.Numbers.{numbers_where};
ghost use Rattle.ep_update.specs.Places.{is_labelled, AreLabelled};

use ep_event::Action;
use ep_kripke::State;
use ep_logic::{Bits, OutOfMemory};
use std::alloc::Global;

/// The pairs of a world and an event that applies there, by world and then by event, and for each world, and for
/// the number of worlds, how many of them have an earlier world.
#[derive(Drop)]
pub(crate) struct Places {
    pub list: Vec<(u32, u32)>,
    pub firsts: Vec<u32>,
}

/// The product of a state and an action by its places, as one agent sees it.
#[derive(Clone, Copy)]
pub(crate) struct AgentProduct<'a> {
    pub state: &'a State,
    pub action: &'a Action,
    pub agent: u32,
    pub found: &'a Places,
}

pub(crate) fn find_places(alloc: Global, worlds: u32, rows: &[Bits]) -> Result<Places, OutOfMemory>
    requires worlds { worlds ≤ MOST_WORLDS }
    requires events { length rows.now ≤ MOST_EVENTS }
    requires rows { AllByRecursion (λ row. length row ≡ worlds) rows.now }
    ensures places { IfOk result (AreLabelled worlds rows.now) }
    ensures few { IfOk result (λ found. vec_len found.list ≤ MOST_EVENTS * worlds) }
{
    let mut list = Vec::new(alloc);
    let mut firsts = Vec::new(alloc);
    for w in 0..worlds {
        firsts.push(list.len() as u32)?;
        add_places(&mut list, w, rows)?;
    }
    firsts.push(list.len() as u32)?;
    Ok(Places { list, firsts })
}

// Puts the places of one world at the end.
fn add_places(list: &mut Vec<(u32, u32)>, w: u32, rows: &[Bits]) -> Result<(), OutOfMemory>
    requires events { length rows.now ≤ MOST_EVENTS }
    requires rows { AllByRecursion (λ row. w < length row) rows.now }
    ensures places { OnOk result (list.new.items ≡ list.old.items ++ map (λ e. (w, e)) (numbers_where (is_labelled rows.now w) (length rows.now))) }
    ensures few { OnOk result (vec_len list.new ≤ vec_len list.old + length rows.now) }
{
    for e in 0..rows.len() {
        if rows[e].get(w) {
            list.push((w, e as u32))?;
        }
    }
    Ok(())
}
