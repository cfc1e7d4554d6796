//! The initial state of the lawful form.

ghost use Rattle.std.specs.Prelude.{◌≡◌, ℕ, ◌<◌, ◌≤◌, None, IfErr, IfOk, OnOk, length};
ghost use Rattle.std.specs.List.{AllByRecursion};
ghost use Rattle.ep_base.specs.Refusals.{Reports};
ghost use Rattle.ep_universe.specs.Atoms.{atoms_of};
ghost use Rattle.ep_initial.specs.Faults.{fault_by, lawful_fault};
ghost use Rattle.ep_initial.specs.Lawful as spec;
ghost use Rattle.ep_initial.specs.Meeting.{IsGroundable};
ghost use Rattle.ep_initial.specs.Valuations.{varied};

use crate::fault::InitialError;
use crate::limits::MOST_VARIED;
use crate::meeting::{keep_meeting, label_rows};
use crate::numbers::{keep_distinct, numbers_of};
use crate::rows::possible_rows;
use crate::seeing::relations;
use ep_kripke::State;
use ep_logic::{Bits, List, MOST_INITIAL_WORLDS};
use ep_tree::{AtomTree, FormulaTree, SeesTree};
use ep_universe::Universe;
use std::alloc::Global;

/// The lawful form of an initial state, as it is written.
#[derive(Clone, Copy)]
pub struct LawfulForm<'a> {
    pub vary: &'a [AtomTree],
    pub facts: &'a [AtomTree],
    pub law: &'a FormulaTree,
    pub sees: &'a [SeesTree],
    pub designated: &'a FormulaTree,
}

/// The state of the lawful form, among the agents and the ground atoms of the task. The distinct varied atoms are
/// counted before any valuation is made.
pub fn lawful_state(
    alloc: Global,
    universe: &Universe,
    form: &LawfulForm,
) -> Result<State, InitialError>
    requires law { IsGroundable universe.now.names form.now.law.now }
    requires designated { IsGroundable universe.now.names form.now.designated.now }
    ensures state { IfOk result (λ state. state ≡ spec.lawful_state universe.now.names form.now.vary.now form.now.facts.now form.now.law.now form.now.sees.now form.now.designated.now) }
    ensures allowed { OnOk result (lawful_fault universe.now.names form.now.vary.now form.now.facts.now form.now.law.now form.now.designated.now ≡ None) }
    ensures refused { IfErr result (Reports InitialError.OutOfMemory (lawful_fault universe.now.names form.now.vary.now form.now.facts.now form.now.law.now form.now.designated.now)) }
{
    let agents = universe.agents();
    let atoms = universe.atoms();
    let worlds = lawful_worlds(alloc, universe, form.vary, form.facts, form.law)?;
    let points = designated_worlds(alloc, universe, worlds.as_slice(), form.designated)?;
    let relations = relations(alloc, universe, form.sees, worlds.as_slice())?;
    let state = State::from_rows(alloc, agents, atoms, worlds, relations, points)?;
    Ok(state)
}

/// The truth lists of the worlds.
fn lawful_worlds(
    alloc: Global,
    universe: &Universe,
    vary: &[AtomTree],
    facts: &[AtomTree],
    law: &FormulaTree,
) -> Result<List<Bits>, InitialError>
    requires { IsGroundable universe.now.names law.now }
    ensures rows { IfOk result (λ rows. rows ≡ spec.lawful_worlds universe.now.names vary.now facts.now law.now) }
    ensures long { IfOk result (AllByRecursion (λ row. length row ≡ length (atoms_of universe.now.names))) }
    ensures few { IfOk result (λ rows. length rows ≤ MOST_INITIAL_WORLDS) }
    ensures varied { OnOk result (length (varied universe.now.names vary.now) ≤ MOST_VARIED) }
    ensures refused { IfErr result (λ e. (n : ℕ) →
        Reports InitialError.OutOfMemory (fault_by (length (varied universe.now.names vary.now)) (length (spec.lawful_worlds universe.now.names vary.now facts.now law.now)) n) e) }
{
    let varied = find_varied(alloc, universe, vary)?;
    let rows = possible_rows(alloc, universe, varied.as_slice(), facts)?;
    let worlds = keep_meeting(alloc, universe, rows.as_slice(), law)?;
    check_few_worlds(worlds)
}

/// The distinct varied atoms, where they are few.
fn find_varied(
    alloc: Global,
    universe: &Universe,
    vary: &[AtomTree],
) -> Result<List<u32>, InitialError>
    ensures numbers { IfOk result (λ numbers. numbers ≡ varied universe.now.names vary.now) }
    ensures few { IfOk result (λ numbers. length numbers ≤ MOST_VARIED) }
    ensures refused { IfErr result (λ e. (worlds designated : ℕ) →
        Reports InitialError.OutOfMemory (fault_by (length (varied universe.now.names vary.now)) worlds designated) e) }
{
    let numbers = numbers_of(alloc, universe, vary)?;
    let varied = keep_distinct(alloc, numbers.as_slice())?;
    let count = varied.as_slice().len();
    if count > MOST_VARIED {
        return Err(InitialError::TooManyVaried {
            count: count as u64,
        });
    }
    Ok(varied)
}

/// The worlds, where they are few.
fn check_few_worlds(worlds: List<Bits>) -> Result<List<Bits>, InitialError>
    ensures same { IfOk result (λ rows. rows ≡ worlds) }
    ensures few { OnOk result (length worlds ≤ MOST_INITIAL_WORLDS) }
    ensures refused { IfErr result (λ e. (varied designated : ℕ) → varied ≤ MOST_VARIED →
        Reports InitialError.OutOfMemory (fault_by varied (length worlds) designated) e) }
{
    let found = worlds.as_slice().len();
    if found > MOST_INITIAL_WORLDS {
        return Err(InitialError::TooManyWorlds {
            count: found as u64,
        });
    }
    Ok(worlds)
}

/// The worlds where the formula holds, where there are some.
fn designated_worlds(
    alloc: Global,
    universe: &Universe,
    worlds: &[Bits],
    designated: &FormulaTree,
) -> Result<List<u32>, InitialError>
    requires designated { IsGroundable universe.now.names designated.now }
    requires few { length worlds.now ≤ MOST_INITIAL_WORLDS }
    requires long { AllByRecursion (λ row. length row ≡ length (atoms_of universe.now.names)) worlds.now }
    ensures places { IfOk result (λ places. places ≡ spec.worlds_where universe.now.names designated.now worlds.now) }
    ensures some { IfOk result (λ places. 0 < length places) }
    ensures refused { IfErr result (λ e. (varied : ℕ) → varied ≤ MOST_VARIED →
        Reports InitialError.OutOfMemory (fault_by varied (length worlds.now) (length (spec.worlds_where universe.now.names designated.now worlds.now))) e) }
{
    if worlds.is_empty() {
        return Err(InitialError::NoDesignated);
    }
    let meets = label_rows(alloc, universe, worlds, designated)?;
    let places = meets.places(alloc)?;
    if places.as_slice().is_empty() {
        return Err(InitialError::NoDesignated);
    }
    Ok(places)
}
