//! The explicit initial state.

ghost use Rattle.std.specs.Prelude.{◌≡◌, [], IfErr, IfOk, length, map};
ghost use Rattle.ep_base.specs.Refusals.{told};
ghost use Rattle.ep_logic.specs.Numbers.{has_number, table};
ghost use Rattle.ep_universe.specs.Atoms.{atom_at, atoms_of};
ghost use Rattle.ep_initial.specs.Explicit.{IsBuildableState, explicit_state, truth_at};
ghost use Rattle.ep_initial.specs.Faults.{explicit_fault};
ghost use Rattle.ep_initial.specs.Parts.{AreStateParts};

use crate::fault::InitialError;
use crate::links::{world_ids, world_links, world_table};
use crate::numbers::numbers_of;
use ep_kripke::{State, StateError, StateParts};
use ep_logic::{Bits, List, MOST_INITIAL_WORLDS, OutOfMemory};
use ep_tree::{AtomTree, WorldTree};
use ep_universe::links::Ends;
use ep_universe::universe::Universe;
use std::alloc::Global;

/// Whether an explicit initial state has few enough worlds.
pub fn check_worlds(worlds: &[WorldTree]) -> Result<(), InitialError>
    ensures { result ≡ told (explicit_fault worlds.now) }
{
    let count = worlds.len();
    if count > MOST_INITIAL_WORLDS {
        return Err(InitialError::TooManyWorlds {
            count: count as u64,
        });
    }
    Ok(())
}

/// The state of the explicit form, among the agents and the ground atoms of the task.
pub fn explicit_state(
    alloc: Global,
    universe: &Universe,
    worlds: &[WorldTree],
    ends: &Ends,
) -> Result<State, OutOfMemory>
    requires { IsBuildableState worlds.now ends.now.designated.now ends.now.links.now }
    ensures { IfOk result (λ state. state ≡ explicit_state universe.now.names worlds.now ends.now.designated.now ends.now.links.now) }
{
    universe.known();
    let parts = parts(alloc, universe, worlds, ends)?;
    expect_state(State::build(alloc, parts))
}

/// The parts of the state.
fn parts(
    alloc: Global,
    universe: &Universe,
    worlds: &[WorldTree],
    ends: &Ends,
) -> Result<StateParts, OutOfMemory>
    requires { IsBuildableState worlds.now ends.now.designated.now ends.now.links.now }
    ensures { IfOk result (AreStateParts universe.now.names worlds.now ends.now.designated.now ends.now.links.now) }
{
    let names = world_table(alloc, worlds)?;
    Ok(StateParts {
        agents: universe.agents(),
        atoms: universe.atoms(),
        truth: truth(alloc, universe, worlds)?,
        links: world_links(alloc, universe, &names, ends.links)?,
        designated: world_ids(alloc, &names, ends.designated)?,
    })
}

/// The truth of each atom at each world.
fn truth(
    alloc: Global,
    universe: &Universe,
    worlds: &[WorldTree],
) -> Result<List<Bits>, OutOfMemory>
    ensures { IfOk result (λ rows. rows ≡ map (truth_at universe.now.names) worlds.now) }
{
    let mut rows = List::new(alloc);
    for world in worlds {
        rows.push(row(alloc, universe, world.atoms.as_slice())?)?;
    }
    Ok(rows)
}

/// The truth of each atom where those of a list are true.
fn row(alloc: Global, universe: &Universe, listed: &[AtomTree]) -> Result<Bits, OutOfMemory>
    ensures { IfOk result (λ row. row ≡ table (has_number (map (atom_at universe.now.names []) listed.now)) (length (atoms_of universe.now.names))) }
{
    let numbers = numbers_of(alloc, universe, listed)?;
    let atoms = universe.atoms();
    Bits::from_places(alloc, atoms, numbers.as_slice())
}

/// The state, where memory alone can be wanting.
fn expect_state(answer: Result<State, StateError>) -> Result<State, OutOfMemory>
    requires { IfErr answer (λ e. e ≡ StateError.OutOfMemory) }
    ensures { IfOk result (λ state. answer ≡ Ok state) }
{
    match answer {
        Ok(state) => Ok(state),
        Err(StateError::OutOfMemory) => Err(OutOfMemory {}),
        Err(_) => unreachable!(),
    }
}
