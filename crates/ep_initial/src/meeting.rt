//! Which truth lists meet a formula without knowledge.

ghost use Rattle.std.specs.Prelude.{◌≡◌, ◌<◌, ◌≤◌, ◌^◌, [], IfOk, filter, length, map};
ghost use Rattle.std.specs.List.{AllByRecursion};
ghost use Rattle.ep_logic.specs.declared.limits.TheConstants.{MOST_AGENTS, MOST_ATOMS};
ghost use Rattle.ep_initial.specs.declared.limits.TheConstants.{MOST_VARIED};
ghost use Rattle.ep_logic.specs.Numbers.{table};
ghost use Rattle.ep_universe.specs.Atoms.{atoms_of};
ghost use Rattle.ep_initial.specs.Meeting.{IsGroundable, meets, unlinked};

use ep_kripke::{Rows, State};
use ep_logic::{Bits, List, OutOfMemory};
use ep_tree::FormulaTree;
use ep_truth::label;
use ep_universe::Universe;
use ep_universe::formula::ground_form;
use std::alloc::Global;

/// The rows that meet the formula.
pub(crate) fn keep_meeting(
    alloc: Global,
    universe: &Universe,
    rows: &[Bits],
    formula: &FormulaTree,
) -> Result<List<Bits>, OutOfMemory>
    requires formula { IsGroundable universe.now.names formula.now }
    requires some { 0 < length rows.now }
    requires few { length rows.now ≤ 2 ^ MOST_VARIED }
    requires long { AllByRecursion (λ row. length row ≡ length (atoms_of universe.now.names)) rows.now }
    ensures { IfOk result (λ kept. kept ≡ filter (meets universe.now.names formula.now) rows.now) }
{
    let meets = label_rows(alloc, universe, rows, formula)?;
    let mut kept = List::new(alloc);
    for (place, row) in rows.iter().enumerate() {
        if meets.get(place as u32) {
            kept.push(row.copy(alloc)?)?;
        }
    }
    Ok(kept)
}

/// Whether each row meets the formula, in one state of all rows.
pub(crate) fn label_rows(
    alloc: Global,
    universe: &Universe,
    rows: &[Bits],
    formula: &FormulaTree,
) -> Result<Bits, OutOfMemory>
    requires formula { IsGroundable universe.now.names formula.now }
    requires some { 0 < length rows.now }
    requires few { length rows.now ≤ 2 ^ MOST_VARIED }
    requires long { AllByRecursion (λ row. length row ≡ length (atoms_of universe.now.names)) rows.now }
    ensures { IfOk result (λ meets_it. meets_it ≡ map (meets universe.now.names formula.now) rows.now) }
{
    let form = ground_form(alloc, universe, formula, &[])?;
    let agents = universe.agents();
    let atoms = universe.atoms();
    let state = build_unlinked(alloc, agents, atoms, rows)?;
    label(alloc, &state, &form)
}

/// The state of these worlds where nobody links any.
fn build_unlinked(
    alloc: Global,
    agents: u32,
    atoms: u32,
    rows: &[Bits],
) -> Result<State, OutOfMemory>
    requires agents { agents ≤ MOST_AGENTS }
    requires atoms { atoms ≤ MOST_ATOMS }
    requires some { 0 < length rows.now }
    requires few { length rows.now ≤ 2 ^ MOST_VARIED }
    requires long { AllByRecursion (λ row. length row ≡ atoms) rows.now }
    ensures { IfOk result (λ state. state ≡ unlinked agents atoms rows.now) }
{
    let truth = copy_rows(alloc, rows)?;
    let relations = no_relations(alloc, agents, rows.len())?;
    let mut designated = List::new(alloc);
    designated.push(0u32)?;
    let state = State::from_rows(alloc, agents, atoms, truth, relations, designated)?;
    Ok(state)
}

fn copy_rows(alloc: Global, rows: &[Bits]) -> Result<List<Bits>, OutOfMemory>
    ensures { IfOk result (λ copies. copies ≡ rows.now) }
{
    let mut copies = List::new(alloc);
    for row in rows {
        copies.push(row.copy(alloc)?)?;
    }
    Ok(copies)
}

/// For each agent, no successor of any world.
fn no_relations(alloc: Global, agents: u32, worlds: usize) -> Result<List<Rows>, OutOfMemory>
    ensures { IfOk result (λ relations. relations ≡ table (λ _. table (λ _. []) worlds) agents) }
{
    let mut relations = List::new(alloc);
    for _agent in 0..agents {
        relations.push(no_rows(alloc, worlds)?)?;
    }
    Ok(relations)
}

fn no_rows(alloc: Global, worlds: usize) -> Result<Rows, OutOfMemory>
    ensures { IfOk result (λ rows. rows ≡ table (λ _. []) worlds) }
{
    let mut rows = Rows::new(alloc);
    for _world in 0..worlds {
        rows.push(&[])?;
    }
    Ok(rows)
}
