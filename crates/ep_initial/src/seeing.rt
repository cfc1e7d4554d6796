//! What agents see, and the worlds that they cannot tell apart.

ghost use Rattle.std.specs.Prelude.{◌≡◌, ◌≤◌, [], false, IfOk, length, slice_index_or, unwrap_or};
ghost use Rattle.std.specs.Option.{option_copied};
ghost use Rattle.ep_logic.specs.declared.limits.TheConstants.{MOST_INITIAL_WORLDS};
ghost use Rattle.ep_logic.specs.Numbers.{numbers_where, table};
ghost use Rattle.ep_universe.specs.Links.{agent_count};
ghost use Rattle.ep_initial.specs.Seeing.{agree, alike_rows, last_seen, seen};

use crate::numbers::numbers_of;
use ep_kripke::Rows;
use ep_logic::{AgentId, Bits, List, OutOfMemory};
use ep_tree::{AtomTree, SeesTree};
use ep_universe::Universe;
use std::alloc::Global;

/// The atoms of the last item whose group has the agent, where there is one.
fn find_last_seen<'a>(
    universe: &Universe,
    sees: &'a [SeesTree],
    agent: AgentId,
) -> Option<&'a List<AtomTree>>
    ensures { unwrap_or (option_copied result) [] ≡ last_seen universe.now.names agent.n [] sees.now }
{
    let mut last = None;
    for item in sees {
        if universe.group_of(&[], &item.group).has(agent) {
            last = Some(&item.atoms);
        }
    }
    last
}

/// The numbers of the atoms that an agent sees.
fn atoms_seen(
    alloc: Global,
    universe: &Universe,
    sees: &[SeesTree],
    agent: AgentId,
) -> Result<List<u32>, OutOfMemory>
    ensures { IfOk result (λ numbers. numbers ≡ seen universe.now.names sees.now agent.n) }
{
    match find_last_seen(universe, sees, agent) {
        Some(atoms) => numbers_of(alloc, universe, atoms.as_slice()),
        None => Ok(List::new(alloc)),
    }
}

/// The truth of an atom in a row, false past its end.
fn truth_in(row: &Bits, atom: u32) -> bool
    ensures { result ≡ slice_index_or row.now atom false }
{
    atom < row.len() && row.get(atom)
}

/// Whether two rows agree on atoms.
fn agree(atoms: &[u32], v: &Bits, w: &Bits) -> bool
    ensures { result ≡ agree atoms.now v.now w.now }
{
    atoms.iter().all(|p| truth_in(v, *p) == truth_in(w, *p))
}

/// The places of the rows that agree with a row.
fn find_alike(
    alloc: Global,
    rows: &[Bits],
    atoms: &[u32],
    row: &Bits,
) -> Result<Vec<u32>, OutOfMemory>
    requires { length rows.now ≤ MOST_INITIAL_WORLDS }
    ensures { IfOk result (λ places. places.items ≡ numbers_where (λ w. agree atoms.now row.now (slice_index_or rows.now w [])) (length rows.now)) }
{
    let mut places = List::new(alloc);
    for (place, other) in rows.iter().enumerate() {
        if agree(atoms, row, other) {
            places.push(place as u32)?;
        }
    }
    Ok(places.into_vec())
}

/// For each row, the places of those that agree with it.
fn find_alike_rows(alloc: Global, rows: &[Bits], atoms: &[u32]) -> Result<Rows, OutOfMemory>
    requires { length rows.now ≤ MOST_INITIAL_WORLDS }
    ensures { IfOk result (λ links. links ≡ alike_rows rows.now atoms.now) }
{
    let mut links = Rows::new(alloc);
    for row in rows {
        links.push(&find_alike(alloc, rows, atoms, row)?)?;
    }
    Ok(links)
}

/// For each agent, the worlds that each world is linked to.
pub(crate) fn relations(
    alloc: Global,
    universe: &Universe,
    sees: &[SeesTree],
    rows: &[Bits],
) -> Result<List<Rows>, OutOfMemory>
    requires { length rows.now ≤ MOST_INITIAL_WORLDS }
    ensures { IfOk result (λ relations. relations ≡ table (λ a. alike_rows rows.now (seen universe.now.names sees.now a)) (agent_count universe.now.names)) }
{
    let agents = universe.agents();
    let mut relations = List::new(alloc);
    for n in 0..agents {
        let atoms = atoms_seen(alloc, universe, sees, AgentId { n })?;
        relations.push(find_alike_rows(alloc, rows, atoms.as_slice())?)?;
    }
    Ok(relations)
}
