// Links that may have no answer, as rows of bits.

ghost use Rattle.std.specs.Prelude.{◌≡◌, ℕ, ◌<◌, ◌≤◌, [], length, slice_index_or, is_some, All, IfOk};
ghost use Rattle.ep_theory.specs.Kripke.{successors, links_of};
ghost use Rattle.ep_apart.specs.declared.limits.TheConstants.{MOST_JOINT};
ghost use Rattle.ep_apart.specs.Tables.{in_row};
ghost use Rattle.ep_apart.specs.Missed.{IsWide, MarksLines, MarkLines, AreWithin, Joins, AreJoined, AllMissed};

use ep_kripke::State;
use ep_logic::{AgentId, Bits, List, OutOfMemory, WorldId};
use std::alloc::Global;

/// For each agent and each world a row of bits. Where it is false, each link of the world is answered by one of the
/// world at that place: they lead to worlds that no line of the table tells apart.
pub fn missed_links(
    alloc: Global,
    q: &State,
    table: &[List<Option<u32>>],
) -> Result<List<List<Bits>>, OutOfMemory>
    ensures { IfOk result (AllMissed q.now table.now) }
{
    let told = all_told(alloc, table, q.worlds())?;
    let mut all = List::new(alloc);
    for a in 0..q.agents() {
        let agent = AgentId { n: a };
        let within = all_within(alloc, q, agent, told.as_slice())?;
        let rows = all_joined(alloc, q, agent, within.as_slice())?;
        all.push(rows)?;
    }
    Ok(all)
}

// Whether the row has a line at the place.
fn is_told(row: &[Option<u32>], y: u32) -> bool
    ensures { result ≡ is_some (in_row row.now y) }
{
    match row.get(y as usize) {
        Some(line) => line.is_some(),
        None => false,
    }
}

// Which of the first cells of the row have a line.
fn told_row(alloc: Global, row: &[Option<u32>], worlds: u32) -> Result<Bits, OutOfMemory>
    ensures { IfOk result (MarksLines row.now worlds) }
{
    let mut told = Bits::zeros(alloc, worlds)?;
    for y in 0..worlds {
        told.set(y, is_told(row, y));
    }
    Ok(told)
}

// The row of a world, with no cell past the last.
fn row_at(table: &[List<Option<u32>>], x: u32) -> &[Option<u32>]
    ensures { result.now ≡ slice_index_or table.now x [] }
{
    match table.get(x as usize) {
        Some(row) => row.as_slice(),
        None => &[],
    }
}

// For each two worlds whether a line tells the first from the second.
fn all_told(
    alloc: Global,
    table: &[List<Option<u32>>],
    worlds: u32,
) -> Result<List<Bits>, OutOfMemory>
    ensures { IfOk result (MarkLines table.now worlds) }
{
    let mut told = List::new(alloc);
    for x in 0..worlds {
        told.push(told_row(alloc, row_at(table, x), worlds)?)?;
    }
    Ok(told)
}

// For each row the worlds whose links lead into it alone.
fn all_within(
    alloc: Global,
    q: &State,
    agent: AgentId,
    told: &[Bits],
) -> Result<List<Bits>, OutOfMemory>
    requires { agent.n < q.now.agents }
    ensures { IfOk result (AreWithin q.now agent.n told.now) }
{
    q.known();
    let mut all = List::new(alloc);
    for row in told {
        all.push(q.relation(agent).all_within(alloc, row)?)?;
    }
    Ok(all)
}

// Makes true what is true in one of the chosen rows.
fn join_rows(row: &mut Bits, rows: &[Bits], chosen: &[u32])
    requires wide { IsWide rows.now (length rows.now) (length row.old) }
    requires within { All (λ x. x < length rows.now) chosen.now }
    ensures long { length row.new ≡ length row.old }
    ensures joins { Joins rows.now chosen.now row.new }
{
    for x in chosen {
        row.or_with(&rows[*x as usize]);
    }
}

// What is true in the row of a successor of the world.
fn joined(
    alloc: Global,
    q: &State,
    agent: AgentId,
    c: WorldId,
    within: &[Bits],
) -> Result<Bits, OutOfMemory>
    requires agent { agent.n < q.now.agents }
    requires world { c.n < q.now.worlds }
    requires wide { IsWide within.now q.now.worlds q.now.worlds }
    ensures long { IfOk result (λ row. length row ≡ q.now.worlds) }
    ensures joins { IfOk result (Joins within.now (successors (links_of q.now agent.n) c.n)) }
{
    let mut row = Bits::zeros(alloc, q.worlds())?;
    let mut targets = Vec::new(alloc);
    q.read_targets(agent, c, &mut targets)?;
    join_rows(&mut row, within, &targets);
    Ok(row)
}

// For each world what is true in the row of a successor.
fn all_joined(
    alloc: Global,
    q: &State,
    agent: AgentId,
    within: &[Bits],
) -> Result<List<Bits>, OutOfMemory>
    requires agent { agent.n < q.now.agents }
    requires wide { IsWide within.now q.now.worlds q.now.worlds }
    ensures { IfOk result (AreJoined q.now agent.n within.now) }
{
    let mut rows = List::new(alloc);
    for c in 0..q.worlds() {
        rows.push(joined(alloc, q, agent, WorldId { n: c }, within)?)?;
    }
    Ok(rows)
}
