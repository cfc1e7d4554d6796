// Tables of lines that tell worlds of one state apart.

ghost use Rattle.std.specs.Prelude.{◌≡◌, ℕ, suc, ◌<◌, ◌≤◌, ◌+◌, ◌*◌, ◌^◌, All, [], None, IsTrue, length, slice_index_or, IfOk, IfSome, OnOk};
ghost use Rattle.ep_theory.specs.Kripke.{IsState};
ghost use Rattle.ep_apart.specs.declared.limits.TheConstants.{MOST_JOINT};
ghost use Rattle.ep_apart.specs.Missed.{AllMissed, bit};
ghost use Rattle.ep_apart.specs.Tables.{IsBefore, IsCell, IsFullRow, IsGrid, IsLone, IsLoneLink, IsNextCell, IsRow, IsTable, Grows, cell, in_row, told_count, told_row, told_table};

use crate::lines::Line;
use crate::missed::missed_links;
use crate::parts::{add, conjunction, excluded, parts_of, possible};
use ep_kripke::State;
use ep_logic::{AgentId, AtomId, Bits, List, OutOfMemory, WorldId};
use std::alloc::Global;

// A line that tells the worlds by an atom, if one does.
fn first_cell(
    q: &State,
    lines: &mut List<Line>,
    c: WorldId,
    d: WorldId,
) -> Result<Option<u32>, OutOfMemory>
    requires first { c.n < q.now.worlds }
    requires second { d.n < q.now.worlds }
    requires room { length lines.old + 2 ≤ 2 ^ 24 }
    ensures told { IfOk result (IsCell q.now 0 lines.new c.n d.n) }
    ensures grows { OnOk result (Grows q.now.agents q.now.atoms lines.old lines.new) }
    ensures few { IfOk result (λ o. length lines.new ≤ length lines.old + 4 * told_count o) }
{
    for p in 0..q.atoms() {
        let atom = AtomId { n: p };
        let here = q.holds_atom(c, atom);
        if here != q.holds_atom(d, atom) {
            let told = add(lines, Line::Atom(atom))?;
            if here {
                return Ok(Some(told));
            }
            return Ok(Some(add(lines, Line::Not(told))?));
        }
    }
    Ok(None)
}

// A line that tells one of the worlds `from` from all worlds `to`, if the table has what it takes.
fn lone(
    alloc: Global,
    lines: &mut List<Line>,
    table: &[List<Option<u32>>],
    from: &[u32],
    to: &[u32],
) -> Result<Option<u32>, OutOfMemory>
    requires from { All (λ x. x < length table.now) from.now }
    requires to { All (λ y. y < length table.now) to.now }
    requires grid { IsGrid (length table.now) lines.old table.now }
    requires room { length lines.old < 2 ^ 24 }
    ensures found { IfOk result (IsLone table.now from.now to.now lines.old lines.new) }
    ensures within { IfOk result (λ o. IfSome o (λ j. j < length lines.new)) }
    ensures grows { OnOk result ((agents atoms : ℕ) → Grows agents atoms lines.old lines.new) }
    ensures few { IfOk result (λ o. length lines.new ≤ length lines.old + told_count o) }
{
    for x in from {
        let row = table[*x as usize].as_slice();
        if let Some(parts) = parts_of(alloc, row, to)? {
            return Ok(Some(conjunction(lines, parts)?));
        }
    }
    Ok(None)
}

// What is known before a round: the table of the round before, and the links that may have no answer by it.
#[derive(Drop)]
struct Before {
    round: u32,
    table: List<List<Option<u32>>>,
    missed: List<List<Bits>>,
}

// Whether the agent's links of the first world may have no answer from the second.
fn may_miss(missed: &[List<Bits>], agent: AgentId, c: WorldId, d: WorldId) -> bool
    requires agent { agent.n < length missed.now }
    requires first { c.n < length (slice_index_or missed.now agent.n []) }
    requires second { d.n < length (slice_index_or (slice_index_or missed.now agent.n []) c.n []) }
    ensures { result ≡ bit (slice_index_or missed.now agent.n []) c.n d.n }
{
    let rows = missed[agent.n as usize].as_slice();
    rows[c.n as usize].get(d.n)
}

// A line that tells a world to which the agent links the first from all to which it links the second, if the table
// has what it takes.
fn lone_link(
    alloc: Global,
    q: &State,
    lines: &mut List<Line>,
    before: &Before,
    agent: AgentId,
    c: WorldId,
    d: WorldId,
) -> Result<Option<u32>, OutOfMemory>
    requires agent { agent.n < q.now.agents }
    requires first { c.n < q.now.worlds }
    requires second { d.n < q.now.worlds }
    requires grid { IsGrid q.now.worlds lines.old before.now.table }
    requires missed { AllMissed q.now before.now.table before.now.missed }
    requires room { length lines.old < 2 ^ 24 }
    ensures found { IfOk result (IsLoneLink q.now before.now.table agent.n c.n d.n lines.old lines.new) }
    ensures within { IfOk result (λ o. IfSome o (λ j. j < length lines.new)) }
    ensures grows { OnOk result ((agents atoms : ℕ) → Grows agents atoms lines.old lines.new) }
    ensures few { IfOk result (λ o. length lines.new ≤ length lines.old + told_count o) }
{
    if !may_miss(before.missed.as_slice(), agent, c, d) {
        return Ok(None);
    }
    let mut from = Vec::new(alloc);
    let mut to = Vec::new(alloc);
    q.read_targets(agent, c, &mut from)?;
    q.read_targets(agent, d, &mut to)?;
    lone(alloc, lines, before.table.as_slice(), &from, &to)
}

// A line that tells world `c` from world `d` by a link of one that no link of the other answers, if there is one.
fn next_cell(
    alloc: Global,
    q: &State,
    lines: &mut List<Line>,
    before: &Before,
    c: WorldId,
    d: WorldId,
) -> Result<Option<u32>, OutOfMemory>
    requires first { c.n < q.now.worlds }
    requires second { d.n < q.now.worlds }
    requires grid { IsGrid q.now.worlds lines.old before.now.table }
    requires missed { AllMissed q.now before.now.table before.now.missed }
    requires room { length lines.old + 4 ≤ 2 ^ 24 }
    ensures told { IfOk result (IsNextCell q.now before.now.table lines.old lines.new c.n d.n) }
    ensures grows { OnOk result (Grows q.now.agents q.now.atoms lines.old lines.new) }
    ensures valid { IsState q.now }
    ensures few { IfOk result (λ o. length lines.new ≤ length lines.old + 4 * told_count o) }
{
    for a in 0..q.agents() {
        let agent = AgentId { n: a };
        if let Some(j) = lone_link(alloc, q, lines, before, agent, c, d)? {
            return Ok(Some(possible(lines, agent, j)?));
        }
        if let Some(j) = lone_link(alloc, q, lines, before, agent, d, c)? {
            return Ok(Some(excluded(lines, agent, j)?));
        }
    }
    Ok(None)
}

// The cell of the worlds in the table of the round.
fn cell_of(
    alloc: Global,
    q: &State,
    lines: &mut List<Line>,
    before: &Before,
    c: WorldId,
    d: WorldId,
) -> Result<Option<u32>, OutOfMemory>
    requires first { c.n < q.now.worlds }
    requires second { d.n < q.now.worlds }
    requires before { IsBefore q.now before.now.round lines.old before.now.table }
    requires missed { AllMissed q.now before.now.table before.now.missed }
    requires room { length lines.old + 4 ≤ 2 ^ 24 }
    ensures told { IfOk result (IsCell q.now before.now.round lines.new c.n d.n) }
    ensures grows { OnOk result (Grows q.now.agents q.now.atoms lines.old lines.new) }
    ensures few { IfOk result (λ o. length lines.new + 4 * told_count (cell before.now.table c.n d.n)
        ≤ length lines.old + 4 * told_count o) }
{
    if c == d {
        return Ok(None);
    }
    if before.round == 0 {
        return first_cell(q, lines, c, d);
    }
    let table = before.table.as_slice();
    match table[c.n as usize].as_slice()[d.n as usize] {
        Some(told) => Ok(Some(told)),
        None => next_cell(alloc, q, lines, before, c, d),
    }
}

// The row of a world in the table of the round.
fn row_of(
    alloc: Global,
    q: &State,
    lines: &mut List<Line>,
    before: &Before,
    c: WorldId,
) -> Result<List<Option<u32>>, OutOfMemory>
    requires world { c.n < q.now.worlds }
    requires small { q.now.worlds ≤ MOST_JOINT }
    requires before { IsBefore q.now before.now.round lines.old before.now.table }
    requires missed { AllMissed q.now before.now.table before.now.missed }
    requires room { length lines.old ≤ 2 ^ 22 }
    ensures told { IfOk result (IsRow q.now before.now.round lines.new c.n) }
    ensures grows { OnOk result (Grows q.now.agents q.now.atoms lines.old lines.new) }
    ensures few { IfOk result (λ row. length lines.new + 4 * told_row (cell before.now.table c.n) q.now.worlds
        ≤ length lines.old + 4 * told_row (in_row row) q.now.worlds) }
{
    let mut row = List::new(alloc);
    for d in 0..q.worlds() {
        let told = cell_of(alloc, q, lines, before, c, WorldId { n: d })?;
        row.push(told)?;
    }
    Ok(row)
}

// The table of the round.
fn table_of(
    alloc: Global,
    q: &State,
    lines: &mut List<Line>,
    before: &Before,
) -> Result<List<List<Option<u32>>>, OutOfMemory>
    requires small { q.now.worlds ≤ MOST_JOINT }
    requires before { IsBefore q.now before.now.round lines.old before.now.table }
    requires missed { AllMissed q.now before.now.table before.now.missed }
    requires room { length lines.old ≤ 2 ^ 21 }
    ensures told { IfOk result (IsTable q.now before.now.round lines.new) }
    ensures grows { OnOk result (Grows q.now.agents q.now.atoms lines.old lines.new) }
    ensures few { IfOk result (λ rows. length lines.new + 4 * told_table (cell before.now.table) q.now.worlds q.now.worlds
        ≤ length lines.old + 4 * told_table (cell rows) q.now.worlds q.now.worlds) }
{
    let mut rows = List::new(alloc);
    for c in 0..q.worlds() {
        let row = row_of(alloc, q, lines, before, WorldId { n: c })?;
        rows.push(row)?;
    }
    Ok(rows)
}

// The table of the round, where `table` is that of the round before.
fn next_table(
    alloc: Global,
    q: &State,
    lines: &mut List<Line>,
    table: List<List<Option<u32>>>,
    round: u32,
) -> Result<List<List<Option<u32>>>, OutOfMemory>
    requires small { q.now.worlds ≤ MOST_JOINT }
    requires before { IsBefore q.now round lines.old table }
    requires room { length lines.old ≤ 2 ^ 21 }
    ensures told { IfOk result (IsTable q.now round lines.new) }
    ensures grows { OnOk result (Grows q.now.agents q.now.atoms lines.old lines.new) }
    ensures few { IfOk result (λ rows. length lines.new + 4 * told_table (cell table) q.now.worlds q.now.worlds
        ≤ length lines.old + 4 * told_table (cell rows) q.now.worlds q.now.worlds) }
{
    let missed = missed_links(alloc, q, table.as_slice())?;
    let before = Before {
        round,
        table,
        missed,
    };
    table_of(alloc, q, lines, &before)
}

/// For each two worlds a line that tells the first from the second. Their kinds differ at the level of the last
/// round, which is one less than the number of worlds, so that so many `knows` at most stand inside one another.
pub fn tell_worlds(
    alloc: Global,
    q: &State,
    lines: &mut List<Line>,
) -> Result<List<List<Option<u32>>>, OutOfMemory>
    requires small { q.now.worlds ≤ MOST_JOINT }
    requires empty { lines.old ≡ [] }
    ensures told { IfOk result (IsBefore q.now q.now.worlds lines.new) }
    ensures grows { OnOk result (Grows q.now.agents q.now.atoms lines.old lines.new) }
    ensures few { OnOk result (length lines.new ≤ 4 * (q.now.worlds * q.now.worlds)) }
    ensures valid { IsState q.now }
{
    let mut table = List::new(alloc);
    for round in 0..q.worlds() {
        table = next_table(alloc, q, lines, table, round)?;
        if is_full(table.as_slice()) {
            return Ok(table);
        }
    }
    Ok(table)
}

// Whether each two worlds are told apart.
fn is_full(table: &[List<Option<u32>>]) -> bool
    requires { length table.now ≤ MOST_JOINT }
    ensures { IsTrue result → (c : ℕ) → c < length table.now → IsFullRow (slice_index_or table.now c []) c }
{
    for c in 0..table.len() {
        if !row_is_full(table[c].as_slice(), c) {
            return false;
        }
    }
    true
}

fn row_is_full(row: &[Option<u32>], c: usize) -> bool
    ensures { IsTrue result → IsFullRow row.now c }
{
    for d in 0..row.len() {
        if d != c && row[d].is_none() {
            return false;
        }
    }
    true
}
