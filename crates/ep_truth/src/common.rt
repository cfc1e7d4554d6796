ghost use Rattle.std.specs.Prelude.{◌≡◌, ℕ, ◌+◌, ◌<◌, ◌≤◌, ◌^◌, ◌↔◌, IfOk, OnOk, IsTrue, length, drop, sum_by};
ghost use Rattle.ep_logic.specs.AgentSets.{is_nobody};
ghost use Rattle.ep_theory.specs.Kripke.{IsState, links_of};
ghost use Rattle.ep_logic.specs.Numbers.{numbers_where, table};
ghost use Rattle.ep_logic.specs.Rows.{value_at, both, Within};
ghost use Rattle.ep_truth.specs.Common.{AllWalks, IsClosed, IsGreatestClosed, HaveSameWalks, GainsLinks, LeadBack, is_out};
ghost use Rattle.ep_truth.specs.Labels.{knows_test};

use crate::labels::label_knows;
use ep_kripke::{Sources, State};
use ep_logic::{AgentId, Agents, Bits, OutOfMemory, WorldId};
use std::alloc::{AllocError, Global};

/// The worlds from which every walk of the group stays in the row: the greatest part of it from which no link of the
/// group leaves it. It costs the distinct rows of links twice, and where that is not enough each link of the worlds that
/// are left once.
pub fn label_common(
    alloc: Global,
    s: &State,
    group: &Agents,
    inner: &Bits,
) -> Result<Bits, OutOfMemory>
    requires group { IsTrue (is_nobody (drop s.now.agents group.now)) }
    requires long { length inner.now ≡ s.now.worlds }
    ensures long { IfOk result (λ row. length row ≡ s.now.worlds) }
    ensures each { IfOk result (λ row. (w : ℕ) → w < s.now.worlds →
        IsTrue (value_at row w) ↔ AllWalks s.now group.now inner.now w) }
    ensures greatest { IfOk result (IsGreatestClosed s.now group.now inner.now) }
{
    let mut row = inner.copy(alloc)?;
    if sweep(alloc, s, group, &mut row)? {
        return Ok(row);
    }
    if sweep(alloc, s, group, &mut row)? {
        return Ok(row);
    }
    let common = walk_back(alloc, s, group, &row)?;
    Ok(common)
}

// Takes out of the row, for one agent of the group after another, the worlds from which a link leaves it, and says
// whether there was none.
fn sweep(alloc: Global, s: &State, group: &Agents, row: &mut Bits) -> Result<bool, OutOfMemory>
    requires group { IsTrue (is_nobody (drop s.now.agents group.now)) }
    requires long { length row.old ≡ s.now.worlds }
    ensures valid { IsState s.now }
    ensures long { OnOk result (length row.new ≡ s.now.worlds) }
    ensures same { OnOk result (HaveSameWalks s.now group.now row.old row.new) }
    ensures closed { IfOk result (λ none. IsTrue none → IsClosed s.now group.now row.new) }
{
    let mut none = true;
    for a in 0..s.agents() {
        let agent = AgentId { n: a };
        if group.has(agent) {
            let stays = keep_within(alloc, s, agent, row)?;
            none = none && stays;
        }
    }
    Ok(none)
}

// Takes out of the row the worlds from which a link of the agent leaves it, and says whether there was none.
fn keep_within(alloc: Global, s: &State, a: AgentId, row: &mut Bits) -> Result<bool, OutOfMemory>
    requires agent { a.n < s.now.agents }
    requires long { length row.old ≡ s.now.worlds }
    ensures row { OnOk result (row.new ≡ both row.old (table (knows_test s.now a.n row.old) s.now.worlds)) }
    ensures none { IfOk result (λ none. IsTrue none ↔
        Within row.old (table (knows_test s.now a.n row.old) s.now.worlds)) }
{
    let within = label_knows(alloc, s, a, row)?;
    let none = row.subset(&within);
    row.and_with(&within);
    Ok(none)
}

// Takes out of the row each world from which some walk leaves it, backwards from the worlds outside. Each link of the
// group from a world of the row is followed once.
fn walk_back(alloc: Global, s: &State, group: &Agents, inner: &Bits) -> Result<Bits, OutOfMemory>
    requires group { IsTrue (is_nobody (drop s.now.agents group.now)) }
    requires long { length inner.now ≡ s.now.worlds }
    ensures long { IfOk result (λ row. length row ≡ s.now.worlds) }
    ensures each { IfOk result (λ row. (w : ℕ) → w < s.now.worlds →
        IsTrue (value_at row w) ↔ AllWalks s.now group.now inner.now w) }
{
    let sources = sources_of(alloc, s, group, inner)?;
    let mut good = inner.copy(alloc)?;
    let mut waiting = outside(alloc, inner)?;
    while let Some(v) = waiting.pop() {
        sources.take_out(v, &mut good, &mut waiting)?;
    }
    Ok(good)
}

// For each world the worlds of the row from which some agent of the group links to it.
fn sources_of(alloc: Global, s: &State, group: &Agents, row: &Bits) -> Result<Sources, OutOfMemory>
    requires group { IsTrue (is_nobody (drop s.now.agents group.now)) }
    requires long { length row.now ≡ s.now.worlds }
    ensures valid { IsState s.now }
    ensures long { IfOk result (λ rows. length rows ≡ s.now.worlds) }
    ensures back { IfOk result (LeadBack s.now group.now row.now) }
{
    let mut sources = Sources::new(alloc, s.worlds())?;
    for a in 0..s.agents() {
        let agent = AgentId { n: a };
        if group.has(agent) {
            add_links(alloc, s, agent, row, &mut sources)?;
        }
    }
    Ok(sources)
}

fn add_links(
    alloc: Global,
    s: &State,
    a: AgentId,
    row: &Bits,
    sources: &mut Sources,
) -> Result<(), OutOfMemory>
    requires agent { a.n < s.now.agents }
    requires row { length row.now ≡ s.now.worlds }
    requires long { length sources.old ≡ s.now.worlds }
    requires room { sum_by length sources.old + length (links_of s.now a.n) < 2 ^ 32 }
    ensures long { OnOk result (length sources.new ≡ s.now.worlds) }
    ensures counted { OnOk result (sum_by length sources.new
        ≤ sum_by length sources.old + length (links_of s.now a.n)) }
    ensures gains { OnOk result (GainsLinks s.now a.n row.now sources.old sources.new) }
{
    let mut targets = Vec::new(alloc);
    for w in 0..s.worlds() {
        if row.get(w) {
            s.read_targets(a, WorldId { n: w }, &mut targets)?;
            sources.add_all(w, &targets)?;
        }
    }
    Ok(())
}

// The worlds where the row is false.
fn outside(alloc: Global, row: &Bits) -> Result<Vec<u32>, OutOfMemory>
    ensures { IfOk result (λ vs. vs.items ≡ numbers_where (is_out row.now) (length row.now)) }
{
    let mut places = Vec::new(alloc);
    for w in 0..row.len() {
        if !row.get(w) {
            places.push(w).map_err(AllocError::from)?;
        }
    }
    Ok(places)
}
