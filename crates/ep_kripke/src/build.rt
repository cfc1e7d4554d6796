// From links and designated worlds in any order to rows.

ghost use Rattle.std.specs.Prelude.{◌≡◌, ℕ, ◌<◌, ◌≤◌, ◌≢◌, ◌↔◌, IsTrue, IfOk, length, map, slice_index_or};
ghost use Rattle.std.specs.List.{AllByRecursion};
ghost use Rattle.ep_logic.specs.Numbers.{table};
ghost use Rattle.ep_theory.specs.Rising.{IsRising};
ghost use Rattle.ep_theory.specs.Kripke.{pair_cmp};
ghost use Rattle.ep_theory.specs.Relations.{all_pairs};
ghost use Rattle.ep_kripke.specs.declared.limits.TheConstants.{MOST_WORLDS};
ghost use Rattle.ep_kripke.specs.States.{HaveRows, AreRow};
ghost use Rattle.ep_kripke.specs.Parts.{joined_pairs, linked_pairs, named_worlds};

use crate::naming::Naming;
use crate::parts::Link;
use crate::relation::Relation;
use crate::rows::Rows;
use ep_logic::{BitTable, Bits, List, OutOfMemory, WorldId};
use std::alloc::{AllocError, Global};
use std::rc::Rc;

// The truth rows in one table.
pub(crate) fn shared_truth(
    alloc: Global,
    atoms: u32,
    rows: &[Bits],
) -> Result<Rc<BitTable>, OutOfMemory>
    requires few { length rows.now ≤ MOST_WORLDS }
    requires width { AllByRecursion (λ row. length row ≡ atoms) rows.now }
    ensures { IfOk result (λ t. t.value ≡ record { width = atoms; rows = rows.now }) }
{
    let table = truth_table(alloc, atoms, rows)?;
    Ok(Rc::new(alloc, table).map_err(AllocError::from)?)
}

fn truth_table(alloc: Global, atoms: u32, rows: &[Bits]) -> Result<BitTable, OutOfMemory>
    requires few { length rows.now ≤ MOST_WORLDS }
    requires width { AllByRecursion (λ row. length row ≡ atoms) rows.now }
    ensures { IfOk result (λ t. t ≡ record { width = atoms; rows = rows.now }) }
{
    let mut table = BitTable::zeros(alloc, 0, atoms)?;
    for row in rows {
        table.push(row.words())?;
    }
    Ok(table)
}

// The links of each agent, named.
pub(crate) fn named_relations(
    alloc: Global,
    worlds: u32,
    relations: &[Rows],
) -> Result<List<Relation>, OutOfMemory>
    requires worlds { worlds ≤ MOST_WORLDS }
    requires rows { HaveRows worlds relations.now }
    requires fit { AllByRecursion (AllByRecursion (AreRow worlds)) relations.now }
    ensures { IfOk result (λ named. named ≡ relations.now) }
{
    let mut named = List::new(alloc);
    for rows in relations {
        named.push(named_rows_of(alloc, worlds, rows)?)?;
    }
    Ok(named)
}

fn named_rows_of(alloc: Global, worlds: u32, rows: &Rows) -> Result<Relation, OutOfMemory>
    requires worlds { worlds ≤ MOST_WORLDS }
    requires rows { length rows.now ≡ worlds }
    requires fit { AllByRecursion (AreRow worlds) rows.now }
    ensures { IfOk result (λ named. named ≡ rows.now) }
{
    let mut naming = Naming::new(alloc, worlds)?;
    for at in 0..rows.len() {
        naming.push(rows.row(at))?;
    }
    naming.finish(alloc)
}

pub(crate) fn relations_of(
    alloc: Global,
    agents: u32,
    worlds: u32,
    links: &[Link],
) -> Result<List<Relation>, OutOfMemory>
    requires worlds { worlds ≤ MOST_WORLDS }
    requires within { AllByRecursion (λ l. (l.from.n < worlds) × (l.to.n < worlds)) links.now }
    ensures pairs { IfOk result (λ relations. map all_pairs relations ≡ table (linked_pairs links.now) agents) }
    ensures rows { IfOk result (HaveRows worlds) }
{
    let mut relations = List::new(alloc);
    for agent in 0..agents {
        relations.push(relation(alloc, agent, worlds, links)?)?;
    }
    Ok(relations)
}

// The successors of each world by the agent's links.
fn relation(alloc: Global, agent: u32, worlds: u32, links: &[Link]) -> Result<Relation, OutOfMemory>
    requires worlds { worlds ≤ MOST_WORLDS }
    requires within { AllByRecursion (λ l. (l.from.n < worlds) × (l.to.n < worlds)) links.now }
    ensures pairs { IfOk result (λ rows. all_pairs rows ≡ linked_pairs links.now agent) }
    ensures rows { IfOk result (λ rows. length rows ≡ worlds) }
{
    let pairs = pairs_of(alloc, agent, links)?;
    rows_of(alloc, worlds, &pairs)
}

fn pairs_of(alloc: Global, agent: u32, links: &[Link]) -> Result<Vec<(u32, u32)>, OutOfMemory>
    ensures { IfOk result (λ pairs. pairs.items ≡ linked_pairs links.now agent) }
{
    let mut pairs = joined(alloc, agent, links)?;
    pairs.sort_unstable();
    pairs.dedup();
    Ok(pairs)
}

// The pairs of worlds that the agent's links join, as they come.
fn joined(alloc: Global, agent: u32, links: &[Link]) -> Result<Vec<(u32, u32)>, OutOfMemory>
    ensures { IfOk result (λ pairs. pairs.items ≡ joined_pairs links.now agent) }
{
    Ok(
        links
            .iter()
            .filter(|link| link.agent.n == agent)
            .map(|link| (link.from.n, link.to.n))
            .collect(alloc)?,
    )
}

// Pairs in rising order, as a row for each world.
fn rows_of(alloc: Global, worlds: u32, pairs: &[(u32, u32)]) -> Result<Relation, OutOfMemory>
    requires worlds { worlds ≤ MOST_WORLDS }
    requires rising { IsRising pair_cmp pairs.now }
    requires within { AllByRecursion (λ p. (p.0 < worlds) × (p.1 < worlds)) pairs.now }
    ensures pairs { IfOk result (λ rows. all_pairs rows ≡ pairs.now) }
    ensures rows { IfOk result (λ rows. length rows ≡ worlds) }
{
    let mut naming = Naming::new(alloc, worlds)?;
    let mut at = 0;
    for world in 0..worlds {
        let end = end_of(pairs, at, world);
        let row = seconds(alloc, &pairs[at..end])?;
        naming.push(&row)?;
        at = end;
    }
    naming.finish(alloc)
}

// Where the pairs of a world end that begin at a place.
fn end_of(pairs: &[(u32, u32)], at: usize, world: u32) -> usize
    requires { at ≤ length pairs.now }
    ensures from { at ≤ result }
    ensures to { result ≤ length pairs.now }
    ensures these { (k : ℕ) → at ≤ k → k < result → (slice_index_or pairs.now k (0, 0)).0 ≡ world }
    ensures next { result < length pairs.now → (slice_index_or pairs.now result (0, 0)).0 ≢ world }
{
    let mut end = at;
    while begins_at(pairs, end, world) {
        end += 1;
    }
    end
}

// Whether a pair of the world stands at a place.
fn begins_at(pairs: &[(u32, u32)], at: usize, world: u32) -> bool
    ensures { IsTrue result ↔ ((at < length pairs.now) × ((slice_index_or pairs.now at (0, 0)).0 ≡ world)) }
{
    at < pairs.len() && pairs[at].0 == world
}

fn seconds(alloc: Global, pairs: &[(u32, u32)]) -> Result<Vec<u32>, OutOfMemory>
    ensures { IfOk result (λ v. v.items ≡ map (λ p. p.1) pairs.now) }
{
    Ok(pairs.iter().map(|pair| pair.1).collect(alloc)?)
}

// The worlds of a list, each once, in rising order.
pub(crate) fn named_of(alloc: Global, worlds: &[WorldId]) -> Result<List<u32>, OutOfMemory>
    ensures { IfOk result (λ numbers. numbers ≡ named_worlds worlds.now) }
{
    let mut numbers = numbers_of(alloc, worlds)?;
    numbers.sort_unstable();
    numbers.dedup();
    Ok(List::from_vec(numbers))
}

fn numbers_of(alloc: Global, worlds: &[WorldId]) -> Result<Vec<u32>, OutOfMemory>
    ensures { IfOk result (λ v. v.items ≡ map (λ w. w.n) worlds.now) }
{
    Ok(worlds.iter().map(|world| world.n).collect(alloc)?)
}
