//! What is written of worlds or events: numbers for their names, and the pairs that each agent links.

ghost use Rattle.std.specs.Prelude.{◌≡◌, true, ◌++◌, IfOk, OnOk, map, unwrap_or};
ghost use Rattle.std.specs.Option.{option_copied};
ghost use Rattle.ep_tree.specs.declared.tree.PairsTree.TheVariants.{Same};
ghost use Rattle.ep_logic.specs.Numbers.{numbers_where, pairs_where, table};
ghost use Rattle.ep_universe.specs.Links.{last_pairs, pair_of, place_of, written_pairs};

use crate::objects::Bound;
use crate::universe::Universe;
use ep_logic::{AgentId, List, OutOfMemory};
use ep_name::NameTable;
use ep_tree::{LinkTree, Name, PairTree, PairsTree};
use std::alloc::Global;

/// What is written of the worlds or events with these names: which are designated, and the links between them.
#[derive(Clone, Copy)]
pub struct Ends<'a> {
    pub designated: &'a [Name],
    pub links: &'a [LinkTree],
}

/// The number of a name in a table that is not empty, by one look-up.
pub fn place_of(names: &NameTable, name: &Name) -> u32
    ensures { result ≡ place_of names.now name.now }
{
    names.place(name.text.as_slice()).unwrap_or(0)
}

/// Adds the pairs from a number to each number.
fn push_row(pairs: &mut List<(u32, u32)>, from: u32, count: u32) -> Result<(), OutOfMemory>
    ensures { OnOk result (pairs.new ≡ pairs.old ++ map (λ to. (from, to)) (numbers_where (λ _. true) count)) }
{
    for to in 0..count {
        pairs.push((from, to))?;
    }
    Ok(())
}

/// All pairs.
fn all_pairs(alloc: Global, count: u32) -> Result<List<(u32, u32)>, OutOfMemory>
    ensures { IfOk result (λ pairs. pairs ≡ pairs_where (λ _ _. true) count) }
{
    let mut pairs = List::new(alloc);
    for from in 0..count {
        push_row(&mut pairs, from, count)?;
    }
    Ok(pairs)
}

/// Each number with itself.
fn same_pairs(alloc: Global, count: u32) -> Result<List<(u32, u32)>, OutOfMemory>
    ensures { IfOk result (λ pairs. pairs ≡ table (λ n. (n, n)) count) }
{
    let mut pairs = List::new(alloc);
    for n in 0..count {
        pairs.push((n, n))?;
    }
    Ok(pairs)
}

fn listed_pairs(
    alloc: Global,
    names: &NameTable,
    listed: &[PairTree],
) -> Result<List<(u32, u32)>, OutOfMemory>
    ensures { IfOk result (λ pairs. pairs ≡ map (pair_of names.now) listed.now) }
{
    let mut pairs = List::new(alloc);
    for pair in listed {
        pairs.push((place_of(names, &pair.from), place_of(names, &pair.to)))?;
    }
    Ok(pairs)
}

/// The pairs that are written.
fn written_pairs(
    alloc: Global,
    names: &NameTable,
    pairs: &PairsTree,
) -> Result<List<(u32, u32)>, OutOfMemory>
    ensures { IfOk result (λ made. made ≡ written_pairs names.now pairs.now) }
{
    match pairs {
        PairsTree::All => all_pairs(alloc, names.len()),
        PairsTree::Same => same_pairs(alloc, names.len()),
        PairsTree::Listed(listed) => listed_pairs(alloc, names, listed.as_slice()),
    }
}

/// What the last item says whose group has the agent, where there is one.
pub fn find_last_pairs<'a>(
    universe: &Universe,
    binding: &[Bound],
    links: &'a [LinkTree],
    agent: AgentId,
) -> Option<&'a PairsTree>
    ensures { unwrap_or (option_copied result) Same ≡ last_pairs universe.now.names binding.now agent.n Same links.now }
{
    let mut last = None;
    for link in links {
        if universe.group_of(binding, &link.group).has(agent) {
            last = Some(&link.pairs);
        }
    }
    last
}

/// The pairs that are written in an item, or those of each number with itself where there is none.
pub fn item_pairs(
    alloc: Global,
    names: &NameTable,
    item: Option<&PairsTree>,
) -> Result<List<(u32, u32)>, OutOfMemory>
    ensures { IfOk result (λ pairs. pairs ≡ written_pairs names.now (unwrap_or (option_copied item.entry) Same)) }
{
    match item {
        Some(pairs) => written_pairs(alloc, names, pairs),
        None => written_pairs(alloc, names, &PairsTree::Same),
    }
}
