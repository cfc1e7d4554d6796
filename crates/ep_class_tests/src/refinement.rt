// Classes of large states with their count of signatures, and of states made by a rule against a plain program.

ghost use Rattle.std.specs.Prelude.{◌≡◌, ◌+◌, ◌<◌, ◌≤◌, length, sum_by};

use crate::made::check_parts;
use ep_kripke::{Link, State, StateError, StateParts};
use ep_logic::{AgentId, AtomId, Bits, List, OutOfMemory, Steps, WorldId};
use ep_refine::{ClassList, classes, classes_counted, sign};
use std::alloc::Global;
use std::marker::Brand;
use std::process::Abort;
use std::sync::ledger::{Blank, Ledger};
use std::test::Fail;

fn link(agent: u32, from: u32, to: u32) -> Link {
    Link {
        agent: AgentId { n: agent },
        from: WorldId { n: from },
        to: WorldId { n: to },
    }
}

// A state whose first world is designated.
fn state(
    rt: &impl Abort,
    alloc: Global,
    agents: u32,
    truth: List<Bits>,
    links: List<Link>,
) -> Result<State, StateError> {
    let mut designated = List::new(alloc);
    designated.push(WorldId { n: 0 })?;
    let parts = StateParts {
        agents,
        atoms: 1,
        truth,
        links,
        designated,
    };
    check_parts(rt, &parts);
    State::build(alloc, parts)
}

// Worlds where the atom is false.
fn no_truth(alloc: Global, worlds: u32) -> Result<List<Bits>, OutOfMemory> {
    let mut truth = List::new(alloc);
    for _w in 0..worlds {
        truth.push(Bits::zeros(alloc, 1)?)?;
    }
    Ok(truth)
}

fn chain(alloc: Global, worlds: u32) -> Result<List<Link>, OutOfMemory> {
    let mut links = List::new(alloc);
    for w in 1..worlds {
        links.push(link(0, w - 1, w))?;
    }
    Ok(links)
}

fn ring(alloc: Global, worlds: u32) -> Result<List<Link>, OutOfMemory> {
    let mut links = chain(alloc, worlds)?;
    links.push(link(0, worlds.wrapping_sub(1), 0))?;
    Ok(links)
}

// A binary tree, each world linked to its parent.
fn to_parents(alloc: Global, worlds: u32) -> Result<List<Link>, OutOfMemory> {
    let mut links = List::new(alloc);
    for w in 1..worlds {
        links.push(link(0, w, (w - 1) / 2))?;
    }
    Ok(links)
}

// Links from a world to all later ones.
fn link_all_later(links: &mut List<Link>, w: u32, worlds: u32) -> Result<(), OutOfMemory>
    requires { w < worlds }
{
    for v in w + 1..worlds {
        links.push(link(0, w, v))?;
    }
    Ok(())
}

fn all_later(alloc: Global, worlds: u32) -> Result<List<Link>, OutOfMemory> {
    let mut links = List::new(alloc);
    for w in 0..worlds {
        link_all_later(&mut links, w, worlds)?;
    }
    Ok(links)
}

fn plain_state(
    rt: &impl Abort,
    alloc: Global,
    worlds: u32,
    links: List<Link>,
) -> Result<State, StateError> {
    let truth = no_truth(alloc, worlds)?;
    state(rt, alloc, 1, truth, links)
}

// A world for each of 1,024 and 20 for each of 1,023 links.
fn few_signatures<L: Ledger>(
    alloc: Global,
    s: &State,
    steps: &mut Steps<L>,
) -> Result<ClassList, OutOfMemory>
    requires worlds { s.now.worlds ≡ 1024 }
    requires links { sum_by length s.now.links ≡ 1023 }
    ensures { steps.new ≤ steps.old + 21484 }
{
    classes_counted(alloc, s, steps)
}

fn counted<L: Ledger>(
    rt: &impl Abort,
    alloc: Global,
    s: &State,
    blank: Blank,
) -> Result<u32, OutOfMemory>
    requires name { blank.name ≡ L.name }
    requires parts { blank.parts ≡ L.parts }
    requires some { 0 < L.parts }
{
    assert!(rt; s.worlds() == 1024);
    assert!(rt; s.links() == 1023);
    let mut steps = Steps::<L>::new(blank);
    let found = few_signatures(alloc, s, &mut steps)?;
    Ok(found.count())
}

#[test]
fn a_chain_has_a_class_for_each_world(rt: HostRuntime) -> Result<(), Fail> {
    let links = chain(rt.alloc(), 1024)?;
    let s = plain_state(&rt, rt.alloc(), 1024, links)?;
    let count = counted::<Brand>(&rt, rt.alloc(), &s, Blank::new(1))?;
    assert_eq!(rt; count, 1024);
    Ok(())
}

#[test]
fn a_ring_has_one_class(rt: HostRuntime) -> Result<(), Fail> {
    let links = ring(rt.alloc(), 1000)?;
    let s = plain_state(&rt, rt.alloc(), 1000, links)?;
    let found = classes(rt.alloc(), &s)?;
    assert_eq!(rt; found.count(), 1);
    Ok(())
}

// A tree of ten levels.
#[test]
fn a_tree_turned_round_has_a_class_for_each_level(rt: HostRuntime) -> Result<(), Fail> {
    let links = to_parents(rt.alloc(), 1023)?;
    let s = plain_state(&rt, rt.alloc(), 1023, links)?;
    let found = classes(rt.alloc(), &s)?;
    assert_eq!(rt; found.count(), 10);
    Ok(())
}

#[test]
fn a_dense_state_has_a_class_for_each_world(rt: HostRuntime) -> Result<(), Fail> {
    let links = all_later(rt.alloc(), 128)?;
    let s = plain_state(&rt, rt.alloc(), 128, links)?;
    let found = classes(rt.alloc(), &s)?;
    assert_eq!(rt; found.count(), 128);
    Ok(())
}

// A world's old rank, and for each agent the ranks of its successors.
#[derive(Debug, PartialEq, Eq, PartialOrd, Ord, Drop)]
struct Signed {
    older: usize,
    lists: Vec<Vec<usize>>,
}

fn rank(ranks: &[usize], w: u32) -> usize {
    match ranks.get(w as usize) {
        Some(rank) => *rank,
        None => 0,
    }
}

fn ranks_of(alloc: Global, worlds: &[WorldId], ranks: &[usize]) -> Result<Vec<usize>, OutOfMemory> {
    let mut list = Vec::new(alloc);
    for w in worlds {
        list.push(rank(ranks, w.n))?;
    }
    list.sort_unstable();
    list.dedup();
    Ok(list)
}

fn signature_of(alloc: Global, s: &State, w: u32, ranks: &[usize]) -> Result<Signed, OutOfMemory>
    requires { w < s.now.worlds }
{
    let mut lists = Vec::new(alloc);
    for a in 0..s.agents() {
        let successors = s.successors(alloc, AgentId { n: a }, WorldId { n: w })?;
        lists.push(ranks_of(alloc, successors.as_slice(), ranks)?)?;
    }
    Ok(Signed {
        older: rank(ranks, w),
        lists,
    })
}

fn all_signed(alloc: Global, s: &State, ranks: &[usize]) -> Result<Vec<Signed>, OutOfMemory> {
    let mut all = Vec::new(alloc);
    for w in 0..s.worlds() {
        all.push(signature_of(alloc, s, w, ranks)?)?;
    }
    Ok(all)
}

// The place of each value among the sorted ones.
fn places(alloc: Global, values: &[Signed], sorted: &[Signed]) -> Result<Vec<usize>, OutOfMemory> {
    let mut list = Vec::new(alloc);
    for value in values {
        match sorted.binary_search(value) {
            Ok(place) => list.push(place)?,
            Err(place) => list.push(place)?,
        }
    }
    Ok(list)
}

fn next_ranks(alloc: Global, s: &State, ranks: &[usize]) -> Result<Vec<usize>, OutOfMemory> {
    let mut sorted = all_signed(alloc, s, ranks)?;
    sorted.sort_unstable();
    sorted.dedup();
    let signed = all_signed(alloc, s, ranks)?;
    places(alloc, &signed, &sorted)
}

fn by_truth(alloc: Global, s: &State) -> Result<Vec<usize>, OutOfMemory>
    requires { s.now.atoms ≡ 1 }
{
    let mut ranks = Vec::new(alloc);
    for w in 0..s.worlds() {
        let holds = s.holds_atom(WorldId { n: w }, AtomId { n: 0 });
        ranks.push(usize::from(holds))?;
    }
    Ok(ranks)
}

// The plain program: it signs all worlds in as many rounds as there are worlds.
fn all_rounds(alloc: Global, s: &State) -> Result<Vec<usize>, OutOfMemory>
    requires { s.now.atoms ≡ 1 }
{
    let mut ranks = by_truth(alloc, s)?;
    for _round in 0..s.worlds() {
        ranks = next_ranks(alloc, s, &ranks)?;
    }
    Ok(ranks)
}

// The rule: of n worlds, agent 0 links w to w * w + t, agent 1 to 3 * w + t where w is not a third of n, and the atom is
// true at the multiples of t + 2.
fn rule_links(alloc: Global, t: u32, n: u32) -> Result<List<Link>, OutOfMemory>
    requires { 0 < n }
{
    let mut links = List::new(alloc);
    for w in 0..n {
        links.push(link(0, w, w.wrapping_mul(w).wrapping_add(t) % n))?;
        if w.wrapping_mul(3) < n || n < w.wrapping_mul(2) {
            links.push(link(1, w, w.wrapping_mul(3).wrapping_add(t) % n))?;
        }
    }
    Ok(links)
}

fn rule_row(alloc: Global, holds: bool) -> Result<Bits, OutOfMemory> {
    let mut row = Bits::zeros(alloc, 1)?;
    row.set(0, holds);
    Ok(row)
}

fn rule_truth(alloc: Global, t: u32, n: u32) -> Result<List<Bits>, OutOfMemory>
    requires { t < 20 }
{
    let mut truth = List::new(alloc);
    for w in 0..n {
        truth.push(rule_row(alloc, w % (t + 2) == 0)?)?;
    }
    Ok(truth)
}

fn check_ranks(rt: &impl Abort, found: &ClassList, ranks: &[usize]) {
    let numbers = found.as_slice();
    assert_eq!(rt; numbers.len(), ranks.len());
    for w in 0..numbers.len() {
        assert_eq!(rt; Some(&(numbers[w] as usize)), ranks.get(w));
    }
}

fn check_rule(rt: &impl Abort, alloc: Global, t: u32) -> Result<(), Fail>
    requires { t < 20 }
{
    let links = rule_links(alloc, t, 5 + t)?;
    let truth = rule_truth(alloc, t, 5 + t)?;
    let s = state(rt, alloc, 2, truth, links)?;
    assert!(rt; s.atoms() == 1);
    let ranks = all_rounds(alloc, &s)?;
    let found = classes(alloc, &s)?;
    check_ranks(rt, &found, &ranks);
    Ok(())
}

#[test]
fn states_by_a_rule_have_the_classes_of_the_plain_program(rt: HostRuntime) -> Result<(), Fail> {
    for t in 0..20 {
        check_rule(&rt, rt.alloc(), t)?;
    }
    Ok(())
}

fn lists_of<L: Ledger>(
    rt: &impl Abort,
    alloc: Global,
    s: &State,
    ranks: &[u32],
    blank: Blank,
) -> Result<Vec<Vec<u32>>, OutOfMemory>
    requires name { blank.name ≡ L.name }
    requires parts { blank.parts ≡ L.parts }
    requires some { 0 < L.parts }
{
    assert!(rt; s.worlds() > 0 && ranks.len() == s.worlds() as usize);
    let mut steps = Steps::<L>::new(blank);
    let signature = sign(alloc, s, WorldId { n: 0 }, ranks, &mut steps)?;
    Ok(signature.lists)
}

// World 0 is linked to all of four worlds, two of them of one rank.
#[test]
fn a_signature_lists_each_rank_once(rt: HostRuntime) -> Result<(), Fail> {
    let mut links = List::new(rt.alloc());
    for w in 0..4 {
        links.push(link(0, 0, w))?;
    }
    let s = plain_state(&rt, rt.alloc(), 4, links)?;
    let lists = lists_of::<Brand>(&rt, rt.alloc(), &s, &[7, 2, 9, 2], Blank::new(1))?;
    assert_eq!(rt; lists.len(), 1);
    assert_eq!(rt; lists[0].as_slice(), [2, 7, 9].as_slice());
    Ok(())
}
