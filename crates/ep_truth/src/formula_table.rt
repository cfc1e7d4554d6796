ghost use Rattle.std.specs.Prelude.{◌≡◌, ℕ, ◌+◌, ◌<◌, ◌≤◌, [], length, sum_by, IfSome, IfOk, OnOk, IsTrue};
ghost use Rattle.ep_logic.specs.declared.formula.Node.{Node};
ghost use Rattle.ep_logic.specs.Nodes.{node_count};
ghost use Rattle.ep_truth.specs.declared.formula_table.TheConstants.{MOST_TREES};
ghost use Rattle.ep_truth.specs.FormulaTables.{tree_at, tree_of, IsBelow, IsEntryOf, AreNumbersOf, KeepsTrees, StayFit, AllStayFit};

use ep_logic::{AgentId, Agents, AtomId, Formula, List, Node, OutOfMemory};
use std::alloc::{AllocError, Global};
use std::collections::HashMap;
use std::marker::Model;

/// The greatest number of trees of a table.
pub const MOST_TREES: u32 = 16_777_216;

// A node whose parts are given by their numbers.
#[derive(Drop)]
pub(crate) enum Entry {
    True,
    False,
    Atom(AtomId),
    Not(u32),
    And(List<u32>),
    Or(List<u32>),
    Knows(AgentId, u32),
    Common(Agents, u32),
}

/// The subformulas of formulas, numbered from 0: each stands after its parts, and formulas that share a part have one
/// number for it. Contracts see the list of their trees.
#[derive(Drop)]
pub struct FormulaTable {
    alloc: Global,
    entries: List<Entry>,
    // for the mixed numbers of an entry where it may stand, which is only a hint
    seen: HashMap<u64, u32>,
}

impl Model for FormulaTable {
    ghost use Rattle.std.specs.Prelude.{List, length, ◌≤◌};
    ghost use Rattle.std.specs.Coded.{codes};
    ghost use Rattle.ep_logic.specs.declared.formula.Node.{Node};
    ghost use Rattle.ep_logic.specs.contracts.formula.Node as e;
    ghost use Rattle.ep_truth.specs.declared.formula_table.TheConstants.{MOST_TREES};
    ghost use Rattle.ep_truth.specs.FormulaTables.{trees_of, AreOrdered};

    ghost Value = { List Node };

    ghost coded = { Prim.hlevel (codes, e.the_row.coded) };

    ghost view = { λ t. trees_of t.entries };

    ghost invariant = { λ t. AreOrdered 0 t.entries × (length t.entries ≤ MOST_TREES) };
}

impl FormulaTable {
    /// No formula yet.
    pub fn new(alloc: Global) -> FormulaTable
        ensures { result ≡ [] }
    {
        FormulaTable {
            alloc,
            entries: List::new(alloc),
            seen: HashMap::new(alloc),
        }
    }

    /// The number of trees.
    pub fn len(&self) -> u32
        ensures value { result ≡ length self.now }
        ensures few { length self.now ≤ MOST_TREES }
    {
        self.entries.as_slice().len() as u32
    }

    /// The number of the formula, which is put behind its parts where it is new. Earlier trees keep their numbers, also
    /// where memory ends.
    pub fn add(&mut self, f: &Formula) -> Result<u32, OutOfMemory>
        requires { length self.old + node_count f.now ≤ MOST_TREES }
        ensures number { IfOk result (λ n. n < length self.new) }
        ensures tree { IfOk result (λ n. tree_at self.new n ≡ f.now) }
        ensures earlier { KeepsTrees self.old self.new }
        ensures fit { OnOk result (StayFit self.old f.now self.new) }
        ensures few { length self.new ≤ length self.old + node_count f.now }
    {
        let entry = self.entry_of(f.node())?;
        let n = self.number_of(entry)?;
        Ok(n)
    }

    // The node with the numbers of its parts.
    #[cycle(entries)]
    fn entry_of(&mut self, node: &Node) -> Result<Entry, OutOfMemory>
        requires { length self.old + node_count node.now ≤ MOST_TREES }
        ensures entry { IfOk result (IsEntryOf self.new node.now) }
        ensures earlier { KeepsTrees self.old self.new }
        ensures fit { OnOk result (StayFit self.old node.now self.new) }
        ensures few { length self.new + 1 ≤ length self.old + node_count node.now }
    {
        match node {
            Node::True => Ok(Entry::True),
            Node::False => Ok(Entry::False),
            Node::Atom(p) => Ok(Entry::Atom(*p)),
            Node::Not(inner) => {
                let entry = self.entry_of(inner.get())?;
                let n = self.number_of(entry)?;
                Ok(Entry::Not(n))
            }
            Node::And(parts) => {
                let numbers = self.numbers_of(parts)?;
                Ok(Entry::And(numbers))
            }
            Node::Or(parts) => {
                let numbers = self.numbers_of(parts)?;
                Ok(Entry::Or(numbers))
            }
            Node::Knows(a, inner) => {
                let entry = self.entry_of(inner.get())?;
                let n = self.number_of(entry)?;
                Ok(Entry::Knows(*a, n))
            }
            Node::Common(group, inner) => {
                let entry = self.entry_of(inner.get())?;
                let n = self.number_of(entry)?;
                Ok(Entry::Common(*group, n))
            }
        }
    }

    #[cycle(entries)]
    fn numbers_of(&mut self, parts: &List<Node>) -> Result<List<u32>, OutOfMemory>
        requires { length self.old + sum_by node_count parts.now ≤ MOST_TREES }
        ensures numbers { IfOk result (AreNumbersOf self.new parts.now) }
        ensures earlier { KeepsTrees self.old self.new }
        ensures fit { OnOk result (AllStayFit self.old parts.now self.new) }
        ensures few { length self.new ≤ length self.old + sum_by node_count parts.now }
    {
        let mut numbers = List::new(self.alloc);
        for part in parts.as_slice() {
            let entry = self.entry_of(part)?;
            let n = self.number_of(entry)?;
            numbers.push(n)?;
        }
        Ok(numbers)
    }

    // The number of an entry, which is put at the end where it is new.
    fn number_of(&mut self, entry: Entry) -> Result<u32, OutOfMemory>
        requires below { IsBelow (length self.old) entry }
        requires room { length self.old < MOST_TREES }
        ensures number { IfOk result (λ n. n < length self.new) }
        ensures tree { IfOk result (λ n. tree_at self.new n ≡ tree_of self.old entry) }
        ensures earlier { KeepsTrees self.old self.new }
        ensures fit { OnOk result (StayFit self.old (tree_of self.old entry) self.new) }
        ensures few { length self.new ≤ length self.old + 1 }
    {
        let mixed = mix_entry(&entry);
        if let Some(n) = self.find(mixed, &entry) {
            return Ok(n);
        }
        let n = self.len();
        self.seen.insert(mixed, n).map_err(AllocError::from)?;
        self.entries.push(entry)?;
        Ok(n)
    }

    // The number of an equal entry, if it stands where the hint says.
    fn find(&self, mixed: u64, entry: &Entry) -> Option<u32>
        ensures { IfSome result (λ n. (n < length self.now) × (tree_at self.now n ≡ tree_of self.now entry.now)) }
    {
        let n = self.seen.get(&mixed).copied()?;
        if n < self.len() && is_same(self.entry(n), entry) {
            return Some(n);
        }
        None
    }

    // The entry with this number.
    pub(crate) fn entry(&self, n: u32) -> &Entry
        requires { n < length self.now }
        ensures below { IsBelow n result.now }
        ensures tree { tree_at self.now n ≡ tree_of self.now result.now }
    {
        let entries = self.entries.as_slice();
        &entries[n as usize]
    }
}

fn is_same(a: &Entry, b: &Entry) -> bool
    ensures { IsTrue result → a.now ≡ b.now }
{
    match (a, b) {
        (Entry::True, Entry::True) => true,
        (Entry::False, Entry::False) => true,
        (Entry::Atom(p), Entry::Atom(q)) => p.n == q.n,
        (Entry::Not(m), Entry::Not(n)) => *m == *n,
        (Entry::And(ms), Entry::And(ns)) => ms.as_slice() == ns.as_slice(),
        (Entry::Or(ms), Entry::Or(ns)) => ms.as_slice() == ns.as_slice(),
        (Entry::Knows(a, m), Entry::Knows(b, n)) => a.n == b.n && *m == *n,
        (Entry::Common(g, m), Entry::Common(h, n)) => *g == *h && *m == *n,
        _ => false,
    }
}

fn mix(mixed: u64, number: u64) -> u64 {
    let next = (mixed ^ number).wrapping_mul(0x9E37_79B9_7F4A_7C15);
    next ^ (next >> 32)
}

fn mix_all(first: u64, numbers: &[u32]) -> u64 {
    let mut mixed = mix(0, first);
    for number in numbers {
        mixed = mix(mixed, u64::from(*number));
    }
    mixed
}

// The agents as the bits of a number.
fn agent_bits(group: &Agents) -> u64 {
    let mut bits = 0u64;
    for a in 0..8u32 {
        if group.has(AgentId { n: a }) {
            bits |= 1 << a;
        }
    }
    bits
}

fn mix_entry(entry: &Entry) -> u64 {
    match entry {
        Entry::True => 1,
        Entry::False => 2,
        Entry::Atom(p) => mix_all(3, &[p.n]),
        Entry::Not(n) => mix_all(4, &[*n]),
        Entry::And(numbers) => mix_all(5, numbers.as_slice()),
        Entry::Or(numbers) => mix_all(6, numbers.as_slice()),
        Entry::Knows(a, n) => mix_all(7, &[a.n, *n]),
        Entry::Common(group, n) => mix_all(mix(8, agent_bits(group)), &[*n]),
    }
}
