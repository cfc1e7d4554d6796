ghost use Rattle.std.specs.Prelude.{◌≡◌, ◌≢◌, ℕ, ◌<◌, ◌↔◌, ◌≤◌, ◌^◌, ◌++◌, [], slice_index_or, None, IsTrue, IfOk, OnOk, IfErr, length, map, sum_by};
ghost use Rattle.std.specs.Ordering.{nat_cmp};
ghost use Rattle.std.specs.List.{AllByRecursion, list_all};
ghost use Rattle.ep_logic.specs.Packed.{unpacked, IsPacked};
ghost use Rattle.ep_logic.specs.Rows.{value_at};
ghost use Rattle.ep_logic.specs.declared.limits.TheConstants.{MOST_AGENTS, MOST_ATOMS};
ghost use Rattle.ep_kripke.specs.declared.limits.TheConstants.{MOST_PACKED, MOST_WORLDS};
ghost use Rattle.ep_theory.specs.Rising.{IsIn, IsRising};
ghost use Rattle.ep_theory.specs.Kripke.{Kripke, IsState, atom_at, truth_of, links_of, successors};
ghost use Rattle.ep_theory.specs.Relations.{all_pairs};
ghost use Rattle.ep_theory.specs.Equivalences.{IsEquivalence, IsS5};
ghost use Rattle.ep_theory.specs.Fits.{link_count};
ghost use Rattle.ep_kripke.specs.States.{IsBounded};
ghost use Rattle.ep_kripke.specs.RowTables.{Keeps};
ghost use Rattle.ep_kripke.specs.Interning.{IsKeyOf};
ghost use Rattle.ep_kripke.specs.Parts.{world};

use crate::build::{named_of, named_relations, relations_of, shared_truth};
use crate::interning::{
    InternedRelations, InternedState, intern_relations, key_of, truth_places, worlds_place,
};
use crate::parts::{StateError, StateParts, check};
use crate::relation::Relation;
use crate::row_set::finds;
use crate::row_table::RowTable;
use crate::rows::Rows;
use ep_logic::{AgentId, AtomId, BitTable, Bits, List, OutOfMemory, WorldId};
use std::alloc::Global;
use std::fmt;
use std::marker::Model;
use std::rc::Rc;

/// A finite Kripke state, which contracts see as plain data. It has at most 65,536 worlds, 8 agents and 256 atoms, and
/// fewer than 2^32 links. The source is van Ditmarsch, van der Hoek and Kooi, *Dynamic Epistemic Logic*, chapter 2; a
/// set of designated worlds, never empty, is this project's own.
pub struct State {
    agents: u32,
    atoms: u32,
    truth: Rc<BitTable>,
    relations: List<Relation>,
    designated: List<u32>,
    links: u64,
}

impl Drop for State {
    fn drop(self) {
        let State {
            agents: _agents,
            atoms: _atoms,
            truth: _truth,
            relations: _relations,
            designated: _designated,
            links: _links,
        } = self;
    }
}

impl fmt::Debug for State {
    fn fmt<W: fmt::Write>(&self, f: &mut fmt::Formatter<W>) -> fmt::Result {
        write!(
            f,
            "State {{ worlds: {}, agents: {} }}",
            self.worlds(),
            self.agents()
        )
    }
}

impl Model for State {
    ghost use Rattle.std.specs.Prelude.{◌≡◌};
    ghost use Rattle.ep_theory.specs.Kripke.{Kripke};

    ghost Value = { Kripke };

    ghost use Rattle.ep_kripke.specs.States.{state_of, IsKept};

    ghost view = { λ s. state_of s.agents s.atoms s.truth.value.rows s.relations s.designated };

    ghost invariant = { λ s. IsKept s.agents s.atoms s.truth.value.rows s.relations s.designated s.links × (s.truth.value.width ≡ s.atoms) };
}

impl State {
    ghost use Rattle.ep_kripke.specs.States.{state_of, HaveRows};
    ghost use Rattle.ep_base.specs.Refusals.{IsRefusal};
    ghost use Rattle.ep_kripke.specs.Parts.{fault_of, IsMadeOf};

    /// The state with these parts, each link and designated world once.
    pub fn build(alloc: Global, parts: StateParts) -> Result<State, StateError>
        requires agents { parts.agents ≤ MOST_AGENTS }
        requires atoms { parts.atoms ≤ MOST_ATOMS }
        requires truth { length parts.truth ≤ MOST_WORLDS }
        requires links { length parts.links < 2 ^ 32 }
        requires designated { length parts.designated < 2 ^ 32 }
        ensures made { IfOk result (IsMadeOf parts) }
        ensures valid { IfOk result IsState }
        ensures bounded { IfOk result IsBounded }
        ensures ok { OnOk result (fault_of parts ≡ None) }
        ensures err { IfErr result (IsRefusal StateError.OutOfMemory (fault_of parts)) }
    {
        check(&parts)?;
        let StateParts {
            agents,
            atoms,
            truth,
            links,
            designated,
        } = parts;
        let worlds = truth.as_slice().len() as u32;
        let relations = relations_of(alloc, agents, worlds, links.as_slice())?;
        let designated = named_of(alloc, designated.as_slice())?;
        let truth = shared_truth(alloc, atoms, truth.as_slice())?;
        Ok(State::from_relations(agents, atoms, truth, relations, designated))
    }

    /// The state with these rows: for each agent, for each world, its successors in rising order. It sorts nothing:
    /// this project's own addition, for states that are made from states.
    pub fn from_rows(
        alloc: Global,
        agents: u32,
        atoms: u32,
        truth: List<Bits>,
        relations: List<Rows>,
        designated: List<u32>,
    ) -> Result<State, OutOfMemory>
        requires rows { HaveRows (length truth) relations }
        requires valid { IsState (state_of agents atoms truth relations designated) }
        requires bounded { IsBounded (state_of agents atoms truth relations designated) }
        ensures { IfOk result (λ s. s ≡ state_of agents atoms truth relations designated) }
    {
        let worlds = truth.as_slice().len() as u32;
        let named = named_relations(alloc, worlds, relations.as_slice())?;
        let truth = shared_truth(alloc, atoms, truth.as_slice())?;
        Ok(State::from_relations(agents, atoms, truth, named, designated))
    }

    /// The state with these truth values and links. It takes no memory: this project's own addition, for states that
    /// are made from states.
    pub fn from_relations(
        agents: u32,
        atoms: u32,
        truth: Rc<BitTable>,
        relations: List<Relation>,
        designated: List<u32>,
    ) -> State
        requires width { truth.value.width ≡ atoms }
        requires rows { HaveRows (length truth.value.rows) relations }
        requires valid { IsState (state_of agents atoms truth.value.rows relations designated) }
        requires bounded { IsBounded (state_of agents atoms truth.value.rows relations designated) }
        ensures { result ≡ state_of agents atoms truth.value.rows relations designated }
    {
        let links = total_of(relations.as_slice());
        State {
            agents,
            atoms,
            truth,
            relations,
            designated,
            links,
        }
    }

    /// The same state with other designated worlds.
    pub fn designating(self, designated: List<u32>) -> State
        requires rising { IsRising nat_cmp designated }
        requires within { AllByRecursion (λ w. w < self.worlds) designated }
        requires some { designated ≢ [] }
        ensures { result ≡ record self { designated = designated } }
    {
        let State {
            agents,
            atoms,
            truth,
            relations,
            designated: _designated,
            links,
        } = self;
        State {
            agents,
            atoms,
            truth,
            relations,
            designated,
            links,
        }
    }

    /// What is known of every state. It does nothing: a proof calls it where the code asks nothing of the state.
    pub fn known(&self)
        ensures valid { IsState self.now }
        ensures bounded { IsBounded self.now }
    {
        let _agents = self.agents;
    }

    pub fn worlds(&self) -> u32
        ensures value { result ≡ self.now.worlds }
        ensures valid { IsState self.now }
        ensures bounded { IsBounded self.now }
    {
        self.truth.len()
    }

    pub fn agents(&self) -> u32
        ensures value { result ≡ self.now.agents }
        ensures valid { IsState self.now }
        ensures bounded { IsBounded self.now }
    {
        self.agents
    }

    pub fn atoms(&self) -> u32
        ensures value { result ≡ self.now.atoms }
        ensures valid { IsState self.now }
        ensures bounded { IsBounded self.now }
    {
        self.atoms
    }

    /// The number of links of all agents.
    pub fn links(&self) -> u64
        ensures value { result ≡ link_count self.now }
        ensures valid { IsState self.now }
        ensures bounded { IsBounded self.now }
    {
        self.links
    }

    pub fn holds_atom(&self, w: WorldId, p: AtomId) -> bool
        requires world { w.n < self.now.worlds }
        requires atom { p.n < self.now.atoms }
        ensures value { result ≡ atom_at self.now w.n p.n }
        ensures valid { IsState self.now }
        ensures bounded { IsBounded self.now }
    {
        self.truth.get(w.n, p.n)
    }

    /// The truth values of a world in words of 64 bits: this project's own addition.
    pub fn truth_words(&self, w: WorldId) -> &[u64]
        requires world { w.n < self.now.worlds }
        ensures packed { IsPacked result.now self.now.atoms }
        ensures value { unpacked result.now self.now.atoms ≡ truth_of self.now w.n }
        ensures valid { IsState self.now }
        ensures bounded { IsBounded self.now }
    {
        self.truth.row(w.n)
    }

    /// The agent's links: this project's own addition.
    pub fn relation(&self, a: AgentId) -> &Relation
        requires agent { a.n < self.now.agents }
        ensures rows { length result.now ≡ self.now.worlds }
        ensures pairs { all_pairs result.now ≡ links_of self.now a.n }
        ensures each { (w : ℕ) → w < self.now.worlds →
            slice_index_or result.now w [] ≡ successors (links_of self.now a.n) w }
        ensures valid { IsState self.now }
        ensures bounded { IsBounded self.now }
    {
        let relations = self.relations.as_slice();
        &relations[a.n as usize]
    }

    /// Puts the worlds to which the agent links the world at the end, in rising order: this project's own addition.
    pub fn put_targets(&self, a: AgentId, w: WorldId, out: &mut Vec<u32>) -> Result<(), OutOfMemory>
        requires agent { a.n < self.now.agents }
        requires world { w.n < self.now.worlds }
        ensures value { OnOk result (out.new.items ≡ out.old.items ++ successors (links_of self.now a.n) w.n) }
        ensures valid { IsState self.now }
        ensures bounded { IsBounded self.now }
    {
        self.relation(a).put_row(w.n, out)
    }

    /// Puts the worlds to which the agent links the world in place of what was there: this project's own addition.
    pub fn read_targets(
        &self,
        a: AgentId,
        w: WorldId,
        out: &mut Vec<u32>,
    ) -> Result<(), OutOfMemory>
        requires agent { a.n < self.now.agents }
        requires world { w.n < self.now.worlds }
        ensures value { OnOk result (out.new.items ≡ successors (links_of self.now a.n) w.n) }
        ensures valid { IsState self.now }
        ensures bounded { IsBounded self.now }
    {
        out.clear();
        self.put_targets(a, w, out)
    }

    /// Whether the set is true at each world to which the agent links the world: this project's own addition.
    pub fn links_within(&self, a: AgentId, w: WorldId, set: &Bits) -> bool
        requires agent { a.n < self.now.agents }
        requires world { w.n < self.now.worlds }
        ensures value { result ≡ list_all (value_at set.now) (successors (links_of self.now a.n) w.n) }
        ensures valid { IsState self.now }
        ensures bounded { IsBounded self.now }
    {
        self.relation(a).within(w.n, set)
    }

    /// Whether the agent links `w` to `v`.
    pub fn linked(&self, a: AgentId, w: WorldId, v: WorldId) -> bool
        requires agent { a.n < self.now.agents }
        requires world { w.n < self.now.worlds }
        ensures value { IsTrue result ↔ IsIn (w.n, v.n) (links_of self.now a.n) }
        ensures valid { IsState self.now }
        ensures bounded { IsBounded self.now }
    {
        self.relation(a).has(w.n, v.n)
    }

    /// The worlds to which the agent links the world, in rising order.
    pub fn successors(
        &self,
        alloc: Global,
        a: AgentId,
        w: WorldId,
    ) -> Result<List<WorldId>, OutOfMemory>
        requires agent { a.n < self.now.agents }
        requires world { w.n < self.now.worlds }
        ensures value { IfOk result (λ vs. vs ≡ map world (successors (links_of self.now a.n) w.n)) }
        ensures valid { IsState self.now }
        ensures bounded { IsBounded self.now }
    {
        let mut targets = Vec::new(alloc);
        self.put_targets(a, w, &mut targets)?;
        Ok(List::from_vec(world_ids(alloc, &targets)?))
    }

    /// Whether an agent's links are an equivalence of the worlds. It takes no memory.
    pub fn is_equivalence(&self, a: AgentId) -> bool
        requires agent { a.n < self.now.agents }
        ensures value { IsTrue result ↔ IsEquivalence self.now.worlds (links_of self.now a.n) }
        ensures valid { IsState self.now }
        ensures bounded { IsBounded self.now }
    {
        self.relation(a).is_equivalence()
    }

    /// Whether the links of every agent are an equivalence of the worlds. It takes no memory.
    pub fn is_s5(&self) -> bool
        ensures value { IsTrue result ↔ IsS5 self.now }
        ensures valid { IsState self.now }
        ensures bounded { IsBounded self.now }
    {
        for a in 0..self.agents() {
            if !self.is_equivalence(AgentId { n: a }) {
                return false;
            }
        }
        true
    }

    /// The designated worlds, in rising order: this project's own addition.
    pub fn designated(&self) -> &[u32]
        ensures value { result.now ≡ self.now.designated }
        ensures valid { IsState self.now }
        ensures bounded { IsBounded self.now }
    {
        self.designated.as_slice()
    }

    pub fn is_designated(&self, w: WorldId) -> bool
        ensures value { IsTrue result ↔ IsIn w.n self.now.designated }
        ensures valid { IsState self.now }
        ensures bounded { IsBounded self.now }
    {
        finds(self.designated(), w.n)
    }

    /// The same state made of the rows of a table, with the places that its rows have there. A refusal may leave new rows
    /// in the table.
    pub fn intern(&self, alloc: Global, table: &mut RowTable) -> Result<InternedState, OutOfMemory>
        requires few { self.now.worlds ≤ MOST_PACKED }
        ensures state { IfOk result (λ i. i.state ≡ self.now) }
        ensures key { IfOk result (λ i. IsKeyOf table.new self.now i.key) }
        ensures kept { Keeps table.old table.new }
    {
        let worlds = self.worlds();
        let truth_rows = truth_places(alloc, &self.truth, table)?;
        let InternedRelations { relations, places } = intern_relations(
            alloc,
            worlds,
            self.relations.as_slice(),
            table,
        )?;
        let last = worlds_place(alloc, worlds, self.designated(), table)?;
        let numbers = [worlds as usize, self.agents as usize, self.atoms as usize];
        let key = key_of(alloc, &numbers, &truth_rows, &places, last)?;
        let truth = self.truth.clone()?;
        let designated = Vec::from_slice(alloc, self.designated())?;
        let designated = List::from_vec(designated);
        let state = State::from_relations(self.agents, self.atoms, truth, relations, designated);
        Ok(InternedState { state, key })
    }

    pub fn copy(&self, alloc: Global) -> Result<State, OutOfMemory>
        ensures { IfOk result (λ s. s ≡ self.now) }
    {
        let truth = self.truth.clone()?;
        let relations = copied_relations(alloc, self.relations.as_slice())?;
        let designated = Vec::from_slice(alloc, self.designated.as_slice())?;
        Ok(State {
            agents: self.agents,
            atoms: self.atoms,
            truth,
            relations,
            designated: List::from_vec(designated),
            links: self.links,
        })
    }
}

// The number of links of all agents.
fn total_of(relations: &[Relation]) -> u64
    requires { sum_by (sum_by length) relations.now < 2 ^ 64 }
    ensures { result ≡ sum_by (sum_by length) relations.now }
{
    relations.iter().map(|relation| relation.total()).sum()
}

fn world_ids(alloc: Global, numbers: &[u32]) -> Result<Vec<WorldId>, OutOfMemory>
    ensures { IfOk result (λ vs. vs.items ≡ map world numbers.now) }
{
    Ok(numbers.iter().map(|n| WorldId { n: *n }).collect(alloc)?)
}

fn copied_relations(alloc: Global, relations: &[Relation]) -> Result<List<Relation>, OutOfMemory>
    ensures { IfOk result (λ all. all ≡ relations.now) }
{
    let mut all = List::new(alloc);
    for relation in relations {
        all.push(relation.share()?)?;
    }
    Ok(all)
}
