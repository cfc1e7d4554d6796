//! What the names of a typed task stand for.

ghost use Rattle.ep_tree.specs.Grammar.{IsRead};
ghost use Rattle.std.specs.Prelude.{◌≡◌, ◌<◌, ◌≤◌, ◌==◌, false, true, drop, IfErr, IfOk, IfSome, IsTrue, None, OnOk, length, map, position};
ghost use Rattle.ep_base.specs.Refusals.{Reports};
ghost use Rattle.ep_binding.specs.Laminar.{IsLaminar};
ghost use Rattle.ep_logic.specs.declared.limits.TheConstants.{MOST_AGENTS, MOST_ATOMS};
ghost use Rattle.ep_logic.specs.AgentSets.{is_nobody};
ghost use Rattle.ep_logic.specs.Numbers.{has_number};
ghost use Rattle.ep_types.specs.Names.{names_of};
ghost use Rattle.ep_types.specs.Tasks.{HasNoFault, declarations};
ghost use Rattle.ep_universe.specs.Atoms.{atom_at, atoms_of};
ghost use Rattle.ep_universe.specs.Links.{agent_count};
ghost use Rattle.ep_universe.specs.Objects as spec;
ghost use Rattle.ep_universe.specs.PrintedNames as printed;
ghost use Rattle.ep_universe.specs.Sizes.{has_member};
ghost use Rattle.ep_universe.specs.Universe.{AreItems, HasFewNames, IsUniverse, named, universe_fault};

use crate::atoms::{GroundAtom, find_atom, ground_atom};
use crate::items::{Items, items_of};
use crate::names::Names;
use crate::objects::{Bound, candidates, object_at};
use crate::universe_error::UniverseError;
use ep_logic::{AgentId, Agents, AtomId, List, OutOfMemory, Text};
use ep_tree::{AtomTree, GroupTree, Name, ParamTree, TaskTree};
use ep_types::Typed;
use std::alloc::Global;
use std::marker::Model;

/// What the names of a task stand for. The task was read and has no fault, and is within the limits on objects, agents and
/// ground atoms. Contracts see its tree, with the names that it declares.
pub struct Universe {
    typed: Typed,
    agents: List<u32>,
    atoms: List<GroundAtom>,
    names: Names,
}

impl Drop for Universe {
    fn drop(self) {
        let Universe {
            typed: _typed,
            agents: _agents,
            atoms: _atoms,
            names: _names,
        } = self;
    }
}

impl Model for Universe {
    ghost use Rattle.ep_tree.specs.contracts.tree.TaskTree as trees;
    ghost use Rattle.std.specs.Coded.{codes};
    ghost use Rattle.ep_types.specs.Tasks.{declarations};
    ghost use Rattle.ep_universe.specs.Universe.{AreItems, IsUniverse, NamedTask, named};

    ghost Value = { NamedTask };

    ghost coded = { Prim.hlevel (codes, trees.the_row.coded) };

    ghost view = { λ u. named u.typed };

    ghost invariant = { λ u. IsUniverse (named u.typed) × AreItems (declarations u.typed) u.agents u.atoms u.names };
}

/// The place of an object among others.
fn find_object(objects: &[u32], object: u32) -> Option<usize>
    ensures place { result ≡ position (λ x. x == object) objects.now }
    ensures small { IfSome result (λ place. place < length objects.now) }
{
    objects.iter().position(|x| *x == object)
}

// Frees a typed task. Its many parts are freed in a function of its own, so that the proof of `Universe::new` has none of
// them.
fn discard(_typed: Typed) {}

impl Universe {
    /// The universe of a task, or the first limit that it breaks.
    pub fn new(alloc: Global, typed: Typed) -> Result<Universe, UniverseError>
        ensures task { IfOk result (λ universe. universe ≡ named typed) }
        ensures allowed { OnOk result (universe_fault (declarations typed) ≡ None) }
        ensures refused { IfErr result (Reports UniverseError.OutOfMemory (universe_fault (declarations typed))) }
    {
        match items_of(alloc, &typed) {
            Ok(items) => Ok(Universe::from_items(typed, items)),
            Err(error) => {
                discard(typed);
                Err(error)
            }
        }
    }

    fn from_items(typed: Typed, items: Items) -> Universe
        requires items { AreItems (declarations typed) items.agents items.atoms items.names }
        requires few { HasFewNames (declarations typed) }
        requires typed { HasNoFault typed }
        requires read { IsRead typed }
        ensures { result ≡ named typed }
    {
        let Items {
            agents,
            atoms,
            names,
        } = items;
        Universe {
            typed,
            agents,
            atoms,
            names,
        }
    }

    /// What is known of every universe. It does nothing: a proof calls it where the code asks nothing of the universe.
    pub fn known(&self)
        ensures { IsUniverse self.now }
    {
        let _typed = &self.typed;
    }

    /// The task.
    pub fn typed(&self) -> &Typed
        ensures tree { result.now ≡ self.now.tree }
        ensures names { declarations result.now ≡ self.now.names }
        ensures known { IsUniverse self.now }
    {
        &self.typed
    }

    /// The tree of the task.
    pub fn tree(&self) -> &TaskTree
        ensures tree { result.now ≡ self.now.tree }
        ensures known { IsUniverse self.now }
    {
        self.typed.tree()
    }

    /// The number of agents.
    pub fn agents(&self) -> u32
        ensures value { result ≡ agent_count self.now.names }
        ensures few { result ≤ MOST_AGENTS }
        ensures known { IsUniverse self.now }
    {
        self.agents.as_slice().len() as u32
    }

    /// The number of objects.
    pub fn objects(&self) -> u32
        ensures value { result ≡ length self.now.names.objects }
        ensures known { IsUniverse self.now }
    {
        self.typed.object_count() as u32
    }

    /// The number of ground atoms.
    pub fn atoms(&self) -> u32
        ensures value { result ≡ length (atoms_of self.now.names) }
        ensures few { result ≤ MOST_ATOMS }
        ensures known { IsUniverse self.now }
    {
        self.atoms.as_slice().len() as u32
    }

    /// The names of the objects, in order of declaration.
    pub fn object_names(&self) -> &[Text]
        ensures value { result.now ≡ names_of self.now.names.objects }
        ensures known { IsUniverse self.now }
    {
        self.names.objects.as_slice()
    }

    /// The names of the agents.
    pub fn agent_names(&self) -> &[Text]
        ensures { result.now ≡ printed.agent_names self.now.names }
    {
        self.names.agents.as_slice()
    }

    /// The printed names of the ground atoms.
    pub fn atom_names(&self) -> &[Text]
        ensures { result.now ≡ printed.atom_names self.now.names }
    {
        self.names.atoms.as_slice()
    }

    /// The objects to which each parameter may be bound.
    pub fn candidates(
        &self,
        alloc: Global,
        params: &[ParamTree],
    ) -> Result<List<List<u32>>, OutOfMemory>
        ensures value { IfOk result (λ lists. lists ≡ spec.candidates self.now.names params.now) }
        ensures laminar { IfOk result IsLaminar }
    {
        candidates(alloc, &self.typed, params)
    }

    /// The object for which a name stands, where it is the name of one.
    pub fn object_at(&self, binding: &[Bound], name: &Name) -> u32
        ensures { result ≡ spec.object_at self.now.names binding.now name.now.text }
    {
        object_at(&self.typed, binding, name.text.as_slice())
    }

    /// The agent for which a name stands, where it is the name of one.
    pub fn agent_at(&self, binding: &[Bound], name: &Name) -> AgentId
        ensures value { result.n ≡ spec.agent_at self.now.names binding.now name.now }
        ensures small { result.n < MOST_AGENTS }
    {
        let object = object_at(&self.typed, binding, name.text.as_slice());
        match find_object(self.agents.as_slice(), object) {
            Some(n) => AgentId { n: n as u32 },
            None => AgentId { n: 0 },
        }
    }

    /// The agents of a list.
    fn members(&self, binding: &[Bound], names: &[Name]) -> Agents
        ensures { result ≡ spec.eight (has_number (map (spec.agent_at self.now.names binding.now) names.now)) }
    {
        let mut members = Agents::none();
        for name in names {
            members = members.with(self.agent_at(binding, name));
        }
        members
    }

    /// The agents of a group.
    pub fn group_of(&self, binding: &[Bound], group: &GroupTree) -> Agents
        ensures value { result ≡ spec.group_of self.now.names binding.now group.now }
        ensures some { IsTrue (has_member group.now) → is_nobody result ≡ false }
        ensures within { is_nobody (drop (length (spec.agents_of self.now.names)) result) ≡ true }
    {
        match group {
            GroupTree::All { .. } => Agents::first(self.agents.as_slice().len() as u32),
            GroupTree::Members { names, .. } => self.members(binding, names.as_slice()),
        }
    }

    /// The ground atom that an atom becomes, where it is one.
    pub fn atom_at(
        &self,
        alloc: Global,
        binding: &[Bound],
        atom: &AtomTree,
    ) -> Result<AtomId, OutOfMemory>
        ensures { IfOk result (λ id. id.n ≡ atom_at self.now.names binding.now atom.now) }
    {
        let wanted = ground_atom(alloc, &self.typed, binding, atom)?;
        let place = find_atom(self.atoms.as_slice(), &wanted).unwrap_or(0);
        Ok(AtomId { n: place as u32 })
    }
}
