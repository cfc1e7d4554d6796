// Canonical states and contraction.

ghost use Rattle.std.specs.Prelude.{◌≡◌, ℕ, ◌≤◌, ◌↔◌, slice_index_or, None, Some, IfErr, IfOk, IsTrue};
ghost use Rattle.ep_canon.specs.declared.limits.TheConstants.{MOST_CONTRACTED_WORLDS};
ghost use Rattle.ep_logic.specs.declared.formula.Node.{Node};
ghost use Rattle.ep_theory.specs.Rising.{IsIn};
ghost use Rattle.ep_theory.specs.Kripke.{Kripke, IsState};
ghost use Rattle.ep_theory.specs.Truth.{Truth, Satisfies};
ghost use Rattle.ep_theory.specs.Bisimulation.{Bisimilar};
ghost use Rattle.ep_theory.specs.Canonical.{IsCanonical, Reached, Contracts};
ghost use Rattle.ep_theory.specs.Maps.{Maps};
ghost use Rattle.ep_bytes.specs.Bytes.{bytes_of};
ghost use Rattle.ep_canon.specs.Canon.{HasBytes, IsRefused, IsSmall};

use crate::contracting::{Contracted, contract_reached, map_of};
use crate::error::CanonError;
use crate::limits::MOST_CONTRACTED_WORLDS;
use ep_bytes::{read_state, write_state};
use ep_kripke::State;
use ep_logic::{List, OutOfMemory};
use ep_refine::reachable;
use std::alloc::Global;
use std::marker::Model;

/// A canonical state of at most 4,096 worlds.
#[derive(Debug)]
pub struct Canon {
    state: State,
}

impl Drop for Canon {
    fn drop(self) {
        let Canon { state: _state } = self;
    }
}

impl Model for Canon {
    ghost use Rattle.std.specs.Prelude.{◌≤◌};
    ghost use Rattle.ep_theory.specs.Kripke.{Kripke};
    ghost use Rattle.ep_theory.specs.Canonical.{IsCanonical};
    ghost use Rattle.ep_canon.specs.declared.limits.TheConstants.{MOST_CONTRACTED_WORLDS};

    ghost Value = { Kripke };

    ghost view = { λ c. c.state };

    ghost invariant = { λ c. IsCanonical c.state × (c.state.worlds ≤ MOST_CONTRACTED_WORLDS) };
}

impl Canon {
    pub fn state(&self) -> &State
        ensures value { result.now ≡ self.now }
        ensures canonical { IsCanonical self.now }
        ensures small { self.now.worlds ≤ MOST_CONTRACTED_WORLDS }
    {
        &self.state
    }

    /// The canonical bytes of the state, as `write_state` of `ep_bytes` gives them.
    pub fn bytes(&self, alloc: Global) -> Result<List<u8>, OutOfMemory>
        ensures value { IfOk result (λ bytes. bytes ≡ bytes_of self.now) }
        ensures valid { IsState self.now }
        ensures canonical { IsCanonical self.now }
        ensures small { IsSmall self.now }
    {
        write_state(alloc, &self.state)
    }

    /// The canonical state that has these bytes. Bytes from anywhere may be given: the memory that is taken is a
    /// small multiple of their number and of the number of worlds.
    pub fn read(alloc: Global, bytes: &[u8]) -> Result<Canon, CanonError>
        ensures ok { IfOk result (HasBytes bytes.now) }
        ensures only { IfOk result (λ c. (D : Kripke) → HasBytes bytes.now D → D ≡ c) }
        ensures refused { IfErr result (IsRefused bytes.now) }
    {
        let state = read_state(alloc, bytes, MOST_CONTRACTED_WORLDS)?;
        let canon = contract(alloc, &state)?;
        if canon.bytes(alloc)?.as_slice() != bytes {
            return Err(CanonError::NotCanonical);
        }
        Ok(canon)
    }

    pub fn copy(&self, alloc: Global) -> Result<Canon, OutOfMemory>
        ensures { IfOk result (λ c. c ≡ self.now) }
    {
        Ok(Canon {
            state: self.state.copy(alloc)?,
        })
    }
}

/// The contraction of the state: the one canonical state that is bisimilar to it.
pub fn contract(alloc: Global, s: &State) -> Result<Canon, OutOfMemory>
    requires { s.now.worlds ≤ MOST_CONTRACTED_WORLDS }
    ensures contraction { IfOk result (Contracts s.now) }
    ensures valid { IfOk result IsState }

    // No other canonical state is bisimilar to it.
    ensures only { IfOk result (λ c. (D : Kripke) → Contracts s.now D → D ≡ c) }
    ensures idempotent { IfOk result (λ c. IsCanonical s.now → c ≡ s.now) }

    // The same formulas are true at all, and at some, designated worlds.
    ensures all { IfOk result (λ c. (f : Node) → Satisfies s.now f ↔ Satisfies c f) }
    ensures some { IfOk result (λ c. (f : Node) →
        ((w : ℕ) × IsIn w s.now.designated × Truth s.now w f) ↔ ((v : ℕ) × IsIn v c.designated × Truth c v f)) }
{
    let reached = reachable(alloc, s)?;
    let contracted = contract_reached(alloc, s, &reached)?;
    let Contracted {
        state,
        classes: _classes,
    } = contracted;
    Ok(Canon { state })
}

/// The contraction of a state, and for each world of the state the world of the contraction that it goes to.
#[derive(Debug, Drop)]
pub struct Mapped {
    pub canon: Canon,
    pub map: List<Option<u32>>,
}

/// The contraction of the state, and where its worlds go: each world that is reached to the world that is bisimilar to
/// it, and the others nowhere.
pub fn contract_map(alloc: Global, s: &State) -> Result<Mapped, OutOfMemory>
    requires { s.now.worlds ≤ MOST_CONTRACTED_WORLDS }
    ensures contraction { IfOk result (λ m. Contracts s.now m.canon) }
    ensures valid { IfOk result (λ m. IsState m.canon) }

    // No other canonical state is bisimilar to it.
    ensures only { IfOk result (λ m. (D : Kripke) → Contracts s.now D → D ≡ m.canon) }
    ensures idempotent { IfOk result (λ m. IsCanonical s.now → m.canon ≡ s.now) }

    // The same formulas are true at all, and at some, designated worlds.
    ensures all { IfOk result (λ m. (f : Node) → Satisfies s.now f ↔ Satisfies m.canon f) }
    ensures some { IfOk result (λ m. (f : Node) →
        ((w : ℕ) × IsIn w s.now.designated × Truth s.now w f) ↔ ((v : ℕ) × IsIn v m.canon.designated × Truth m.canon v f)) }

    // The worlds that are reached go somewhere, and no others do.
    ensures reached { IfOk result (λ m. (w : ℕ) → ((v : ℕ) × (slice_index_or m.map w None ≡ Some v)) ↔ Reached s.now w) }
    ensures maps { IfOk result (λ m. Maps s.now m.canon m.map) }
{
    let reached = reachable(alloc, s)?;
    let contracted = contract_reached(alloc, s, &reached)?;
    let Contracted { state, classes } = contracted;
    let map = map_of(alloc, &reached, classes.as_slice())?;
    let canon = Canon { state };
    Ok(Mapped { canon, map })
}

/// Whether the states are bisimilar. Their numbers of agents and of atoms may differ.
pub fn same(alloc: Global, s: &State, t: &State) -> Result<bool, OutOfMemory>
    requires first { s.now.worlds ≤ MOST_CONTRACTED_WORLDS }
    requires second { t.now.worlds ≤ MOST_CONTRACTED_WORLDS }
    ensures { IfOk result (λ b. IsTrue b ↔ Bisimilar s.now t.now) }
{
    let first = contract(alloc, s)?;
    let second = contract(alloc, t)?;
    let first_bytes = first.bytes(alloc)?;
    let second_bytes = second.bytes(alloc)?;
    Ok(first_bytes.as_slice() == second_bytes.as_slice())
}
