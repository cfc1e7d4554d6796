//! The initial state of a task, of either form.

ghost use Rattle.std.specs.Prelude.{◌≡◌, ◌≤◌, [], IfErr, IfOk, None, OnOk, length, unwrap_or};
ghost use Rattle.ep_base.specs.Refusals.{Reports};
ghost use Rattle.ep_logic.specs.declared.limits.TheConstants.{MOST_INITIAL_WORLDS};
ghost use Rattle.ep_universe.specs.Sizes.{AreBuildable};
ghost use Rattle.ep_initial.specs.Explicit as spec;
ghost use Rattle.ep_initial.specs.Explicit.{IsBuildableState};
ghost use Rattle.ep_initial.specs.Faults.{explicit_fault};
ghost use Rattle.ep_initial.specs.Initial.{init_fault, init_formulas, initial_of};

use crate::explicit::{check_worlds, explicit_state};
use crate::fault::InitialError;
use crate::lawful::{LawfulForm, lawful_state};
use ep_kripke::State;
use ep_logic::List;
use ep_tree::{AtomTree, InitTree, WorldTree};
use ep_universe::links::Ends;
use ep_universe::universe::Universe;
use std::alloc::Global;

/// The initial state of a task whose formulas there can be built. An error tells the first fault of its form, or that there
/// is no memory.
pub fn initial_state(alloc: Global, universe: &Universe) -> Result<State, InitialError>
    requires { AreBuildable universe.now.names (init_formulas universe.now.tree.init) }
    ensures value { IfOk result (λ state. state ≡ initial_of universe.now.names universe.now.tree.init) }
    ensures sound { OnOk result (init_fault universe.now.names universe.now.tree.init ≡ None) }
    ensures err { IfErr result (Reports InitialError.OutOfMemory (init_fault universe.now.names universe.now.tree.init)) }
{
    match &universe.tree().init {
        InitTree::Explicit {
            worlds,
            designated,
            links,
        } => {
            let ends = Ends {
                designated: designated.as_slice(),
                links: links.as_slice(),
            };
            build_explicit(alloc, universe, worlds.as_slice(), &ends)
        }
        InitTree::Lawful {
            vary,
            facts,
            law,
            sees,
            designated,
        } => {
            let form = LawfulForm {
                vary: vary.as_slice(),
                facts: facts_or_none(facts),
                law,
                sees: sees.as_slice(),
                designated,
            };
            lawful_state(alloc, universe, &form)
        }
    }
}

/// The state of the explicit form, where it has few enough worlds.
fn build_explicit(
    alloc: Global,
    universe: &Universe,
    worlds: &[WorldTree],
    ends: &Ends,
) -> Result<State, InitialError>
    requires { length worlds.now ≤ MOST_INITIAL_WORLDS → IsBuildableState worlds.now ends.now.designated.now ends.now.links.now }
    ensures value { IfOk result (λ state. state ≡ spec.explicit_state universe.now.names worlds.now ends.now.designated.now ends.now.links.now) }
    ensures sound { OnOk result (explicit_fault worlds.now ≡ None) }
    ensures err { IfErr result (Reports InitialError.OutOfMemory (explicit_fault worlds.now)) }
{
    check_worlds(worlds)?;
    Ok(explicit_state(alloc, universe, worlds, ends)?)
}

/// The facts, or none where the part is left out.
fn facts_or_none(facts: &Option<List<AtomTree>>) -> &[AtomTree]
    ensures { result.now ≡ unwrap_or facts.now [] }
{
    match facts {
        Some(facts) => facts.as_slice(),
        None => &[],
    }
}
