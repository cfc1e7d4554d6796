//! The agents, the ground atoms and the names of a task, within their limits.

ghost use Rattle.std.specs.Prelude.{◌≡◌, ◌≤◌, ◌∷◌, [], IfOk, length, nat_eq};
ghost use Rattle.ep_base.specs.Refusals.{IsJudged, above, first_some, told, when};
ghost use Rattle.ep_binding.specs.declared.limits.TheConstants.{MOST_OBJECTS};
ghost use Rattle.ep_lex.specs.declared.limits.TheConstants.{MOST_TOKENS};
ghost use Rattle.ep_logic.specs.declared.limits.TheConstants.{MOST_AGENTS, MOST_ATOMS};
ghost use Rattle.ep_tree.specs.Grammar.{IsRead};
ghost use Rattle.ep_types.specs.Tasks.{HasNoFault, declarations};
ghost use Rattle.ep_universe.specs.Atoms as spec;
ghost use Rattle.ep_universe.specs.Objects.{agents_of};
ghost use Rattle.ep_universe.specs.Universe.{AreItems, HasFewNames, universe_fault};
ghost use Rattle.ep_universe.specs.declared.universe_error.UniverseError.TheVariants.{NoAgent, TooManyAgents, TooManyAtoms, TooManyObjects};

use crate::atoms::{GroundAtom, atom_count, atoms_of};
use crate::names::{Names, names_of_task};
use crate::objects::objects_of;
use crate::universe_error::UniverseError;
use ep_binding::MOST_OBJECTS;
use ep_logic::{List, MOST_AGENTS, MOST_ATOMS};
use ep_types::Typed;
use std::alloc::Global;

/// What a universe is made of beside its task: the objects that are agents, the ground atoms, and the names.
#[derive(Drop)]
pub(crate) struct Items {
    pub agents: List<u32>,
    pub atoms: List<GroundAtom>,
    pub names: Names,
}

fn check_objects(typed: &Typed) -> Result<(), UniverseError>
    ensures { result ≡ told (above MOST_OBJECTS TooManyObjects (length (declarations typed.now).objects)) }
{
    let count = typed.object_count();
    if count > MOST_OBJECTS {
        return Err(UniverseError::TooManyObjects {
            count: count as u64,
        });
    }
    Ok(())
}

fn check_agents(count: usize) -> Result<(), UniverseError>
    ensures { result ≡ told (first_some (when (nat_eq count 0) NoAgent ∷ above MOST_AGENTS TooManyAgents count ∷ [])) }
{
    if count == 0 {
        return Err(UniverseError::NoAgent);
    }
    if count > MOST_AGENTS {
        return Err(UniverseError::TooManyAgents {
            count: count as u64,
        });
    }
    Ok(())
}

/// The objects that are agents, where there are some and not too many.
fn find_agents(alloc: Global, typed: &Typed) -> Result<List<u32>, UniverseError>
    requires { length (declarations typed.now).objects ≤ MOST_OBJECTS }
    ensures agents { IfOk result (λ agents. agents ≡ agents_of (declarations typed.now)) }
    ensures judged { IsJudged UniverseError.OutOfMemory (first_some (when (nat_eq (length (agents_of (declarations typed.now))) 0) NoAgent ∷ above MOST_AGENTS TooManyAgents (length (agents_of (declarations typed.now))) ∷ [])) result }
{
    let agents = objects_of(alloc, typed, b"agent")?;
    check_agents(agents.as_slice().len())?;
    Ok(agents)
}

/// The ground atoms, counted before they are made.
fn make_atoms(alloc: Global, typed: &Typed) -> Result<List<GroundAtom>, UniverseError>
    requires objects { length (declarations typed.now).objects ≤ MOST_OBJECTS }
    requires fluents { length typed.now.fluents ≤ MOST_TOKENS }
    ensures atoms { IfOk result (λ atoms. atoms ≡ spec.atoms_of (declarations typed.now)) }
    ensures judged { IsJudged UniverseError.OutOfMemory (above MOST_ATOMS TooManyAtoms (length (spec.atoms_of (declarations typed.now)))) result }
{
    let count = atom_count(alloc, typed)?;
    if count > MOST_ATOMS {
        return Err(UniverseError::TooManyAtoms { count });
    }
    Ok(atoms_of(alloc, typed)?)
}

fn items_within(alloc: Global, typed: &Typed) -> Result<Items, UniverseError>
    requires { length typed.now.fluents ≤ MOST_TOKENS }
    ensures items { IfOk result (λ items. AreItems (declarations typed.now) items.agents items.atoms items.names) }
    ensures judged { IsJudged UniverseError.OutOfMemory (universe_fault (declarations typed.now)) result }
{
    check_objects(typed)?;
    let agents = find_agents(alloc, typed)?;
    let atoms = make_atoms(alloc, typed)?;
    let names = names_of_task(alloc, typed, agents.as_slice(), atoms.as_slice())?;
    Ok(Items {
        agents,
        atoms,
        names,
    })
}

/// The items of a task, or the first of its limits that is broken.
pub(crate) fn items_of(alloc: Global, typed: &Typed) -> Result<Items, UniverseError>
    ensures items { IfOk result (λ items. AreItems (declarations typed.now) items.agents items.atoms items.names) }
    ensures few { IfOk result (λ _. HasFewNames (declarations typed.now)) }
    ensures typed { HasNoFault typed.now }
    ensures read { IsRead typed.now }
    ensures judged { IsJudged UniverseError.OutOfMemory (universe_fault (declarations typed.now)) result }
{
    typed.known();
    items_within(alloc, typed)
}
