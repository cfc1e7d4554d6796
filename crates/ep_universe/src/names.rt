//! Names of objects, and printed names of agents and ground atoms.

ghost use Rattle.std.specs.Prelude.{◌≡◌, ◌<◌, ◌≤◌, ◌++◌, All, IfOk, OnOk, length};
ghost use Rattle.ep_lex.specs.declared.limits.TheConstants.{MOST_TOKENS};
ghost use Rattle.ep_types.specs.Atoms.{texts};
ghost use Rattle.ep_types.specs.Names.{names_of};
ghost use Rattle.ep_types.specs.Tasks.{declarations};
ghost use Rattle.ep_universe.specs.Atoms.{atoms_of};
ghost use Rattle.ep_universe.specs.Objects.{agents_of};
ghost use Rattle.ep_universe.specs.PrintedNames as spec;
ghost use Rattle.ep_universe.specs.Universe.{AreNamesOf};

use crate::atoms::GroundAtom;
use ep_logic::{List, OutOfMemory, Text};
use ep_name::print_name;
use ep_tree::Name;
use ep_types::Typed;
use std::alloc::Global;

/// The names of objects, and the printed names of agents and ground atoms, each in order of their numbers.
#[derive(Drop)]
pub struct Names {
    pub objects: List<Text>,
    pub agents: List<Text>,
    pub atoms: List<Text>,
}

/// A copy of a text.
pub fn copy_text(alloc: Global, text: &Text) -> Result<Text, OutOfMemory>
    ensures { IfOk result (λ copy. copy ≡ text.now) }
{
    Ok(Text::from_vec(Vec::from_slice(alloc, text.as_slice())?))
}

fn push_names(alloc: Global, names: &mut List<Text>, more: &[Name]) -> Result<(), OutOfMemory>
    ensures { OnOk result (names.new ≡ names.old ++ texts more.now) }
{
    for name in more {
        names.push(copy_text(alloc, &name.text)?)?;
    }
    Ok(())
}

/// The names of the objects, in order of declaration.
fn object_names(alloc: Global, typed: &Typed) -> Result<List<Text>, OutOfMemory>
    ensures { IfOk result (λ names. names ≡ names_of (declarations typed.now).objects) }
{
    let mut names = List::new(alloc);
    for entry in typed.tree().objects.as_slice() {
        push_names(alloc, &mut names, entry.names.as_slice())?;
    }
    Ok(names)
}

/// The names of the agents. `names` are those of the objects, here and below.
fn agent_names(
    alloc: Global,
    typed: &Typed,
    names: &[Text],
    objects: &[u32],
) -> Result<List<Text>, OutOfMemory>
    requires names { names.now ≡ names_of (declarations typed.now).objects }
    requires agents { objects.now ≡ agents_of (declarations typed.now) }
    ensures { IfOk result (λ agents. agents ≡ spec.agent_names (declarations typed.now)) }
{
    let mut agents = List::new(alloc);
    for object in objects {
        agents.push(copy_text(alloc, &names[*object as usize])?)?;
    }
    Ok(agents)
}

fn atom_name(
    alloc: Global,
    typed: &Typed,
    names: &[Text],
    atom: &GroundAtom,
) -> Result<Text, OutOfMemory>
    requires names { names.now ≡ names_of (declarations typed.now).objects }
    requires few { length typed.now.fluents ≤ MOST_TOKENS }
    requires fluent { atom.now.fluent < length (declarations typed.now).fluents }
    requires objects { All (λ o. o < length (declarations typed.now).objects) atom.now.objects }
    ensures { IfOk result (λ name. name ≡ spec.atom_name (declarations typed.now) atom.now) }
{
    let fluent = &typed.tree().fluents.as_slice()[atom.fluent];
    print_name(alloc, &fluent.name.text, names, atom.objects.as_slice())
}

/// The printed names of the ground atoms.
fn atom_names(
    alloc: Global,
    typed: &Typed,
    names: &[Text],
    atoms: &[GroundAtom],
) -> Result<List<Text>, OutOfMemory>
    requires fluents { length typed.now.fluents ≤ MOST_TOKENS }
    requires names { names.now ≡ names_of (declarations typed.now).objects }
    requires atoms { atoms.now ≡ atoms_of (declarations typed.now) }
    ensures { IfOk result (λ printed. printed ≡ spec.atom_names (declarations typed.now)) }
{
    let mut printed = List::new(alloc);
    for atom in atoms {
        printed.push(atom_name(alloc, typed, names, atom)?)?;
    }
    Ok(printed)
}

/// The names of a task with these agents and ground atoms.
pub(crate) fn names_of_task(
    alloc: Global,
    typed: &Typed,
    agents: &[u32],
    atoms: &[GroundAtom],
) -> Result<Names, OutOfMemory>
    requires fluents { length typed.now.fluents ≤ MOST_TOKENS }
    requires agents { agents.now ≡ agents_of (declarations typed.now) }
    requires atoms { atoms.now ≡ atoms_of (declarations typed.now) }
    ensures { IfOk result (AreNamesOf (declarations typed.now)) }
{
    let objects = object_names(alloc, typed)?;
    let agents = agent_names(alloc, typed, objects.as_slice(), agents)?;
    let atoms = atom_names(alloc, typed, objects.as_slice(), atoms)?;
    Ok(Names {
        objects,
        agents,
        atoms,
    })
}
