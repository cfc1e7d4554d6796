//! Ground atoms by number.

ghost use Rattle.std.specs.Prelude.{◌≡◌, ◌<◌, ◌≤◌, ◌++◌, IfOk, IfSome, OnOk, length, map, position};
ghost use Rattle.std.specs.List.{flat_map};
ghost use Rattle.ep_binding.specs.declared.limits.TheConstants.{MOST_OBJECTS};
ghost use Rattle.ep_lex.specs.declared.limits.TheConstants.{MOST_TOKENS};
ghost use Rattle.ep_binding.specs.Bindings.{bindings};
ghost use Rattle.ep_types.specs.Atoms.{texts};
ghost use Rattle.ep_types.specs.Tasks.{declarations};
ghost use Rattle.ep_universe.specs.Atoms as spec;
ghost use Rattle.ep_universe.specs.Objects.{objects_of, object_at};

use crate::objects::{Bound, object_at, objects_of};
use ep_binding::{binding_count, bindings};
use ep_logic::{List, OutOfMemory};
use ep_tree::{AtomTree, Name};
use ep_types::Typed;
use std::alloc::Global;

/// A fluent, by its number in order of declaration, at objects.
#[derive(Drop)]
pub struct GroundAtom {
    pub fluent: usize,
    pub objects: List<u32>,
}

/// The objects of each type.
fn objects_of_each(
    alloc: Global,
    typed: &Typed,
    kinds: &[Name],
) -> Result<List<List<u32>>, OutOfMemory>
    requires { length (declarations typed.now).objects ≤ MOST_OBJECTS }
    ensures { IfOk result (λ lists. lists ≡ map (objects_of (declarations typed.now)) (texts kinds.now)) }
{
    let mut lists = List::new(alloc);
    for kind in kinds {
        lists.push(objects_of(alloc, typed, kind.text.as_slice())?)?;
    }
    Ok(lists)
}

/// The exact number of ground atoms, before any is made.
pub fn atom_count(alloc: Global, typed: &Typed) -> Result<u64, OutOfMemory>
    requires objects { length (declarations typed.now).objects ≤ MOST_OBJECTS }
    requires fluents { length typed.now.fluents ≤ MOST_TOKENS }
    ensures { IfOk result (λ count. count ≡ length (spec.atoms_of (declarations typed.now))) }
{
    let mut count = 0;
    for fluent in typed.tree().fluents.as_slice() {
        let lists = objects_of_each(alloc, typed, fluent.kinds.as_slice())?;
        count += binding_count(lists.as_slice());
    }
    Ok(count)
}

/// Adds the atoms of a fluent.
fn push_atoms(
    alloc: Global,
    atoms: &mut List<GroundAtom>,
    fluent: usize,
    lists: &[List<u32>],
) -> Result<(), OutOfMemory>
    ensures { OnOk result (atoms.new ≡ atoms.old ++ map (λ objects. record { fluent = fluent; objects = objects }) (bindings lists.now)) }
{
    for objects in bindings(alloc, lists)?.into_vec() {
        atoms.push(GroundAtom { fluent, objects })?;
    }
    Ok(())
}

/// The ground atoms: the fluents in order of declaration, each at all bindings.
pub fn atoms_of(alloc: Global, typed: &Typed) -> Result<List<GroundAtom>, OutOfMemory>
    requires { length (declarations typed.now).objects ≤ MOST_OBJECTS }
    ensures { IfOk result (λ atoms. atoms ≡ spec.atoms_of (declarations typed.now)) }
{
    let mut atoms = List::new(alloc);
    for (number, fluent) in typed.tree().fluents.as_slice().iter().enumerate() {
        let lists = objects_of_each(alloc, typed, fluent.kinds.as_slice())?;
        push_atoms(alloc, &mut atoms, number, lists.as_slice())?;
    }
    Ok(atoms)
}

/// The objects for which names stand.
fn objects_at(
    alloc: Global,
    typed: &Typed,
    binding: &[Bound],
    names: &[Name],
) -> Result<List<u32>, OutOfMemory>
    requires { length (declarations typed.now).objects ≤ MOST_OBJECTS }
    ensures { IfOk result (λ objects. objects ≡ map (λ x. object_at (declarations typed.now) binding.now x.text) names.now) }
{
    let mut objects = List::new(alloc);
    for name in names {
        objects.push(object_at(typed, binding, name.text.as_slice()))?;
    }
    Ok(objects)
}

/// The number of the fluent with a name, where there is one.
fn fluent_at(typed: &Typed, name: &[u8]) -> usize
    ensures { result ≡ spec.fluent_at (declarations typed.now) name.now }
{
    typed.find_fluent(name).unwrap_or(0)
}

/// The ground atom that an atom becomes.
pub fn ground_atom(
    alloc: Global,
    typed: &Typed,
    binding: &[Bound],
    atom: &AtomTree,
) -> Result<GroundAtom, OutOfMemory>
    requires { length (declarations typed.now).objects ≤ MOST_OBJECTS }
    ensures { IfOk result (λ made. made ≡ spec.ground_atom (declarations typed.now) binding.now atom.now) }
{
    let fluent = fluent_at(typed, atom.name.text.as_slice());
    let objects = objects_at(alloc, typed, binding, atom.args.as_slice())?;
    Ok(GroundAtom { fluent, objects })
}

fn is_same(x: &GroundAtom, y: &GroundAtom) -> bool
    ensures { result ≡ spec.is_same x.now y.now }
{
    x.fluent == y.fluent && x.objects.as_slice() == y.objects.as_slice()
}

/// The place of an atom among others.
pub fn find_atom(atoms: &[GroundAtom], atom: &GroundAtom) -> Option<usize>
    ensures place { result ≡ position (spec.is_same atom.now) atoms.now }
    ensures small { IfSome result (λ place. place < length atoms.now) }
{
    atoms.iter().position(|other| is_same(atom, other))
}
