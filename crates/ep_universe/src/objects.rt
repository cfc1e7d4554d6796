//! Objects and agents by number, and what names stand for.

ghost use Rattle.std.specs.Prelude.{◌≡◌, ◌<◌, ◌≤◌, ◌++◌, IfOk, length, map, slice_set, true};
ghost use Rattle.ep_binding.specs.declared.limits.TheConstants.{MOST_OBJECTS};
ghost use Rattle.ep_binding.specs.Laminar.{IsLaminar};
ghost use Rattle.ep_types.specs.Names.{declared};
ghost use Rattle.ep_types.specs.Tasks.{declarations};
ghost use Rattle.ep_universe.specs.Objects as spec;

use ep_logic::{List, OutOfMemory};
use ep_tree::ParamTree;
use ep_types::Typed;
use std::alloc::Global;
use std::marker::Model;

/// A parameter in force, and the object that it stands for.
#[derive(Drop)]
pub struct Bound<'a> {
    pub name: &'a [u8],
    pub object: u32,
}

impl<'a> Model for Bound<'a> {
    ghost use Rattle.std.specs.Prelude.{List, ℕ};

    ghost Value = { List ℕ × ℕ };

    ghost view = { λ b. (b.name.now, b.object) };
}

/// The objects whose type is this one or below it, in order of declaration.
pub fn objects_of(alloc: Global, typed: &Typed, kind: &[u8]) -> Result<List<u32>, OutOfMemory>
    requires { length (declarations typed.now).objects ≤ MOST_OBJECTS }
    ensures { IfOk result (λ objects. objects ≡ spec.objects_of (declarations typed.now) kind.now) }
{
    let mut objects = List::new(alloc);
    for number in 0..typed.object_count() {
        if typed.is_below(typed.object_type(number), kind) {
            objects.push(number as u32)?;
        }
    }
    Ok(objects)
}

/// The objects to which each parameter may be bound.
pub fn candidates(
    alloc: Global,
    typed: &Typed,
    params: &[ParamTree],
) -> Result<List<List<u32>>, OutOfMemory>
    requires { length (declarations typed.now).objects ≤ MOST_OBJECTS }
    ensures value { IfOk result (λ lists. lists ≡ spec.candidates (declarations typed.now) params.now) }
    ensures laminar { IfOk result IsLaminar }
{
    typed.known();
    let mut lists = List::new(alloc);
    for param in params {
        lists.push(objects_of(alloc, typed, param.kind.text.as_slice())?)?;
    }
    Ok(lists)
}

/// The object that a parameter in force stands for: that of the first with the name.
fn bound_to(binding: &[Bound], name: &[u8]) -> Option<u32>
    ensures { result ≡ declared name.now binding.now }
{
    for bound in binding {
        if name == bound.name {
            return Some(bound.object);
        }
    }
    None
}

/// The object for which a name stands, where it is the name of one.
pub fn object_at(typed: &Typed, binding: &[Bound], name: &[u8]) -> u32
    requires { length (declarations typed.now).objects ≤ MOST_OBJECTS }
    ensures { result ≡ spec.object_at (declarations typed.now) binding.now name.now }
{
    match bound_to(binding, name) {
        Some(object) => object,
        None => match typed.find_object(name) {
            Some(number) => number as u32,
            None => 0,
        },
    }
}

/// A binding with more parameters in force, at these objects.
pub fn widen<'a>(
    alloc: Global,
    binding: &[Bound<'a>],
    params: &'a [ParamTree],
    objects: &[u32],
) -> Result<List<Bound<'a>>, OutOfMemory>
    ensures { IfOk result (λ wider. wider ≡ binding.now ++ spec.bound params.now objects.now) }
{
    let mut wider = List::new(alloc);
    for bound in binding {
        wider.push(Bound {
            name: bound.name,
            object: bound.object,
        })?;
    }
    for (place, param) in params.iter().enumerate() {
        if let Some(object) = objects.get(place) {
            wider.push(Bound {
                name: param.name.text.as_slice(),
                object: *object,
            })?;
        }
    }
    Ok(wider)
}
