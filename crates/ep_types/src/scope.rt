//! The names that are declared, and the parameters in force.

ghost use Rattle.std.specs.Prelude.{◌≡◌, []};
ghost use Rattle.std.specs.Option.{option_copied};
ghost use Rattle.ep_types.specs.Places as spec;

use crate::table::Table;
use crate::types::Types;
use ep_base::List;
use std::alloc::Global;

/// The names that are declared: types with their parents, objects with their types, and fluents with the types of their parameters.
pub struct Declared {
    pub types: Types,
    pub objects: Table<List<u8>>,
    pub fluents: Table<List<List<u8>>>,
}

impl Drop for Declared {
    fn drop(self) {
        let Declared {
            types: _types,
            objects: _objects,
            fluents: _fluents,
        } = self;
    }
}

/// The parameters in force with their types, and whether knowledge is allowed.
#[derive(Drop)]
pub struct Frame {
    pub params: Table<List<u8>>,
    pub knowledge: bool,
}

impl Frame {
    pub fn new(alloc: Global, knowledge: bool) -> Frame
        ensures { result ≡ record { params = []; knowledge = knowledge } }
    {
        Frame {
            params: Table::new(alloc),
            knowledge,
        }
    }
}

/// The type of a parameter in force, or else of an object.
pub fn find_type<'a>(names: &'a Declared, frame: &'a Frame, name: &[u8]) -> Option<&'a List<u8>>
    ensures { option_copied result ≡ spec.type_of (spec.scope names.now frame.now) name.now }
{
    match frame.params.get(name) {
        None => names.objects.get(name),
        Some(kind) => Some(kind),
    }
}
