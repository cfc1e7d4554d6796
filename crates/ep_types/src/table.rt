//! Names with a value each, in order of declaration.

ghost use Rattle.std.specs.Prelude.{◌≡◌, ◌++◌, ◌∷◌, [], ◌<◌, false, length, take, IfOk, OnErr, OnOk, is_some, position, slice_get, Some};
ghost use Rattle.std.specs.Option.{option_copied};
ghost use Rattle.ep_types.specs.Names.{declared, is_among, is_text, names_of, values_of};

use ep_base::{List, Text};
use indexmap::IndexMap;
use std::alloc::{AllocError, Global};
use std::marker::Model;

/// A table of names, which contracts see as the list of its pairs. A look-up finds the first.
#[derive(Drop)]
pub struct Table<V: Drop> {
    map: IndexMap<Vec<u8>, V>,
}

impl<V: Drop> Model for Table<V> {
    ghost use Rattle.std.specs.Prelude.{List, ℕ, map};
    ghost use Rattle.std.specs.Coded.{coded_list, coded×, coded_ℕ};
    ghost use Rattle.ep_types.specs.Names.{seen};

    ghost Value = { List (List ℕ × V) };

    ghost coded = { coded_list (coded× (coded_list coded_ℕ) V.code) };

    ghost view = { λ t. seen t.map.entries };
}

impl<V: Drop> Table<V> {
    pub fn new(alloc: Global) -> Table<V>
        ensures { result ≡ [] }
    {
        Table {
            map: IndexMap::new(alloc),
        }
    }

    /// The value at a name.
    pub fn get(&self, name: &[u8]) -> Option<&V>
        ensures { option_copied result ≡ declared name.now self.now }
    {
        self.map.get(name)
    }

    /// Whether the table has a name.
    pub fn has(&self, name: &[u8]) -> bool
        ensures { result ≡ is_among name.now (names_of self.now) }
    {
        self.map.contains_key(name)
    }

    /// The number of the first pair with a name.
    pub fn index(&self, name: &[u8]) -> Option<usize>
        ensures place { result ≡ position (is_text name.now) (names_of self.now) }
        ensures found { is_some result ≡ is_among name.now (names_of self.now) }
    {
        self.map.get_index_of(name)
    }

    /// The name with a number.
    pub fn name(&self, number: usize) -> &[u8]
        requires { number < length self.now }
        ensures { slice_get (names_of self.now) number ≡ Some result.now }
    {
        self.map.get_index(number).unwrap().0.as_slice()
    }

    /// The value with a number.
    pub fn value(&self, number: usize) -> &V
        requires { number < length self.now }
        ensures { slice_get (values_of self.now) number ≡ Some result.now }
    {
        self.map.get_index(number).unwrap().1
    }

    pub fn len(&self) -> usize
        ensures { result ≡ length self.now }
    {
        self.map.len()
    }

    /// Adds a name that is not there, at the end.
    pub fn add(&mut self, alloc: Global, name: &[u8], value: V) -> Result<(), AllocError>
        requires { is_among name.now (names_of self.old) ≡ false }
        ensures ok { OnOk result (self.new ≡ self.old ++ (name.now, value) ∷ []) }
        ensures err { OnErr result (self.new ≡ self.old) }
    {
        let key = Vec::from_slice(alloc, name)?;
        self.map.insert(key, value)?;
        Ok(())
    }

    /// Keeps the first names.
    pub fn truncate(&mut self, len: usize)
        ensures { self.new ≡ take len self.old }
    {
        self.map.truncate(len);
    }
}

/// A copy of a text.
pub fn copy_text(alloc: Global, text: &Text) -> Result<List<u8>, AllocError>
    ensures { IfOk result (λ copy. copy ≡ text.now) }
{
    Ok(List::from_vec(Vec::from_slice(alloc, text.as_slice())?))
}
