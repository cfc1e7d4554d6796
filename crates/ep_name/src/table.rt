// Tables of names.

ghost use Rattle.std.specs.Prelude.{◌≡◌, ◌≢◌, ◌+◌, ◌<◌, ◌^◌, [], ◌∷◌, ◌++◌, All, AllPairs, IfNone, IfSome, OnErr, OnOk, Some, length, slice_get};

use ep_base::{OutOfMemory, Text};
use indexmap::IndexMap;
use std::alloc::Global;
use std::marker::Model;

/// Texts that differ from each other, which contracts see as their list. A text's place is found by one look-up.
pub struct NameTable {
    map: IndexMap<Vec<u8>, Text>,
    alloc: Global,
}

impl Drop for NameTable {
    fn drop(self) {
        let NameTable {
            map: _map,
            alloc: _alloc,
        } = self;
    }
}

impl Model for NameTable {
    ghost use Rattle.std.specs.Prelude.{List, ℕ};
    ghost use Rattle.ep_name.specs.Tables.{texts_of, IsTable};

    ghost Value = { List (List ℕ) };

    ghost view = { λ t. texts_of t.map.entries };

    ghost invariant = { λ t. IsTable t.map.entries };
}

impl NameTable {
    /// The empty table. It takes no memory.
    pub fn new(alloc: Global) -> NameTable
        ensures { result ≡ [] }
    {
        NameTable {
            map: IndexMap::new(alloc),
            alloc,
        }
    }

    pub fn len(&self) -> u32
        ensures { result ≡ length self.now }
    {
        self.map.len() as u32
    }

    /// Adds a text that is not there, at the end. A refusal drops it.
    pub fn push(&mut self, text: Text) -> Result<(), OutOfMemory>
        requires new { All (λ known. known ≢ text) self.old }
        requires room { length self.old + 1 < 2 ^ 32 }
        ensures ok { OnOk result (self.new ≡ self.old ++ text ∷ []) }
        ensures err { OnErr result (self.new ≡ self.old) }
    {
        let key = Vec::from_slice(self.alloc, text.as_slice())?;
        self.map.insert(key, text)?;
        Ok(())
    }

    /// The text at a place.
    pub fn text(&self, place: u32) -> &Text
        requires { place < length self.now }
        ensures { slice_get self.now place ≡ Some result.now }
    {
        self.map.get_index(place as usize).unwrap().1
    }

    /// The place of a text, or None exactly where it is none of the table's. It takes no memory.
    pub fn place(&self, name: &[u8]) -> Option<u32>
        ensures found { IfSome result (λ place. slice_get self.now place ≡ Some name.now) }
        ensures none { IfNone result (All (λ known. known ≢ name.now) self.now) }
        ensures apart { AllPairs (λ x y. x ≢ y) self.now }
    {
        let place = self.map.get_index_of(name)?;
        Some(place as u32)
    }
}
