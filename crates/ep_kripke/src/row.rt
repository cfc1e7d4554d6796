ghost use Rattle.std.specs.Prelude.{◌≡◌, ◌<◌, ◌↔◌, ◌++◌, length, IsTrue, IfSome, IfOk, OnOk};
ghost use Rattle.std.specs.List.{list_all};
ghost use Rattle.ep_logic.specs.Packed.{unpacked, IsPacked};
ghost use Rattle.ep_logic.specs.Rows.{value_at};
ghost use Rattle.ep_theory.specs.Rising.{IsIn};
ghost use Rattle.ep_kripke.specs.Relations.{members};
ghost use Rattle.ep_kripke.specs.Interning.{row_of};

use crate::row_set::{bit_of, words_within};
use ep_logic::{Bits, OutOfMemory, put_places};
use std::alloc::{AllocError, Global};
use std::marker::Model;
use std::rc::Rc;

// A row of truth values in words of 64 bits, as the words of `Bits`.
#[derive(Drop, PartialEq, Eq, Hash)]
pub(crate) struct Words {
    items: Vec<u64>,
    len: u32,
}

/// A row of truth values that does not change, shared by its owners, which contracts see as their list.
#[derive(Drop)]
pub struct Row {
    pub(crate) words: Rc<Words>,
}

impl Model for Row {
    ghost use Rattle.std.specs.Prelude.{List, Bool};
    ghost use Rattle.ep_logic.specs.Packed.{unpacked};
    ghost use Rattle.ep_kripke.specs.RowTables.{IsRow};

    ghost Value = { List Bool };

    ghost view = { λ r. unpacked r.words.value.items.items r.words.value.len };

    ghost invariant = { λ r. IsRow r.words.value.items.items r.words.value.len };
}

impl Row {
    /// The values of a row of bits.
    pub fn from_bits(alloc: Global, b: &Bits) -> Result<Row, OutOfMemory>
        ensures { IfOk result (λ row. row ≡ b.now) }
    {
        Row::from_words(alloc, b.words(), b.len())
    }

    // The first `len` values of words.
    pub(crate) fn from_words(alloc: Global, words: &[u64], len: u32) -> Result<Row, OutOfMemory>
        requires { IsPacked words.now len }
        ensures { IfOk result (λ row. row ≡ unpacked words.now len) }
    {
        let items = Vec::from_slice(alloc, words)?;
        Ok(Row {
            words: Rc::new(alloc, Words { items, len }).map_err(AllocError::from)?,
        })
    }

    /// The number of places.
    pub fn len(&self) -> u32
        ensures { result ≡ length self.now }
    {
        self.words.len
    }

    /// The value at a place.
    pub fn get(&self, i: u32) -> bool
        requires { i < length self.now }
        ensures { result ≡ value_at self.now i }
    {
        bit_of(self.words(), i)
    }

    /// The values in words of 64 bits, as those of `Bits::words`.
    pub fn words(&self) -> &[u64]
        ensures value { unpacked result.now (length self.now) ≡ self.now }
        ensures packed { IsPacked result.now (length self.now) }
    {
        &self.words.items
    }

    /// The same row, for one owner more.
    pub fn share(&self) -> Result<Row, OutOfMemory>
        ensures { IfOk result (λ row. row ≡ self.now) }
    {
        Ok(Row {
            words: self.words.clone()?,
        })
    }

    // The words, where there are so many places.
    pub(crate) fn words_over(&self, worlds: u32) -> Option<&[u64]>
        ensures packed { IfSome result (λ words. IsPacked words.now worlds) }
        ensures value { IfSome result (λ words. unpacked words.now worlds ≡ row_of worlds (members self.now)) }
    {
        if self.len() == worlds {
            Some(self.words())
        } else {
            None
        }
    }

    // Puts the places that are true at the end.
    pub(crate) fn put_members(&self, out: &mut Vec<u32>) -> Result<(), OutOfMemory>
        ensures { OnOk result (out.new.items ≡ out.old.items ++ members self.now) }
    {
        put_places(self.words(), out)
    }

    // Whether a place is true, false past the end.
    pub(crate) fn has_member(&self, v: u32) -> bool
        ensures { IsTrue result ↔ IsIn v (members self.now) }
    {
        bit_of(self.words(), v)
    }

    // Whether the set is true at each place that is true.
    pub(crate) fn is_within(&self, set: &Bits) -> bool
        ensures { result ≡ list_all (value_at set.now) (members self.now) }
    {
        words_within(self.words(), set.words())
    }

    // Whether the same places are true.
    pub(crate) fn has_same_members(&self, other: &Row) -> bool
        ensures { IsTrue result ↔ (members self.now ≡ members other.now) }
    {
        let (a, b) = (self.words(), other.words());
        words_within(a, b) && words_within(b, a)
    }
}
