ghost use Rattle.std.specs.Prelude.{◌≡◌, ◌<◌, ◌↔◌, true, false, not, replicate, length, map, slice_set, IsTrue, IfOk};
ghost use Rattle.ep_logic.specs.Numbers.{has_number, table};
ghost use Rattle.ep_logic.specs.Rows.{value_at, both, either, true_places, Within};
ghost use Rattle.ep_logic.specs.Packed.{unpacked, IsPacked};

use crate::places::places_of;
use crate::words::{and_words, flip_row, get_bit, is_within, or_words, set_bit};
use ep_base::{List, OutOfMemory};
use std::alloc::Global;
use std::marker::Model;

/// A row of truth values in words of 64 bits, which contracts see as their list.
#[derive(Debug, Drop)]
pub struct Bits {
    words: Vec<u64>,
    len: u32,
}

impl Model for Bits {
    ghost use Rattle.std.specs.Prelude.{List, Bool};
    ghost use Rattle.ep_logic.specs.Packed.{unpacked, IsPacked};

    ghost Value = { List Bool };

    ghost view = { λ b. unpacked b.words.items b.len };

    ghost invariant = { λ b. IsPacked b.words.items b.len };
}

impl Bits {
    /// A row of `len` times false.
    pub fn zeros(alloc: Global, len: u32) -> Result<Bits, OutOfMemory>
        ensures { IfOk result (λ b. b ≡ replicate len false) }
    {
        let count = (u64::from(len) + 63) / 64;
        let words = vec![in alloc; 0u64; count as usize]?;
        Ok(Bits { words, len })
    }

    /// A row of `len` times true.
    pub fn ones(alloc: Global, len: u32) -> Result<Bits, OutOfMemory>
        ensures { IfOk result (λ b. b ≡ replicate len true) }
    {
        let mut row = Bits::zeros(alloc, len)?;
        row.flip();
        Ok(row)
    }

    /// A row of `len` values that is true at these places. Those from `len` on are left out.
    pub fn from_places(alloc: Global, len: u32, places: &[u32]) -> Result<Bits, OutOfMemory>
        ensures { IfOk result (λ b. b ≡ table (has_number places.now) len) }
    {
        let mut row = Bits::zeros(alloc, len)?;
        for place in places {
            if *place < len {
                row.set(*place, true);
            }
        }
        Ok(row)
    }

    /// The number of places.
    pub fn len(&self) -> u32
        ensures { result ≡ length self.now }
    {
        self.len
    }

    /// The value at a place.
    pub fn get(&self, i: u32) -> bool
        requires { i < length self.now }
        ensures { result ≡ value_at self.now i }
    {
        get_bit(&self.words, u64::from(i))
    }

    /// Writes the value at a place.
    pub fn set(&mut self, i: u32, v: bool)
        requires { i < length self.old }
        ensures { self.new ≡ slice_set self.old i v }
    {
        set_bit(&mut self.words, u64::from(i), v);
    }

    /// Turns each value.
    pub fn flip(&mut self)
        ensures { self.new ≡ map not self.old }
    {
        flip_row(&mut self.words, self.len);
    }

    /// Keeps true what is true in both rows.
    pub fn and_with(&mut self, other: &Bits)
        requires { length self.old ≡ length other.now }
        ensures { self.new ≡ both self.old other.now }
    {
        and_words(&mut self.words, &other.words);
    }

    /// Makes true what is true in the other row.
    pub fn or_with(&mut self, other: &Bits)
        requires { length self.old ≡ length other.now }
        ensures { self.new ≡ either self.old other.now }
    {
        or_words(&mut self.words, &other.words);
    }

    /// Whether each place that is true here is true in the other row.
    pub fn subset(&self, other: &Bits) -> bool
        requires { length self.now ≡ length other.now }
        ensures { IsTrue result ↔ Within self.now other.now }
    {
        is_within(&self.words, &other.words)
    }

    /// The places that are true, in rising order.
    pub fn places(&self, alloc: Global) -> Result<List<u32>, OutOfMemory>
        ensures { IfOk result (λ places. places ≡ true_places self.now) }
    {
        places_of(alloc, self.words())
    }

    /// The values in words of 64 bits, the first as the least bit of the first word. Past the end all bits are 0.
    pub fn words(&self) -> &[u64]
        ensures value { unpacked result.now (length self.now) ≡ self.now }
        ensures packed { IsPacked result.now (length self.now) }
    {
        &self.words
    }

    /// A second row with these values.
    pub fn copy(&self, alloc: Global) -> Result<Bits, OutOfMemory>
        ensures { IfOk result (λ b. b ≡ self.now) }
    {
        let words = Vec::from_slice(alloc, &self.words)?;
        Ok(Bits {
            words,
            len: self.len,
        })
    }
}
