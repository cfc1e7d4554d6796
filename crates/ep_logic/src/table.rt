ghost use Rattle.std.specs.Prelude.{◌≡◌, ◌≤◌, ◌<◌, ◌+◌, ◌*◌, ◌^◌, ◌++◌, ◌∷◌, [], false, replicate, length, slice_set, slice_index_or, IfOk, OnOk, OnErr};
ghost use Rattle.std.specs.List.{slice_range};
ghost use Rattle.ep_logic.specs.Packed.{unpacked, IsPacked};
ghost use Rattle.ep_logic.specs.Rows.{value_at, true_places};

use crate::places::places_of;
use crate::words::{get_bit, set_bit};
use ep_base::{List, OutOfMemory};
use std::alloc::Global;
use std::marker::Model;

/// The greatest number of rows of a table.
pub const MOST_ROWS: u32 = 1_048_576;

/// Rows of truth values of one length, one after another in words of 64 bits, which contracts see as that length and the
/// list of rows.
#[derive(Drop)]
pub struct BitTable {
    words: Vec<u64>,
    width: u32,
    per: usize,
    count: u32,
}

impl Model for BitTable {
    ghost use Rattle.ep_logic.specs.Tables.{Table, table_rows, IsTable};

    ghost Value = { Table };

    ghost view = { λ t. record { width = t.width; rows = table_rows t.words.items t.width t.per t.count } };

    ghost invariant = { λ t. IsTable t.words.items t.width t.per t.count };
}

impl BitTable {
    /// So many rows of `width` times false.
    pub fn zeros(alloc: Global, count: u32, width: u32) -> Result<BitTable, OutOfMemory>
        requires { count ≤ MOST_ROWS }
        ensures { IfOk result (λ t. t ≡ record { width = width; rows = replicate count (replicate width false) }) }
    {
        let per = (width as usize + 63) / 64;
        let words = vec![in alloc; 0u64; count as usize * per]?;
        Ok(BitTable {
            words,
            width,
            per,
            count,
        })
    }

    /// The number of rows.
    pub fn len(&self) -> u32
        ensures { result ≡ length self.now.rows }
    {
        self.count
    }

    /// How long each row is.
    pub fn width(&self) -> u32
        ensures { result ≡ self.now.width }
    {
        self.width
    }

    /// Puts a row at the end, whose values stand in words as those of `Bits::words`.
    pub fn push(&mut self, row: &[u64]) -> Result<(), OutOfMemory>
        requires room { length self.old.rows < MOST_ROWS }
        requires packed { IsPacked row.now self.old.width }
        ensures ok { OnOk result (self.new ≡ record self.old {
          rows = self.old.rows ++ unpacked row.now self.old.width ∷ [];
        }) }
        ensures err { OnErr result (self.new ≡ self.old) }
    {
        self.words.extend_from_slice(row)?;
        self.count += 1;
        Ok(())
    }

    /// The value at a place of a row.
    pub fn get(&self, r: u32, i: u32) -> bool
        requires row { r < length self.now.rows }
        requires place { i < self.now.width }
        ensures { result ≡ value_at (slice_index_or self.now.rows r []) i }
    {
        get_bit(&self.words, place_in(r, self.per, i))
    }

    /// Writes the value at a place of a row.
    pub fn set(&mut self, r: u32, i: u32, v: bool)
        requires row { r < length self.old.rows }
        requires place { i < self.old.width }
        ensures { self.new ≡ record self.old {
          rows = slice_set self.old.rows r (slice_set (slice_index_or self.old.rows r []) i v);
        } }
    {
        set_bit(&mut self.words, place_in(r, self.per, i), v);
    }

    /// The words of a row, as those of `Bits::words`.
    pub fn row(&self, r: u32) -> &[u64]
        requires { r < length self.now.rows }
        ensures packed { IsPacked result.now self.now.width }
        ensures value { unpacked result.now self.now.width ≡ slice_index_or self.now.rows r [] }
    {
        part_of(&self.words, r as usize * self.per, self.per)
    }

    /// The places of a row that are true, in rising order.
    pub fn places(&self, alloc: Global, r: u32) -> Result<List<u32>, OutOfMemory>
        requires { r < length self.now.rows }
        ensures { IfOk result (λ places. places ≡ true_places (slice_index_or self.now.rows r [])) }
    {
        places_of(alloc, self.row(r))
    }
}

// Where a place of a row of `per` words stands among all bits.
fn place_in(r: u32, per: usize, i: u32) -> u64
    requires row { r ≤ MOST_ROWS }
    requires per { per ≤ 2 ^ 26 }
    ensures { result ≡ r * per * 64 + i }
{
    u64::from(r) * per as u64 * 64 + u64::from(i)
}

fn part_of(words: &[u64], from: usize, per: usize) -> &[u64]
    requires { from + per ≤ length words.now }
    ensures { result.now ≡ slice_range words.now from (from + per) }
{
    &words[from..from + per]
}
