ghost use Rattle.std.specs.Prelude.{◌≡◌, ℕ, ◌<◌, ◌≤◌, ◌↔◌, ◌++◌, [], length, map, slice_index_or, IsTrue, IfSome, IfOk, OnOk};
ghost use Rattle.std.specs.Ordering.{nat_cmp};
ghost use Rattle.std.specs.List.{AllByRecursion, list_all};
ghost use Rattle.ep_logic.specs.Numbers.{table};
ghost use Rattle.ep_logic.specs.Packed.{bit_in, unpacked, IsPacked};
ghost use Rattle.ep_logic.specs.Rows.{value_at};
ghost use Rattle.ep_theory.specs.Rising.{IsIn, IsRising};
ghost use Rattle.ep_kripke.specs.declared.limits.TheConstants.{MOST_WORLDS};
ghost use Rattle.ep_kripke.specs.Relations.{members};
ghost use Rattle.ep_kripke.specs.Kept.{kept_rows};
ghost use Rattle.ep_kripke.specs.Equivalence.{IsShared};
ghost use Rattle.ep_kripke.specs.Interning.{row_of};

use crate::equivalence::{bits_are_shared, list_is_shared, rows_are_shared};
use crate::row::Row;
use crate::rows::Rows;
use ep_logic::{BitTable, Bits, List, OutOfMemory, put_places};
use std::alloc::Global;
use std::marker::Model;

// How rows are kept.
#[derive(Drop)]
pub(crate) enum Kept {
    Packed(BitTable),
    Listed(Rows),
}

// Rows of a set alone, or rows that it shares with a table.
#[derive(Drop)]
pub(crate) enum Held {
    Own(Kept),
    Shared(List<Row>),
}

/// Rows of worlds, as bits or as lists, which contracts see as lists of numbers.
#[derive(Drop)]
pub struct RowSet {
    held: Held,
}

impl Model for RowSet {
    ghost use Rattle.std.specs.Prelude.{List, ℕ};
    ghost use Rattle.ep_kripke.specs.RowSets.{held_rows};

    ghost Value = { List (List ℕ) };

    ghost view = { λ s. held_rows s.held };
}

impl RowSet {
    pub(crate) fn from_kept(kept: Kept) -> RowSet
        ensures { result ≡ kept_rows kept }
    {
        RowSet {
            held: Held::Own(kept),
        }
    }

    // The numbers at which shared rows are true.
    pub(crate) fn from_shared(rows: List<Row>) -> RowSet
        ensures { result ≡ map members rows }
    {
        RowSet {
            held: Held::Shared(rows),
        }
    }

    /// The number of rows.
    pub fn len(&self) -> usize
        ensures { result ≡ length self.now }
    {
        match &self.held {
            Held::Own(Kept::Packed(table)) => table.len() as usize,
            Held::Own(Kept::Listed(rows)) => rows.len(),
            Held::Shared(rows) => rows.as_slice().len(),
        }
    }

    /// Puts the numbers of a row at the end.
    pub fn put_row(&self, at: u32, out: &mut Vec<u32>) -> Result<(), OutOfMemory>
        requires { at < length self.now }
        ensures { OnOk result (out.new.items ≡ out.old.items ++ slice_index_or self.now at []) }
    {
        match &self.held {
            Held::Own(Kept::Packed(table)) => put_members(table, at, out),
            Held::Own(Kept::Listed(rows)) => Ok(out.extend_from_slice(rows.row(at as usize))?),
            Held::Shared(rows) => rows.as_slice()[at as usize].put_members(out),
        }
    }

    /// Whether the set is true at each number of a row.
    pub fn within(&self, at: u32, set: &Bits) -> bool
        requires { at < length self.now }
        ensures { result ≡ list_all (value_at set.now) (slice_index_or self.now at []) }
    {
        match &self.held {
            Held::Own(Kept::Packed(table)) => is_within(table, at, set),
            Held::Own(Kept::Listed(rows)) => is_true_at_all(rows.row(at as usize), set),
            Held::Shared(rows) => rows.as_slice()[at as usize].is_within(set),
        }
    }

    /// For each row, whether the set is true at each of its numbers.
    pub fn all_within(&self, alloc: Global, set: &Bits) -> Result<Bits, OutOfMemory>
        requires { length self.now ≤ MOST_WORLDS }
        ensures { IfOk result (λ row. row ≡
            table (λ i. list_all (value_at set.now) (slice_index_or self.now i [])) (length self.now)) }
    {
        let mut row = Bits::zeros(alloc, self.len() as u32)?;
        for i in 0..self.len() as u32 {
            row.set(i, self.within(i, set));
        }
        Ok(row)
    }

    /// Whether a row has the number.
    pub fn has(&self, at: u32, v: u32) -> bool
        requires row { at < length self.now }
        requires rising { IsRising nat_cmp (slice_index_or self.now at []) }
        ensures { IsTrue result ↔ IsIn v (slice_index_or self.now at []) }
    {
        match &self.held {
            Held::Own(Kept::Packed(table)) => has_member(table, at, v),
            Held::Own(Kept::Listed(rows)) => finds(rows.row(at as usize), v),
            Held::Shared(rows) => rows.as_slice()[at as usize].has_member(v),
        }
    }

    /// Whether each number of a row has, by these names, the same row.
    pub fn is_shared(&self, at: u32, names: &[u32]) -> bool
        requires row { at < length self.now }
        requires few { length names.now ≤ MOST_WORLDS }
        requires names { AllByRecursion (λ i. i < length self.now) names.now }
        requires within { AllByRecursion (λ v. v < length names.now) (slice_index_or self.now at []) }
        ensures { IsTrue result ↔ IsShared self.now names.now at }
    {
        match &self.held {
            Held::Own(Kept::Packed(table)) => bits_are_shared(table, at, names),
            Held::Own(Kept::Listed(rows)) => list_is_shared(rows, at, names),
            Held::Shared(rows) => rows_are_shared(rows.as_slice(), at, names),
        }
    }

    // A row as a row of truth values over so many worlds.
    pub(crate) fn row(&self, alloc: Global, at: u32, worlds: u32) -> Result<Row, OutOfMemory>
        requires { at < length self.now }
        ensures { IfOk result (λ row. row ≡ row_of worlds (slice_index_or self.now at [])) }
    {
        if let Some(words) = self.words(at, worlds) {
            return Row::from_words(alloc, words, worlds);
        }
        let mut numbers = Vec::new(alloc);
        self.put_row(at, &mut numbers)?;
        let bits = Bits::from_places(alloc, worlds, &numbers)?;
        Row::from_bits(alloc, &bits)
    }

    // The words of a row that is kept as bits of so many worlds.
    fn words(&self, at: u32, worlds: u32) -> Option<&[u64]>
        requires { at < length self.now }
        ensures packed { IfSome result (λ words. IsPacked words.now worlds) }
        ensures value { IfSome result (λ words. unpacked words.now worlds ≡ row_of worlds (slice_index_or self.now at [])) }
    {
        match &self.held {
            Held::Own(Kept::Packed(table)) => words_of(table, at, worlds),
            Held::Own(Kept::Listed(_)) => None,
            Held::Shared(rows) => rows.as_slice()[at as usize].words_over(worlds),
        }
    }
}

fn words_of(table: &BitTable, r: u32, worlds: u32) -> Option<&[u64]>
    requires { r < length table.now.rows }
    ensures packed { IfSome result (λ words. IsPacked words.now worlds) }
    ensures value { IfSome result (λ words. unpacked words.now worlds
        ≡ row_of worlds (members (slice_index_or table.now.rows r []))) }
{
    if table.width() == worlds {
        Some(table.row(r))
    } else {
        None
    }
}

fn put_members(table: &BitTable, r: u32, out: &mut Vec<u32>) -> Result<(), OutOfMemory>
    requires { r < length table.now.rows }
    ensures { OnOk result (out.new.items ≡ out.old.items ++ members (slice_index_or table.now.rows r [])) }
{
    put_places(table.row(r), out)
}

pub(crate) fn has_member(table: &BitTable, r: u32, v: u32) -> bool
    requires { r < length table.now.rows }
    ensures { IsTrue result ↔ IsIn v (members (slice_index_or table.now.rows r [])) }
{
    bit_of(table.row(r), v)
}

fn is_within(table: &BitTable, r: u32, set: &Bits) -> bool
    requires { r < length table.now.rows }
    ensures { result ≡ list_all (value_at set.now) (members (slice_index_or table.now.rows r [])) }
{
    words_within(table.row(r), set.words())
}

// A word, 0 past the end.
fn word_at(words: &[u64], i: usize) -> u64
    ensures { result ≡ slice_index_or words.now i 0 }
{
    if i < words.len() { words[i] } else { 0 }
}

// The value at a place, false past the end.
pub(crate) fn bit_of(words: &[u64], v: u32) -> bool
    ensures { result ≡ bit_in words.now v }
{
    (word_at(words, (v / 64) as usize) >> (v % 64)) & 1 == 1
}

// Whether each bit of the first words stands in the others.
pub(crate) fn words_within(a: &[u64], b: &[u64]) -> bool
    ensures { IsTrue result ↔ ((k : ℕ) → IsTrue (bit_in a.now k) → IsTrue (bit_in b.now k)) }
{
    for i in 0..a.len() {
        if a[i] & word_at(b, i) != a[i] {
            return false;
        }
    }
    true
}

// Whether a number stands in a rising list.
pub(crate) fn finds(numbers: &[u32], number: u32) -> bool
    requires { IsRising nat_cmp numbers.now }
    ensures { IsTrue result ↔ IsIn number numbers.now }
{
    numbers.binary_search(&number).is_ok()
}

// The value of a set, false past its end.
fn value_of(set: &Bits, v: u32) -> bool
    ensures { result ≡ value_at set.now v }
{
    v < set.len() && set.get(v)
}

fn is_true_at_all(places: &[u32], set: &Bits) -> bool
    ensures { result ≡ list_all (value_at set.now) places.now }
{
    places.iter().all(|v| value_of(set, *v))
}
