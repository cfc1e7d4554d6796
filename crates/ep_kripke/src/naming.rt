ghost use Rattle.std.specs.Prelude.{◌≡◌, ℕ, ◌<◌, ◌≤◌, ◌++◌, ◌∷◌, [], false, replicate, length, slice_index_or, if◌then◌else◌, IsTrue, IfSome, IfOk, OnOk, OnErr};
ghost use Rattle.std.specs.Ordering.{nat_cmp};
ghost use Rattle.std.specs.List.{AllByRecursion};
ghost use Rattle.ep_logic.specs.Numbers.{has_number};
ghost use Rattle.ep_logic.specs.Packed.{unpacked, IsPacked};
ghost use Rattle.ep_logic.specs.Rows.{value_at};
ghost use Rattle.ep_theory.specs.Rising.{IsRising};
ghost use Rattle.ep_kripke.specs.Relations.{members, Extends};
ghost use Rattle.ep_kripke.specs.Kept.{kept_rows, names_of, AreWide};

use crate::hint::{FIRST_ROWS, Hint, mix_numbers, mix_words, start_of};
use crate::limits::{MOST_PACKED, MOST_WORLDS};
use crate::relation::Relation;
use crate::row_set::{Kept, RowSet};
use crate::rows::Rows;
use ep_logic::{BitTable, Bits, OutOfMemory};
use std::alloc::Global;
use std::marker::Model;

/// Rows of worlds as they come, each of them kept once: as bits where there are at most 4,096 worlds, and as lists
/// where there are more.
#[derive(Drop)]
pub struct Naming {
    worlds: u32,
    kept: Kept,
    // a row of bits that is empty between two calls
    blank: Bits,
    hint: Hint,
    // for each place the number of its row, and how long the row is
    pushed: Vec<(u32, u32)>,
    links: u64,
}

impl Model for Naming {
    ghost use Rattle.ep_kripke.specs.Relations.{RowsSeen, named_rows};
    ghost use Rattle.ep_kripke.specs.Kept.{kept_rows, names_of, IsNaming};

    ghost Value = { RowsSeen };

    ghost view = { λ n. record { worlds = n.worlds; rows = named_rows (names_of n.pushed.items) (kept_rows n.kept) } };

    ghost invariant = { λ n. IsNaming n.worlds n.kept n.blank n.pushed.items n.links };
}

impl Naming {
    /// No row yet, of so many worlds.
    pub fn new(alloc: Global, worlds: u32) -> Result<Naming, OutOfMemory>
        requires { worlds ≤ MOST_WORLDS }
        ensures { IfOk result (λ n. n ≡ record { worlds = worlds; rows = [] }) }
    {
        if worlds <= MOST_PACKED {
            packed(alloc, worlds)
        } else {
            listed(alloc, worlds)
        }
    }

    /// Puts the row of one more world at the end.
    pub fn push(&mut self, row: &[u32]) -> Result<(), OutOfMemory>
        requires room { length self.old.rows < MOST_WORLDS }
        requires rising { IsRising nat_cmp row.now }
        requires within { AllByRecursion (λ v. v < self.old.worlds) row.now }
        ensures { OnOk result (self.new ≡ record self.old { rows = self.old.rows ++ row.now ∷ [] }) }
    {
        self.pushed.reserve(1)?;
        let name = name_of(
            self.worlds,
            &mut self.kept,
            &mut self.blank,
            &mut self.hint,
            row,
        )?;
        self.pushed.push((name, row.len() as u32))?;
        self.links += row.len() as u64;
        Ok(())
    }

    /// Puts the row at a place once more, at the end.
    pub fn push_again(&mut self, at: u32) -> Result<(), OutOfMemory>
        requires place { at < length self.old.rows }
        requires room { length self.old.rows < MOST_WORLDS }
        ensures { OnOk result (self.new ≡ record self.old {
          rows = self.old.rows ++ slice_index_or self.old.rows at [] ∷ [];
        }) }
    {
        let (name, long) = self.pushed[at as usize];
        self.pushed.push((name, long))?;
        self.links += u64::from(long);
        Ok(())
    }

    /// The rows, one for each world that was put.
    pub fn finish(self, alloc: Global) -> Result<Relation, OutOfMemory>
        ensures { IfOk result (λ r. r ≡ self.rows) }
    {
        let names = numbers_of(alloc, &self.pushed)?;
        Relation::from_named(alloc, names, RowSet::from_kept(self.kept), self.links)
    }
}

fn numbers_of(alloc: Global, pushed: &[(u32, u32)]) -> Result<Vec<u32>, OutOfMemory>
    ensures { IfOk result (λ v. v.items ≡ names_of pushed.now) }
{
    Ok(pushed.iter().map(|named| named.0).collect(alloc)?)
}

fn packed(alloc: Global, worlds: u32) -> Result<Naming, OutOfMemory>
    requires { worlds ≤ MOST_WORLDS }
    ensures { IfOk result (λ n. n ≡ record { worlds = worlds; rows = [] }) }
{
    Ok(Naming {
        worlds,
        kept: Kept::Packed(BitTable::zeros(alloc, 0, worlds)?),
        blank: Bits::zeros(alloc, worlds)?,
        hint: Hint::new(alloc, worlds)?,
        pushed: Vec::new(alloc),
        links: 0,
    })
}

fn listed(alloc: Global, worlds: u32) -> Result<Naming, OutOfMemory>
    requires { worlds ≤ MOST_WORLDS }
    ensures { IfOk result (λ n. n ≡ record { worlds = worlds; rows = [] }) }
{
    Ok(Naming {
        worlds,
        kept: Kept::Listed(Rows::new(alloc)),
        blank: Bits::zeros(alloc, 0)?,
        hint: Hint::new(alloc, worlds)?,
        pushed: Vec::new(alloc),
        links: 0,
    })
}

// The number of a row, which is put at the end where it is new.
fn name_of(
    worlds: u32,
    kept: &mut Kept,
    blank: &mut Bits,
    hint: &mut Hint,
    row: &[u32],
) -> Result<u32, OutOfMemory>
    requires room { length (kept_rows kept.old) < MOST_WORLDS }
    requires wide { AreWide worlds blank.old kept.old }
    requires rising { IsRising nat_cmp row.now }
    requires within { AllByRecursion (λ v. v < worlds) row.now }
    ensures name { IfOk result (λ name. name < length (kept_rows kept.new)) }
    ensures row { IfOk result (λ name. slice_index_or (kept_rows kept.new) name [] ≡ row.now) }
    ensures more { OnOk result (Extends (kept_rows kept.old) (kept_rows kept.new)) }
    ensures wide { AreWide worlds blank.new kept.new }
    ensures err { OnErr result (kept_rows kept.new ≡ kept_rows kept.old) }
{
    let _worlds = worlds;
    match kept {
        Kept::Packed(table) => name_of_bits(table, blank, hint, row),
        Kept::Listed(rows) => name_of_list(rows, hint, row),
    }
}

fn name_of_bits(
    table: &mut BitTable,
    blank: &mut Bits,
    hint: &mut Hint,
    row: &[u32],
) -> Result<u32, OutOfMemory>
    requires room { length table.old.rows < MOST_WORLDS }
    requires blank { blank.old ≡ replicate table.old.width false }
    requires rising { IsRising nat_cmp row.now }
    requires within { AllByRecursion (λ v. v < table.old.width) row.now }
    ensures name { IfOk result (λ name. name < length table.new.rows) }
    ensures row { IfOk result (λ name. members (slice_index_or table.new.rows name []) ≡ row.now) }
    ensures more { OnOk result (Extends table.old.rows table.new.rows) }
    ensures width { table.new.width ≡ table.old.width }
    ensures blank { blank.new ≡ blank.old }
    ensures err { OnErr result (table.new ≡ table.old) }
{
    write_all(blank, row, true);
    let named = name_of_words(table, hint, start_of(row), blank.words());
    write_all(blank, row, false);
    named
}

// Writes the value at each of the places.
fn write_all(bits: &mut Bits, places: &[u32], v: bool)
    requires { AllByRecursion (λ i. i < length bits.old) places.now }
    ensures long { length bits.new ≡ length bits.old }
    ensures each { (k : ℕ) → value_at bits.new k ≡ if has_number places.now k then v else value_at bits.old k }
{
    for place in places {
        bits.set(*place, v);
    }
}

fn name_of_words(
    table: &mut BitTable,
    hint: &mut Hint,
    start: usize,
    words: &[u64],
) -> Result<u32, OutOfMemory>
    requires room { length table.old.rows < MOST_WORLDS }
    requires packed { IsPacked words.now table.old.width }
    ensures name { IfOk result (λ name. name < length table.new.rows) }
    ensures row { IfOk result (λ name. slice_index_or table.new.rows name [] ≡ unpacked words.now table.old.width) }
    ensures more { OnOk result (Extends table.old.rows table.new.rows) }
    ensures width { table.new.width ≡ table.old.width }
    ensures err { OnErr result (table.new ≡ table.old) }
{
    let Some(first) = hint.first(start) else {
        let name = put_words(table, words)?;
        hint.begins(start, name);
        return Ok(name);
    };
    if has_words(table, first, words) {
        return Ok(first);
    }
    name_of_later_words(table, hint, words)
}

// Puts the words at the end, and gives their number.
fn put_words(table: &mut BitTable, words: &[u64]) -> Result<u32, OutOfMemory>
    requires room { length table.old.rows < MOST_WORLDS }
    requires packed { IsPacked words.now table.old.width }
    ensures name { IfOk result (λ name. name < length table.new.rows) }
    ensures row { IfOk result (λ name. slice_index_or table.new.rows name [] ≡ unpacked words.now table.old.width) }
    ensures more { OnOk result (Extends table.old.rows table.new.rows) }
    ensures width { table.new.width ≡ table.old.width }
    ensures err { OnErr result (table.new ≡ table.old) }
{
    let name = table.len();
    table.push(words)?;
    Ok(name)
}

// The number of a row that begins as an earlier one.
fn name_of_later_words(
    table: &mut BitTable,
    hint: &mut Hint,
    words: &[u64],
) -> Result<u32, OutOfMemory>
    requires room { length table.old.rows < MOST_WORLDS }
    requires packed { IsPacked words.now table.old.width }
    ensures name { IfOk result (λ name. name < length table.new.rows) }
    ensures row { IfOk result (λ name. slice_index_or table.new.rows name [] ≡ unpacked words.now table.old.width) }
    ensures more { OnOk result (Extends table.old.rows table.new.rows) }
    ensures width { table.new.width ≡ table.old.width }
    ensures err { OnErr result (table.new ≡ table.old) }
{
    let mixed = mix_words(words);
    if let Some(name) = find_words(table, hint.find(mixed), words) {
        return Ok(name);
    }
    hint.add(mixed, table.len())?;
    put_words(table, words)
}

// The number of a row with these words, among the first ones and at the place that is hinted at.
fn find_words(table: &BitTable, hinted: Option<u32>, words: &[u64]) -> Option<u32>
    requires { IsPacked words.now table.now.width }
    ensures { IfSome result (λ i. (i < length table.now.rows)
        × (slice_index_or table.now.rows i [] ≡ unpacked words.now table.now.width)) }
{
    for i in 0..table.len().min(FIRST_ROWS) {
        if table.row(i) == words {
            return Some(i);
        }
    }
    let name = hinted?;
    if has_words(table, name, words) {
        return Some(name);
    }
    None
}

// Whether the row with this number has these words.
fn has_words(table: &BitTable, name: u32, words: &[u64]) -> bool
    requires { IsPacked words.now table.now.width }
    ensures { IsTrue result → (name < length table.now.rows)
        × (slice_index_or table.now.rows name [] ≡ unpacked words.now table.now.width) }
{
    name < table.len() && table.row(name) == words
}

fn name_of_list(rows: &mut Rows, hint: &mut Hint, row: &[u32]) -> Result<u32, OutOfMemory>
    requires room { length rows.old < MOST_WORLDS }
    ensures name { IfOk result (λ name. name < length rows.new) }
    ensures row { IfOk result (λ name. slice_index_or rows.new name [] ≡ row.now) }
    ensures more { OnOk result (Extends rows.old rows.new) }
    ensures err { OnErr result (rows.new ≡ rows.old) }
{
    let start = start_of(row);
    let Some(first) = hint.first(start) else {
        let name = put_list(rows, row)?;
        hint.begins(start, name);
        return Ok(name);
    };
    if has_list(rows, first, row) {
        return Ok(first);
    }
    name_of_later_list(rows, hint, row)
}

// Puts the row at the end, and gives its number.
fn put_list(rows: &mut Rows, row: &[u32]) -> Result<u32, OutOfMemory>
    requires room { length rows.old < MOST_WORLDS }
    ensures name { IfOk result (λ name. name < length rows.new) }
    ensures row { IfOk result (λ name. slice_index_or rows.new name [] ≡ row.now) }
    ensures more { OnOk result (Extends rows.old rows.new) }
    ensures err { OnErr result (rows.new ≡ rows.old) }
{
    let name = rows.len() as u32;
    rows.push(row)?;
    Ok(name)
}

// The number of a row that begins as an earlier one.
fn name_of_later_list(rows: &mut Rows, hint: &mut Hint, row: &[u32]) -> Result<u32, OutOfMemory>
    requires room { length rows.old < MOST_WORLDS }
    ensures name { IfOk result (λ name. name < length rows.new) }
    ensures row { IfOk result (λ name. slice_index_or rows.new name [] ≡ row.now) }
    ensures more { OnOk result (Extends rows.old rows.new) }
    ensures err { OnErr result (rows.new ≡ rows.old) }
{
    let mixed = mix_numbers(row);
    if let Some(name) = find_list(rows, hint.find(mixed), row) {
        return Ok(name);
    }
    hint.add(mixed, rows.len() as u32)?;
    put_list(rows, row)
}

fn find_list(rows: &Rows, hinted: Option<u32>, row: &[u32]) -> Option<u32>
    requires { length rows.now ≤ MOST_WORLDS }
    ensures { IfSome result (λ i. (i < length rows.now) × (slice_index_or rows.now i [] ≡ row.now)) }
{
    for i in 0..rows.len().min(FIRST_ROWS as usize) {
        if rows.row(i) == row {
            return Some(i as u32);
        }
    }
    let name = hinted?;
    if has_list(rows, name, row) {
        return Some(name);
    }
    None
}

// Whether the row with this number is this one.
fn has_list(rows: &Rows, name: u32, row: &[u32]) -> bool
    ensures { IsTrue result → (name < length rows.now) × (slice_index_or rows.now name [] ≡ row.now) }
{
    (name as usize) < rows.len() && rows.row(name as usize) == row
}
