// Whether links are an equivalence, world by world and without memory.

ghost use Rattle.std.specs.Prelude.{◌≡◌, ◌<◌, ◌≤◌, ◌↔◌, [], length, map, slice_index_or, IsTrue};
ghost use Rattle.std.specs.List.{AllByRecursion};
ghost use Rattle.ep_kripke.specs.declared.limits.TheConstants.{MOST_WORLDS};
ghost use Rattle.ep_kripke.specs.Relations.{members};
ghost use Rattle.ep_kripke.specs.Equivalence.{IsShared};

use crate::row::Row;
use crate::row_set::{has_member, words_within};
use crate::rows::Rows;
use ep_logic::BitTable;

// Whether two rows have the same members.
fn same_bits(table: &BitTable, i: u32, j: u32) -> bool
    requires first { i < length table.now.rows }
    requires second { j < length table.now.rows }
    ensures { IsTrue result ↔
        (members (slice_index_or table.now.rows i []) ≡ members (slice_index_or table.now.rows j [])) }
{
    let (a, b) = (table.row(i), table.row(j));
    words_within(a, b) && words_within(b, a)
}

// Whether each member of the row has, by these names, the same row.
pub(crate) fn bits_are_shared(table: &BitTable, at: u32, names: &[u32]) -> bool
    requires row { at < length table.now.rows }
    requires few { length names.now ≤ MOST_WORLDS }
    requires names { AllByRecursion (λ i. i < length table.now.rows) names.now }
    requires within { AllByRecursion (λ v. v < length names.now) (members (slice_index_or table.now.rows at [])) }
    ensures { IsTrue result ↔ IsShared (map members table.now.rows) names.now at }
{
    for v in 0..names.len() {
        if has_member(table, at, v as u32) && !same_bits(table, names[v], at) {
            return false;
        }
    }
    true
}

// Whether each true place of the row has, by these names, a row with the same true places.
pub(crate) fn rows_are_shared(rows: &[Row], at: u32, names: &[u32]) -> bool
    requires row { at < length rows.now }
    requires few { length names.now ≤ MOST_WORLDS }
    requires names { AllByRecursion (λ i. i < length rows.now) names.now }
    requires within { AllByRecursion (λ v. v < length names.now) (members (slice_index_or rows.now at [])) }
    ensures { IsTrue result ↔ IsShared (map members rows.now) names.now at }
{
    let row = &rows[at as usize];
    for v in 0..names.len() {
        if row.has_member(v as u32) && !rows[names[v] as usize].has_same_members(row) {
            return false;
        }
    }
    true
}

fn same_list(rows: &Rows, i: u32, j: u32) -> bool
    requires first { i < length rows.now }
    requires second { j < length rows.now }
    ensures { IsTrue result ↔ (slice_index_or rows.now i [] ≡ slice_index_or rows.now j []) }
{
    rows.row(i as usize) == rows.row(j as usize)
}

// Whether each number of the row has, by these names, the same row.
pub(crate) fn list_is_shared(rows: &Rows, at: u32, names: &[u32]) -> bool
    requires row { at < length rows.now }
    requires names { AllByRecursion (λ i. i < length rows.now) names.now }
    requires within { AllByRecursion (λ v. v < length names.now) (slice_index_or rows.now at []) }
    ensures { IsTrue result ↔ IsShared rows.now names.now at }
{
    for v in rows.row(at as usize) {
        if !same_list(rows, names[*v as usize], at) {
            return false;
        }
    }
    true
}
