// Lines that say the same, simplified.

ghost use Rattle.std.specs.Prelude.{◌≡◌, ℕ, ◌<◌, ◌≤◌, ◌^◌, [], IsTrue, length, IfOk, IfSome};
ghost use Rattle.std.specs.Ordering.{nat_cmp};
ghost use Rattle.ep_theory.specs.Rising.{rising};
ghost use Rattle.ep_apart.specs.Pruning.{NameEarlier, Names, line_at};
ghost use Rattle.ep_apart.specs.Simplifying.{IsShare, IsShared, IsSimpler};

use crate::hints::Hints;
use crate::lines::Line;
use crate::parts::add;
use crate::prune::{pruned, renumbered};
use ep_logic::{List, OutOfMemory};
use std::alloc::Global;

/// Lines that say what these say. No line negates a negation, no conjunction names a line twice, and lines that would be
/// equal are one.
pub fn simplified(alloc: Global, lines: &[Line]) -> Result<List<Line>, OutOfMemory>
    requires some { 0 < length lines.now }
    requires earlier { NameEarlier lines.now }
    requires few { length lines.now ≤ 2 ^ 24 }
    ensures { IfOk result (IsSimpler lines.now) }
{
    let mut shared = List::new(alloc);
    let root = share_all(alloc, lines, &mut shared)?;
    pruned(alloc, shared.as_slice(), root)
}

// Puts lines that say what these say, and gives the number of the one for the last.
fn share_all(alloc: Global, lines: &[Line], shared: &mut List<Line>) -> Result<u32, OutOfMemory>
    requires some { 0 < length lines.now }
    requires earlier { NameEarlier lines.now }
    requires few { length lines.now ≤ 2 ^ 24 }
    requires empty { shared.old ≡ [] }
    ensures { IfOk result (IsShared lines.now shared.new) }
{
    let mut hints = Hints::new(alloc)?;
    let mut numbers = Vec::new(alloc);
    for line in lines {
        let renumbered = renumbered(alloc, line, &numbers)?;
        let number = share(shared, &mut hints, renumbered)?;
        numbers.push(number)?;
    }
    Ok(numbers[lines.len() - 1])
}

// The number of a line that says what this one says, which is put if there is none.
fn share(shared: &mut List<Line>, hints: &mut Hints, line: Line) -> Result<u32, OutOfMemory>
    requires names { (i : ℕ) → Names line i → i < length shared.old }
    requires earlier { NameEarlier shared.old }
    requires room { length shared.old < 2 ^ 24 }
    ensures { IfOk result (IsShare shared.old line shared.new) }
{
    match line {
        Line::True => put(shared, hints, Line::True),
        Line::Atom(p) => put(shared, hints, Line::Atom(p)),
        Line::Not(i) => share_negation(shared, hints, i),
        Line::And(parts) => share_conjunction(shared, hints, parts),
        Line::Knows(a, i) => put(shared, hints, Line::Knows(a, i)),
    }
}

fn share_negation(shared: &mut List<Line>, hints: &mut Hints, i: u32) -> Result<u32, OutOfMemory>
    requires within { i < length shared.old }
    requires earlier { NameEarlier shared.old }
    requires room { length shared.old < 2 ^ 24 }
    ensures { IfOk result (IsShare shared.old (Line.Not i) shared.new) }
{
    if let Some(j) = negated(shared.as_slice(), i) {
        return Ok(j);
    }
    put(shared, hints, Line::Not(i))
}

// The line that line `i` negates.
fn negated(lines: &[Line], i: u32) -> Option<u32>
    requires { i < length lines.now }
    ensures { IfSome result (λ j. line_at lines.now i ≡ Line.Not j) }
{
    match &lines[i as usize] {
        Line::Not(j) => Some(*j),
        _ => None,
    }
}

fn share_conjunction(
    shared: &mut List<Line>,
    hints: &mut Hints,
    parts: List<u32>,
) -> Result<u32, OutOfMemory>
    requires within { (i : ℕ) → Names (Line.And parts) i → i < length shared.old }
    requires earlier { NameEarlier shared.old }
    requires room { length shared.old < 2 ^ 24 }
    ensures { IfOk result (IsShare shared.old (Line.And parts) shared.new) }
{
    let distinct = distinct(parts);
    if distinct.as_slice().len() == 1 {
        return Ok(distinct.as_slice()[0]);
    }
    put(shared, hints, Line::And(distinct))
}

// The numbers in rising order, each once.
fn distinct(numbers: List<u32>) -> List<u32>
    ensures { result ≡ rising nat_cmp numbers }
{
    let mut numbers = numbers.into_vec();
    numbers.sort_unstable();
    numbers.dedup();
    List::from_vec(numbers)
}

// The number of the line, which is put if it is not there.
fn put(shared: &mut List<Line>, hints: &mut Hints, line: Line) -> Result<u32, OutOfMemory>
    requires names { (i : ℕ) → Names line i → i < length shared.old }
    requires earlier { NameEarlier shared.old }
    requires room { length shared.old < 2 ^ 24 }
    ensures { IfOk result (IsShare shared.old line shared.new) }
{
    if let Some(number) = find(shared.as_slice(), hints.places(&line), &line) {
        return Ok(number);
    }
    hints.add(&line, shared.as_slice().len() as u32)?;
    add(shared, line)
}

// The place of the line, among these.
fn find(lines: &[Line], places: &[u32], line: &Line) -> Option<u32>
    ensures { IfSome result (λ k. (k < length lines.now) × (line_at lines.now k ≡ line.now)) }
{
    for k in places {
        if let Some(known) = lines.get(*k as usize) {
            if is_same(known, line) {
                return Some(*k);
            }
        }
    }
    None
}

fn is_same(x: &Line, y: &Line) -> bool
    ensures { IsTrue result → x.now ≡ y.now }
{
    match (x, y) {
        (Line::True, Line::True) => true,
        (Line::Atom(p), Line::Atom(q)) => p == q,
        (Line::Not(i), Line::Not(j)) => i == j,
        (Line::And(is), Line::And(js)) => is.as_slice() == js.as_slice(),
        (Line::Knows(a, i), Line::Knows(b, j)) => a == b && i == j,
        _ => false,
    }
}
