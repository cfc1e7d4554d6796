// The lines that a line stands on.

ghost use Rattle.std.specs.Prelude.{◌≡◌, ℕ, ◌+◌, ◌<◌, ◌≤◌, ◌^◌, All, length, map, slice_index, IfOk, OnOk};
ghost use Rattle.ep_apart.specs.Pruning.{IsClosedFrom, KeptSoFar, MarksAll, MarksNames, NameEarlier, Names, renumber};
ghost use Rattle.ep_apart.specs.Tables.{IsCut};

use crate::lines::Line;
use ep_logic::{Bits, List, OutOfMemory};
use std::alloc::Global;

/// The lines that this one stands on, in their order, and it as the last.
pub fn pruned(alloc: Global, lines: &[Line], root: u32) -> Result<List<Line>, OutOfMemory>
    requires root { root < length lines.now }
    requires earlier { NameEarlier lines.now }
    requires few { length lines.now ≤ 2 ^ 24 }
    ensures { IfOk result (IsCut lines.now root) }
{
    let needed = needed_by(alloc, lines, root)?;
    kept_lines(alloc, lines, &needed, root)
}

// The lines that are needed, and line `root`.
fn kept_lines(
    alloc: Global,
    lines: &[Line],
    needed: &Bits,
    root: u32,
) -> Result<List<Line>, OutOfMemory>
    requires root { root < length lines.now }
    requires earlier { NameEarlier lines.now }
    requires few { length lines.now ≤ 2 ^ 24 }
    requires closed { IsClosedFrom lines.now root 0 needed.now }
    ensures { IfOk result (IsCut lines.now root) }
{
    let mut numbers = Vec::new(alloc);
    let mut kept = List::new(alloc);
    for k in 0..root {
        keep(alloc, lines, needed, root, k, &mut numbers, &mut kept)?;
    }
    let last = renumbered(alloc, &lines[root as usize], &numbers)?;
    kept.push(last)?;
    Ok(kept)
}

// Gives line `k` its new number, and keeps it if it is needed.
fn keep(
    alloc: Global,
    lines: &[Line],
    needed: &Bits,
    root: u32,
    k: u32,
    numbers: &mut Vec<u32>,
    kept: &mut List<Line>,
) -> Result<(), OutOfMemory>
    requires before { k < root }
    requires root { root < length lines.now }
    requires earlier { NameEarlier lines.now }
    requires few { length lines.now ≤ 2 ^ 24 }
    requires closed { IsClosedFrom lines.now root 0 needed.now }
    requires so_far { KeptSoFar lines.now needed.now numbers.old.items kept.old k }
    ensures { OnOk result (KeptSoFar lines.now needed.now numbers.new.items kept.new (k + 1)) }
{
    let number = kept.as_slice().len() as u32;
    numbers.push(number)?;
    if !needed.get(k) {
        return Ok(());
    }
    let line = renumbered(alloc, &lines[k as usize], numbers)?;
    kept.push(line)?;
    Ok(())
}

// For each line whether line `root` stands on it.
fn needed_by(alloc: Global, lines: &[Line], root: u32) -> Result<Bits, OutOfMemory>
    requires root { root < length lines.now }
    requires earlier { NameEarlier lines.now }
    requires few { length lines.now ≤ 2 ^ 24 }
    ensures { IfOk result (IsClosedFrom lines.now root 0) }
{
    let mut needed = Bits::zeros(alloc, lines.len() as u32)?;
    mark_names(&mut needed, &lines[root as usize]);
    let mut k = root;
    while k > 0 {
        k -= 1;
        if needed.get(k) {
            mark_names(&mut needed, &lines[k as usize]);
        }
    }
    Ok(needed)
}

// Marks the numbers in the line.
fn mark_names(marked: &mut Bits, line: &Line)
    requires { (i : ℕ) → Names line.now i → i < length marked.old }
    ensures { MarksNames line.now marked.old marked.new }
{
    match line {
        Line::True => {}
        Line::Atom(_) => {}
        Line::Not(i) => marked.set(*i, true),
        Line::And(parts) => mark_all(marked, parts.as_slice()),
        Line::Knows(_, i) => marked.set(*i, true),
    }
}

fn mark_all(marked: &mut Bits, numbers: &[u32])
    requires { All (λ i. i < length marked.old) numbers.now }
    ensures { MarksAll numbers.now marked.old marked.new }
{
    for i in numbers {
        marked.set(*i, true);
    }
}

/// The line under new numbers.
pub fn renumbered(alloc: Global, line: &Line, numbers: &[u32]) -> Result<Line, OutOfMemory>
    requires { (i : ℕ) → Names line.now i → i < length numbers.now }
    ensures { IfOk result (λ l. l ≡ renumber (slice_index numbers.now) line.now) }
{
    Ok(match line {
        Line::True => Line::True,
        Line::Atom(p) => Line::Atom(*p),
        Line::Not(i) => Line::Not(numbers[*i as usize]),
        Line::And(parts) => Line::And(all_renumbered(alloc, parts.as_slice(), numbers)?),
        Line::Knows(a, i) => Line::Knows(*a, numbers[*i as usize]),
    })
}

fn all_renumbered(alloc: Global, parts: &[u32], numbers: &[u32]) -> Result<List<u32>, OutOfMemory>
    requires { All (λ i. i < length numbers.now) parts.now }
    ensures { IfOk result (λ l. l ≡ map (slice_index numbers.now) parts.now) }
{
    let mut list = List::new(alloc);
    for i in parts {
        list.push(numbers[*i as usize])?;
    }
    Ok(list)
}
