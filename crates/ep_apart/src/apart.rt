// A formula that tells two states apart.

ghost use Rattle.std.specs.Prelude.{◌≡◌, ℕ, ◌+◌, ◌<◌, ◌≤◌, ◌↔◌, ◌⊎◌, All, None, Some, length, map, slice_index, IfOk, IfSome};
ghost use Rattle.ep_theory.specs.Rising.{IsIn};
ghost use Rattle.ep_theory.specs.Kripke.{IsState};
ghost use Rattle.ep_theory.specs.Bisimulation.{Bisimilar, BisimilarWorlds};
ghost use Rattle.ep_apart.specs.declared.limits.TheConstants.{MOST_JOINT, MOST_TOLD};
ghost use Rattle.ep_apart.specs.Joint.{IsJoint};
ghost use Rattle.ep_apart.specs.Tables.{AreTold, IsMissing};
ghost use Rattle.ep_apart.specs.Telling.{TellsApart};

use crate::lines::{Apart, Line, Side};
use crate::parts::{conjunction, parts_of};
use crate::prune::pruned;
use crate::quotient::quotient;
use crate::simplify::simplified;
use crate::table::tell_worlds;
use crate::union::union;
use ep_kripke::State;
use ep_logic::{List, OutOfMemory};
use ep_refine::classes;
use std::alloc::Global;

/// A formula that is true at a designated world of one state and at no designated world of the other; none exactly if
/// the states are bisimilar. The side is the first where it can be. Where at most m worlds of both states differ pairwise,
/// there are at most 5 m² + 1 lines, and at most m - 1 `Knows` nest. The only error is want of memory.
///
/// No line negates a negation, no conjunction names a line twice, each line but the last is named by a later one, and a
/// line is put once; of the designated worlds that can be told, it tells one whose formula comes in the earliest round.
pub fn tell_apart(alloc: Global, s: &State, t: &State) -> Result<Option<Apart>, OutOfMemory>
    requires agents { s.now.agents ≡ t.now.agents }
    requires atoms { s.now.atoms ≡ t.now.atoms }
    requires first { s.now.worlds ≤ MOST_TOLD }
    requires second { t.now.worlds ≤ MOST_TOLD }
    ensures same { IfOk result (λ o. (o ≡ None) ↔ Bisimilar s.now t.now) }
    ensures apart { IfOk result (λ o. IfSome o (TellsApart s.now t.now)) }
{
    let whole = union(alloc, s, t)?;
    let classes = classes(alloc, &whole)?;
    let state = quotient(alloc, &whole, &classes)?;
    tell_by_classes(alloc, s, t, &state, classes.as_slice())
}

// The formula, by a state to which both lead. The class of a world is the world to which it leads; those of the
// second state come behind those of the first.
fn tell_by_classes(
    alloc: Global,
    s: &State,
    t: &State,
    q: &State,
    classes: &[u32],
) -> Result<Option<Apart>, OutOfMemory>
    requires joint { IsJoint s.now t.now q.now (λ w. slice_index classes.now (0 + w))
        (λ v. slice_index classes.now (s.now.worlds + v)) }
    requires long { length classes.now ≡ s.now.worlds + t.now.worlds }
    requires first { s.now.worlds ≤ MOST_TOLD }
    requires second { t.now.worlds ≤ MOST_TOLD }
    requires small { q.now.worlds ≤ MOST_JOINT }
    ensures same { IfOk result (λ o. (o ≡ None) ↔ Bisimilar s.now t.now) }
    ensures apart { IfOk result (λ o. IfSome o (TellsApart s.now t.now)) }
{
    let firsts = classes_of(alloc, classes, 0, s.designated())?;
    let seconds = classes_of(alloc, classes, s.worlds(), t.designated())?;
    if let Some(c) = missing(&firsts, &seconds) {
        let lines = told_from(alloc, q, c, &firsts, &seconds)?;
        let side = Side::First;
        return Ok(Some(Apart { side, lines }));
    }
    if let Some(c) = missing(&seconds, &firsts) {
        let lines = told_from(alloc, q, c, &seconds, &firsts)?;
        let side = Side::Second;
        return Ok(Some(Apart { side, lines }));
    }
    Ok(None)
}

// The classes of the worlds, whose numbers are greater by the shift.
fn classes_of(
    alloc: Global,
    classes: &[u32],
    shift: u32,
    worlds: &[u32],
) -> Result<Vec<u32>, OutOfMemory>
    requires within { All (λ w. shift + w < length classes.now) worlds.now }
    requires few { length classes.now ≤ MOST_JOINT }
    ensures { IfOk result (λ v. v.items ≡ map (λ w. slice_index classes.now (shift + w)) worlds.now) }
{
    let mut list = Vec::new(alloc);
    for w in worlds {
        list.push(classes[(shift + *w) as usize])?;
    }
    Ok(list)
}

// The first number of `xs` that is none of `ys`.
fn missing(xs: &[u32], ys: &[u32]) -> Option<u32>
    ensures { IsMissing xs.now ys.now result }
{
    for x in xs {
        if !ys.contains(x) {
            return Some(*x);
        }
    }
    None
}

// Lines whose formula is true at one of the worlds and false at the others, where `c` is such a world.
fn told_from(
    alloc: Global,
    q: &State,
    c: u32,
    xs: &[u32],
    others: &[u32],
) -> Result<List<Line>, OutOfMemory>
    requires apart { (x y : ℕ) → x < q.now.worlds → y < q.now.worlds → BisimilarWorlds q.now x q.now y → x ≡ y }
    requires small { q.now.worlds ≤ MOST_JOINT }
    requires worlds { All (λ x. x < q.now.worlds) xs.now }
    requires others { All (λ y. y < q.now.worlds) others.now }
    requires missing { IsMissing xs.now others.now (Some c) }
    ensures { IfOk result (AreTold q.now xs.now others.now) }
{
    q.known();
    let lines = told_by_table(alloc, q, c, xs, others)?;
    simplified(alloc, lines.as_slice())
}

// The lines as the table has them.
fn told_by_table(
    alloc: Global,
    q: &State,
    c: u32,
    xs: &[u32],
    others: &[u32],
) -> Result<List<Line>, OutOfMemory>
    requires apart { (x y : ℕ) → x < q.now.worlds → y < q.now.worlds → BisimilarWorlds q.now x q.now y → x ≡ y }
    requires small { q.now.worlds ≤ MOST_JOINT }
    requires worlds { All (λ x. x < q.now.worlds) xs.now }
    requires others { All (λ y. y < q.now.worlds) others.now }
    requires missing { IsMissing xs.now others.now (Some c) }
    ensures { IfOk result (AreTold q.now xs.now others.now) }
{
    let mut lines = List::new(alloc);
    let table = tell_worlds(alloc, q, &mut lines)?;
    let rows = table.as_slice();
    let best = nearest(rows, c, xs, others);
    let row = rows[best as usize].as_slice();
    match parts_of(alloc, row, others)? {
        Some(parts) => {
            let root = conjunction(&mut lines, parts)?;
            pruned(alloc, lines.as_slice(), root)
        }
        None => unreachable!(),
    }
}

// The one of the worlds `xs` that is told from the others in the earliest round; `c` is one of them that is none of
// the others.
fn nearest(table: &[List<Option<u32>>], c: u32, xs: &[u32], others: &[u32]) -> u32
    requires { IsMissing xs.now others.now (Some c) }
    ensures { IsMissing xs.now others.now (Some result) }
{
    let mut best = c;
    for x in xs {
        best = nearer(table, best, *x, others);
    }
    best
}

fn nearer(table: &[List<Option<u32>>], best: u32, x: u32, others: &[u32]) -> u32
    ensures { (result ≡ best) ⊎ ((result ≡ x) × (IsIn x others.now → ⊥)) }
{
    if others.contains(&x) {
        return best;
    }
    if latest(table, best, others) <= latest(table, x, others) {
        return best;
    }
    x
}

// The last of the lines that tell the world from the others. Lines of an earlier round come before those of a later one.
fn latest(table: &[List<Option<u32>>], x: u32, others: &[u32]) -> u32 {
    let mut last = 0;
    if let Some(row) = table.get(x as usize) {
        for y in others {
            last = last.max(told_in(row.as_slice(), *y));
        }
    }
    last
}

fn told_in(row: &[Option<u32>], y: u32) -> u32 {
    match row.get(y as usize) {
        Some(Some(line)) => *line,
        _ => 0,
    }
}
