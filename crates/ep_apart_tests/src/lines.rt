// What a list of lines says at the worlds of a state, and whether it is in the form that is promised.

use ep_apart::Line;
use ep_kripke::State;
use ep_logic::{AgentId, AtomId, OutOfMemory, WorldId};
use std::alloc::Global;
use std::process::Abort;

/// A line as the tests write it.
#[derive(Clone, Copy)]
pub enum Wanted<'a> {
    True,
    Atom(u32),
    Not(u32),
    And(&'a [u32]),
    Knows(u32, u32),
}

// Whether the line of a number is true at a world, by the rows of the lines so far.
fn at(rows: &[Vec<bool>], number: u32, w: u32) -> bool {
    match rows.get(number as usize) {
        Some(row) => row.get(w as usize) == Some(&true),
        None => false,
    }
}

fn holds(
    rt: &impl Abort,
    s: &State,
    rows: &[Vec<bool>],
    line: &Line,
    w: u32,
    targets: &mut Vec<u32>,
) -> Result<bool, OutOfMemory> {
    assert!(rt; w < s.worlds());
    let world = WorldId { n: w };
    match line {
        Line::True => Ok(true),
        Line::Atom(p) => {
            assert!(rt; p.n < s.atoms());
            Ok(s.holds_atom(world, AtomId { n: p.n }))
        }
        Line::Not(i) => Ok(!at(rows, *i, w)),
        Line::And(parts) => Ok(parts.as_slice().iter().all(|i| at(rows, *i, w))),
        Line::Knows(a, i) => {
            assert!(rt; a.n < s.agents());
            s.read_targets(AgentId { n: a.n }, world, targets)?;
            Ok(targets.iter().all(|v| at(rows, *i, *v)))
        }
    }
}

// For each line the worlds where it is true.
fn rows_of(
    rt: &impl Abort,
    alloc: Global,
    s: &State,
    lines: &[Line],
) -> Result<Vec<Vec<bool>>, OutOfMemory> {
    let mut targets = Vec::new(alloc);
    let mut rows: Vec<Vec<bool>> = Vec::new(alloc);
    for line in lines {
        let mut row = Vec::new(alloc);
        for w in 0..s.worlds() {
            row.push(holds(rt, s, &rows, line, w, &mut targets)?)?;
        }
        rows.push(row)?;
    }
    Ok(rows)
}

/// How many designated worlds the last line is true at.
pub fn true_at(
    rt: &impl Abort,
    alloc: Global,
    s: &State,
    lines: &[Line],
) -> Result<usize, OutOfMemory> {
    let rows = rows_of(rt, alloc, s, lines)?;
    let mut found = 0;
    if let Some(row) = rows.last() {
        for w in s.designated() {
            if row.get(*w as usize) == Some(&true) && found < 100 {
                found += 1;
            }
        }
    }
    Ok(found)
}

fn is_wanted(line: &Line, wanted: Wanted<'_>) -> bool {
    match (line, wanted) {
        (Line::True, Wanted::True) => true,
        (Line::Atom(p), Wanted::Atom(q)) => p.n == q,
        (Line::Not(i), Wanted::Not(j)) => *i == j,
        (Line::And(parts), Wanted::And(js)) => parts.as_slice() == js,
        (Line::Knows(a, i), Wanted::Knows(b, j)) => a.n == b && *i == j,
        _ => false,
    }
}

pub fn are_wanted(lines: &[Line], wanted: &[Wanted<'_>]) -> bool {
    lines.len() == wanted.len()
        && lines
            .iter()
            .zip(wanted.iter())
            .all(|(line, want)| is_wanted(line, *want))
}
