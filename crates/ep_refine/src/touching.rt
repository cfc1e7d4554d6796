// Worlds that are listed once: those that moved, and those with a link to one that moved.

ghost use Rattle.std.specs.Prelude.{◌≡◌, ℕ, ◌+◌, ◌<◌, ◌≤◌, ◌↔◌, true, [], length, IfOk, OnOk};
ghost use Rattle.ep_theory.specs.Rising.{IsIn};
ghost use Rattle.ep_kripke.specs.Sources.{row_at};
ghost use Rattle.ep_refine.specs.Groups.{IsWithin};
ghost use Rattle.ep_refine.specs.Touching.{is_listed, Listed, Adds, InSome, LinksToSome};
ghost use Rattle.ep_refine.specs.Backward.{IsShaped, AreBackward};

use crate::backward::Backward;
use ep_kripke::State;
use ep_logic::{Bits, OutOfMemory};
use std::alloc::Global;

/// Worlds in a list and in a row, which is true at the worlds that are left.
#[derive(Debug, Drop)]
pub struct Touched {
    pub left: Bits,
    pub worlds: Vec<u32>,
}

/// Lists a world that is not listed yet.
pub fn note(left: &mut Bits, list: &mut Vec<u32>, w: u32) -> Result<(), OutOfMemory>
    requires listed { Listed (length left.old) left.old list.old.items }
    requires within { w < length left.old }
    ensures listed { OnOk result (Listed (length left.old) left.new list.new.items) }
    ensures adds { OnOk result (Adds (λ u. u ≡ w) list.old.items list.new.items) }
    ensures few { OnOk result (length list.new.items ≤ length list.old.items + 1) }
{
    if left.get(w) {
        left.set(w, false);
        list.push(w)?;
    }
    Ok(())
}

// The rows that have one of the worlds.
fn touched_rows(alloc: Global, back: &Backward, moved: &[u32]) -> Result<Vec<u32>, OutOfMemory>
    requires shaped { IsShaped (length back.now.holders) back.now }
    requires moved { IsWithin (length back.now.holders) moved.now }
    ensures { IfOk result (λ rows. Adds (InSome (row_at back.now.holders) moved.now) [] rows.items) }
{
    let mut left = Bits::ones(alloc, back.count)?;
    let mut rows = Vec::new(alloc);
    for v in moved {
        back.holders.take_out(*v, &mut left, &mut rows)?;
    }
    Ok(rows)
}

// Lists the worlds that have one of the rows.
fn touch_users(back: &Backward, rows: &[u32], touched: &mut Touched) -> Result<(), OutOfMemory>
    requires shaped { IsShaped (length touched.old.left) back.now }
    requires rows { IsWithin back.now.count rows.now }
    requires listed { Listed (length touched.old.left) touched.old.left touched.old.worlds.items }
    ensures listed { OnOk result (Listed (length touched.old.left) touched.new.left touched.new.worlds.items) }
    ensures adds { OnOk result (Adds (InSome (row_at back.now.users) rows.now) touched.old.worlds.items touched.new.worlds.items) }
{
    for r in rows {
        back.users
            .take_out(*r, &mut touched.left, &mut touched.worlds)?;
    }
    Ok(())
}

/// The worlds with a link to one of the worlds that moved.
pub fn touch(
    alloc: Global,
    s: &State,
    backward: &[Backward],
    moved: &[u32],
) -> Result<Touched, OutOfMemory>
    requires back { AreBackward s.now backward.now }
    requires moved { IsWithin s.now.worlds moved.now }
    ensures listed { IfOk result (λ t. Listed s.now.worlds t.left t.worlds.items) }
    ensures touched { IfOk result (λ t. (w : ℕ) → IsIn w t.worlds.items ↔ LinksToSome s.now moved.now w) }
{
    let mut touched = no_worlds(alloc, s.worlds())?;
    for a in 0..s.agents() {
        let back = &backward[a as usize];
        let rows = touched_rows(alloc, back, moved)?;
        touch_users(back, &rows, &mut touched)?;
    }
    Ok(touched)
}

fn no_worlds(alloc: Global, worlds: u32) -> Result<Touched, OutOfMemory>
    ensures listed { IfOk result (λ t. Listed worlds t.left t.worlds.items) }
    ensures none { IfOk result (λ t. t.worlds.items ≡ []) }
{
    Ok(Touched {
        left: Bits::ones(alloc, worlds)?,
        worlds: Vec::new(alloc),
    })
}

/// All worlds.
pub fn all_worlds(alloc: Global, worlds: u32) -> Result<Touched, OutOfMemory>
    ensures listed { IfOk result (λ t. Listed worlds t.left t.worlds.items) }
    ensures all { IfOk result (λ t. (w : ℕ) → w < worlds → is_listed t.left w ≡ true) }
{
    let mut left = Bits::ones(alloc, worlds)?;
    let mut list = Vec::new(alloc);
    for w in 0..worlds {
        note(&mut left, &mut list, w)?;
    }
    Ok(Touched { left, worlds: list })
}
