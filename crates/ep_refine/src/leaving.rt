// The pieces of the blocks that were split: one largest piece of each is kept, and the worlds of the others moved.

ghost use Rattle.std.specs.Prelude.{◌≡◌, ℕ, ◌+◌, ◌*◌, ◌<◌, ◌≤◌, ◌⊎◌, length, slice_index, slice_index_or, IfOk, OnOk};
ghost use Rattle.ep_theory.specs.Rising.{IsIn};
ghost use Rattle.ep_refine.specs.Blocks.{AreBlocks, rank_of, start_of, end_of};
ghost use Rattle.ep_refine.specs.Groups.{IsWithin, AreDistinct};
ghost use Rattle.ep_refine.specs.Touching.{Listed, Adds};
ghost use Rattle.ep_refine.specs.Rounds.{size_of, IsClosed, IsSpan, Leaves, AreLeft};

use crate::blocks::{Blocks, end, start, world_at};
use crate::touching::note;
use ep_logic::{Bits, OutOfMemory};
use std::alloc::Global;

// How many worlds the block of a world has.
fn size(b: &Blocks, w: u32) -> u32
    requires valid { AreBlocks (length b.now.order.items) b.now }
    requires world { w < length b.now.order.items }
    ensures { result ≡ size_of b.now w }
{
    end(b, w) - start(b, w)
}

// Which of two places has the larger block.
fn larger(b: &Blocks, p: u32, q: u32) -> u32
    requires valid { AreBlocks (length b.now.order.items) b.now }
    requires first { p < length b.now.order.items }
    requires second { q < length b.now.order.items }
    ensures one { (result ≡ p) ⊎ (result ≡ q) }
    ensures first { size_of b.now (slice_index b.now.order.items p) ≤ size_of b.now (slice_index b.now.order.items result) }
    ensures second { size_of b.now (slice_index b.now.order.items q) ≤ size_of b.now (slice_index b.now.order.items result) }
{
    if size(b, world_at(b, p)) < size(b, world_at(b, q)) {
        q
    } else {
        p
    }
}

// The place of a world of a largest block between two places.
fn largest(b: &Blocks, from: u32, to: u32) -> u32
    requires valid { AreBlocks (length b.now.order.items) b.now }
    requires some { from < to }
    requires inside { to ≤ length b.now.order.items }
    requires closed { IsClosed b.now from to }
    ensures from { from ≤ result }
    ensures to { result < to }
    ensures largest { (p : ℕ) → from ≤ p → p < to →
        size_of b.now (slice_index b.now.order.items p) ≤ size_of b.now (slice_index b.now.order.items result) }
{
    let mut best = from;
    let mut p = from;
    while p < to {
        best = larger(b, best, p);
        p = end(b, world_at(b, p));
    }
    best
}

// Lists the worlds between two places.
fn note_places(
    b: &Blocks,
    from: u32,
    to: u32,
    left: &mut Bits,
    moved: &mut Vec<u32>,
) -> Result<(), OutOfMemory>
    requires valid { AreBlocks (length b.now.order.items) b.now }
    requires rising { from ≤ to }
    requires inside { to ≤ length b.now.order.items }
    requires marks { length left.old ≡ length b.now.order.items }
    requires listed { Listed (length left.old) left.old moved.old.items }
    ensures listed { OnOk result (Listed (length left.old) left.new moved.new.items) }
    ensures adds { OnOk result (Adds (λ u. (u < length b.now.order.items) × (from ≤ slice_index b.now.place.items u) ×
        (slice_index b.now.place.items u < to)) moved.old.items moved.new.items) }
{
    for p in from..to {
        note(left, moved, world_at(b, p))?;
    }
    Ok(())
}

// Lists the worlds between two places that are not in one largest block there.
fn leave_span(
    b: &Blocks,
    from: u32,
    to: u32,
    left: &mut Bits,
    moved: &mut Vec<u32>,
) -> Result<(), OutOfMemory>
    requires valid { AreBlocks (length b.now.order.items) b.now }
    requires some { from < to }
    requires inside { to ≤ length b.now.order.items }
    requires closed { IsClosed b.now from to }
    requires marks { length left.old ≡ length b.now.order.items }
    requires listed { Listed (length left.old) left.old moved.old.items }
    ensures listed { OnOk result (Listed (length left.old) left.new moved.new.items) }
    ensures leaves { OnOk result (Leaves b.now from to moved.old.items moved.new.items) }
{
    let kept = world_at(b, largest(b, from, to));
    note_places(b, from, start(b, kept), left, moved)?;
    note_places(b, end(b, kept), to, left, moved)?;
    Ok(())
}

/// The worlds that moved to pieces that are not kept, where the spans are the places of the blocks before they split.
pub fn leave(alloc: Global, b: &Blocks, spans: &[(u32, u32)]) -> Result<Vec<u32>, OutOfMemory>
    requires valid { AreBlocks (length b.now.order.items) b.now }
    requires spans { (k : ℕ) → k < length spans.now → IsSpan (length b.now.order.items) b.now (slice_index_or spans.now k (0, 0)) }
    ensures within { IfOk result (λ moved. IsWithin (length b.now.order.items) moved.items) }
    ensures distinct { IfOk result (λ moved. AreDistinct moved.items) }
    ensures left { IfOk result (λ moved. AreLeft b.now spans.now moved.items) }
{
    let mut left = Bits::ones(alloc, b.order.len() as u32)?;
    let mut moved = Vec::new(alloc);
    for (from, to) in spans {
        leave_span(b, *from, *to, &mut left, &mut moved)?;
    }
    Ok(moved)
}
