// Blocks that are split at the groups of a sorted list of worlds.

ghost use Rattle.std.specs.Prelude.{◌≡◌, ◌≢◌, ℕ, ◌+◌, ◌<◌, ◌≤◌, true, false, length, slice_index, MatchBool};
ghost use Rattle.std.specs.Ordering.{nat_cmp};
ghost use Rattle.ep_refine.specs.Blocks.{AreBlocks, rank_of, start_of, end_of};
ghost use Rattle.ep_refine.specs.Touching.{is_listed};
ghost use Rattle.ep_refine.specs.Groups.{Suits, Agrees, AreDistinct, IsWithin, Turned, Refined};

use crate::blocks::{Blocks, cut, rank};
use ep_logic::Bits;

// Where the group ends that begins at a place.
fn group_end(groups: &[u32], i: usize) -> usize
    requires { i < length groups.now }
    ensures from { i < result }
    ensures to { result ≤ length groups.now }
    ensures these { (k : ℕ) → i ≤ k → k < result → slice_index groups.now k ≡ slice_index groups.now i }
    ensures next { result < length groups.now → slice_index groups.now result ≢ slice_index groups.now i }
{
    let mut end = i + 1;
    while end < groups.len() && groups[end] == groups[i] {
        end += 1;
    }
    end
}

// Where the worlds end, from a place on, that are in one block with the world at place i.
fn block_end(b: &Blocks, worlds: &[u32], i: usize, from: usize) -> usize
    requires valid { AreBlocks (length b.now.order.items) b.now }
    requires within { IsWithin (length b.now.order.items) worlds.now }
    requires inside { i < length worlds.now }
    requires from { from ≤ length worlds.now }
    ensures from { from ≤ result }
    ensures to { result ≤ length worlds.now }
    ensures these { (k : ℕ) → from ≤ k → k < result →
        rank_of b.now (slice_index worlds.now k) ≡ rank_of b.now (slice_index worlds.now i) }
    ensures next { result < length worlds.now →
        rank_of b.now (slice_index worlds.now result) ≢ rank_of b.now (slice_index worlds.now i) }
{
    let mut end = from;
    while end < worlds.len() && rank(b, worlds[end]) == rank(b, worlds[i]) {
        end += 1;
    }
    end
}

// Whether each of these worlds is listed.
fn all_listed(left: &Bits, worlds: &[u32]) -> bool
    requires { IsWithin (length left.now) worlds.now }
    ensures { MatchBool result
        ((k : ℕ) → k < length worlds.now → is_listed left.now (slice_index worlds.now k) ≡ true)
        ((k : ℕ) × (k < length worlds.now) × (is_listed left.now (slice_index worlds.now k) ≡ false)) }
{
    for w in worlds {
        if left.get(*w) {
            return false;
        }
    }
    true
}

// Splits the block of the group from i to j off from the groups behind it, if there are any in the block.
fn split_group(b: &mut Blocks, worlds: &[u32], i: usize, j: usize, left: &Bits)
    requires valid { AreBlocks (length b.old.order.items) b.old }
    requires within { IsWithin (length b.old.order.items) worlds.now }
    requires marks { length left.now ≡ length b.old.order.items }
    requires distinct { AreDistinct worlds.now }
    requires some { i < j }
    requires inside { j ≤ length worlds.now }
    requires group { (k : ℕ) → i ≤ k → k < j →
        rank_of b.old (slice_index worlds.now k) ≡ rank_of b.old (slice_index worlds.now i) }
    ensures valid { AreBlocks (length b.old.order.items) b.new }
    ensures from { (u : ℕ) → u < length b.old.order.items → start_of b.old u ≤ start_of b.new u }
    ensures to { (u : ℕ) → u < length b.old.order.items → end_of b.new u ≤ end_of b.old u }
    ensures split { (first g : ℕ → ℕ) (t : ℕ) → Suits (length b.old.order.items) first g (is_listed left.now) worlds.now →
        Turned g worlds.now t i →
        ((k : ℕ) → i ≤ k → k < j → g (slice_index worlds.now k) ≡ g (slice_index worlds.now i)) →
        (j < length worlds.now → g (slice_index worlds.now j) ≢ g (slice_index worlds.now i)) →
        Refined (length b.old.order.items) first g (rank_of b.old) t →
        Refined (length b.old.order.items) first g (rank_of b.new) (g (slice_index worlds.now i) + 1) }
{
    if j == worlds.len() || rank(b, worlds[j]) != rank(b, worlds[i]) {
        return;
    }
    if all_listed(left, &worlds[i..j]) {
        cut(b, &worlds[i..j], true);
        return;
    }
    let end = block_end(b, worlds, i, j);
    cut(b, &worlds[j..end], false);
}

/// Splits the blocks at the groups of the listed worlds. A world that is left stays where it is, with the group of
/// a world of the list of its block that is left.
pub fn split(b: &mut Blocks, worlds: &[u32], groups: &[u32], left: &Bits)
    requires valid { AreBlocks (length b.old.order.items) b.old }
    requires within { IsWithin (length b.old.order.items) worlds.now }
    requires marks { length left.now ≡ length b.old.order.items }
    requires distinct { AreDistinct worlds.now }
    requires one_each { length groups.now ≡ length worlds.now }
    requires some { (g : ℕ → ℕ) × Suits (length b.old.order.items) (rank_of b.old) g (is_listed left.now) worlds.now ×
        Agrees g groups.now worlds.now }
    ensures valid { AreBlocks (length b.old.order.items) b.new }
    ensures from { (u : ℕ) → u < length b.old.order.items → start_of b.old u ≤ start_of b.new u }
    ensures to { (u : ℕ) → u < length b.old.order.items → end_of b.new u ≤ end_of b.old u }
    ensures ordered { (g : ℕ → ℕ) → Suits (length b.old.order.items) (rank_of b.old) g (is_listed left.now) worlds.now →
        Agrees g groups.now worlds.now → (u v : ℕ) → u < length b.old.order.items → v < length b.old.order.items →
        nat_cmp (rank_of b.new u) (rank_of b.new v) ≡ nat_cmp (g u) (g v) }
{
    let mut i = 0;
    while i < worlds.len() {
        let j = group_end(groups, i);
        split_group(b, worlds, i, j, left);
        i = j;
    }
}
