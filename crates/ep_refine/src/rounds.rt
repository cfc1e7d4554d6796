// The parts of a refinement by a worklist: the first blocks, and one round.

ghost use Rattle.std.specs.Prelude.{◌≡◌, ℕ, ◌+◌, ◌*◌, ◌<◌, ◌≤◌, ◌^◌, ◌++◌, ◌⊎◌, true, false, length, map, slice_index, IfOk, OnOk, List, MatchOption, vec_len};
ghost use Rattle.ep_theory.specs.Rising.{IsIn};
ghost use Rattle.ep_theory.specs.Kripke.{IsState};
ghost use Rattle.ep_theory.specs.Ranks.{RanksAt, signature};
ghost use Rattle.ep_kripke.specs.States.{IsBounded};
ghost use Rattle.ep_refine.specs.Touching.{is_listed, Listed};
ghost use Rattle.ep_refine.specs.Blocks.{AreBlocks, rank_of, start_of, end_of};
ghost use Rattle.ep_refine.specs.Groups.{IsWithin, AreDistinct};
ghost use Rattle.ep_refine.specs.Rounds.{RestAlike, AreRests, AreSpans, IsAlone, IsRound, Seen};

use crate::blocks::{Blocks, end, rank, start, world_at};
use crate::leaving::leave;
use crate::numbering::{Grouped, group_worlds, with_places};
use crate::signing::{sign_these, truth_rows};
use crate::split::split;
use crate::touching::{Touched, note};
use ep_kripke::State;
use ep_logic::{AgentId, Bits, List, OutOfMemory, Steps, WorldId};
use std::alloc::Global;
use std::sync::ledger::Ledger;

/// All worlds in one block.
fn one_block(alloc: Global, s: &State) -> Result<Blocks, OutOfMemory>
    ensures valid { IfOk result (AreBlocks s.now.worlds) }
    ensures one { IfOk result (λ b. (u v : ℕ) → u < s.now.worlds → v < s.now.worlds → rank_of b u ≡ rank_of b v) }
    ensures state { IsState s.now }
{
    let n = s.worlds();
    let mut order = Vec::new(alloc);
    let mut place = Vec::new(alloc);
    for w in 0..n {
        order.push(w)?;
        place.push(w)?;
    }
    let ranks = vec![in alloc; n / 2; n as usize]?;
    let starts = vec![in alloc; 0u32; n as usize]?;
    let ends = vec![in alloc; n; n as usize]?;
    Ok(Blocks {
        order,
        place,
        ranks,
        starts,
        ends,
    })
}

/// The blocks of worlds of equal truth lists.
pub fn by_truth(alloc: Global, s: &State, all: &Touched) -> Result<Blocks, OutOfMemory>
    requires listed { Listed s.now.worlds all.now.left all.now.worlds.items }
    requires all { (w : ℕ) → w < s.now.worlds → is_listed all.now.left w ≡ true }
    ensures valid { IfOk result (AreBlocks s.now.worlds) }
    ensures ordered { IfOk result (λ b. RanksAt s.now 0 (rank_of b)) }
{
    let mut b = one_block(alloc, s)?;
    let keyed = with_places(alloc, truth_rows(alloc, s)?)?;
    let Grouped { worlds, groups } = group_worlds(alloc, keyed)?;
    split(&mut b, &worlds, &groups, &all.left);
    Ok(b)
}

// A world of the block of a world that is left.
fn left_in(b: &Blocks, left: &Bits, w: u32) -> Option<u32>
    requires valid { AreBlocks (length b.now.order.items) b.now }
    requires world { w < length b.now.order.items }
    requires marks { length left.now ≡ length b.now.order.items }
    ensures { MatchOption result
        ((u : ℕ) → u < length b.now.order.items → rank_of b.now u ≡ rank_of b.now w → is_listed left.now u ≡ true)
        (λ r. (r < length b.now.order.items) × (is_listed left.now r ≡ false) × (rank_of b.now r ≡ rank_of b.now w)) }
{
    let from = start(b, w);
    let to = end(b, w);
    for p in from..to {
        let r = world_at(b, p);
        if left.get(r) {
            return Some(r);
        }
    }
    None
}

// Lists a world unless it is alone in its block.
fn note_crowded(b: &Blocks, w: u32, left: &mut Bits, list: &mut Vec<u32>) -> Result<(), OutOfMemory>
    requires valid { AreBlocks (length b.now.order.items) b.now }
    requires world { w < length b.now.order.items }
    requires marks { length left.old ≡ length b.now.order.items }
    requires listed { Listed (length left.old) left.old list.old.items }
    ensures listed { OnOk result (Listed (length left.old) left.new list.new.items) }
    ensures keeps { OnOk result ((u : ℕ) → IsIn u list.old.items → IsIn u list.new.items) }
    ensures adds { OnOk result (IsIn w list.new.items ⊎ IsAlone b.now w) }
    ensures few { OnOk result (length list.new.items ≤ length list.old.items + 1) }
{
    if end(b, w) - start(b, w) == 1 {
        return Ok(());
    }
    note(left, list, w)?;
    Ok(())
}

// The touched worlds that are not alone in their blocks. What is alone is not signed.
fn crowded(alloc: Global, b: &Blocks, touched: &Touched) -> Result<Touched, OutOfMemory>
    requires valid { AreBlocks (length b.now.order.items) b.now }
    requires listed { Listed (length b.now.order.items) touched.now.left touched.now.worlds.items }
    ensures listed { IfOk result (λ t. Listed (length b.now.order.items) t.left t.worlds.items) }
    ensures all { IfOk result (λ t. (u : ℕ) → IsIn u touched.now.worlds.items → IsIn u t.worlds.items ⊎ IsAlone b.now u) }
    ensures few { IfOk result (λ t. length t.worlds.items ≤ length touched.now.worlds.items) }
{
    let mut left = Bits::ones(alloc, touched.left.len())?;
    let mut list = Vec::new(alloc);
    for w in &touched.worlds {
        note_crowded(b, *w, &mut left, &mut list)?;
    }
    Ok(Touched { left, worlds: list })
}

// For each block with a touched world one world that is not, if there is one, and the places of the block.
#[derive(Debug, Drop)]
struct Rests {
    worlds: Vec<u32>,
    spans: Vec<(u32, u32)>,
}

// Looks at the block of one more touched world, unless its rank was seen.
fn visit(
    b: &Blocks,
    left: &Bits,
    w: u32,
    unseen: &mut Bits,
    rests: &mut Vec<u32>,
    spans: &mut Vec<(u32, u32)>,
) -> Result<(), OutOfMemory>
    requires valid { AreBlocks (length b.now.order.items) b.now }
    requires world { w < length b.now.order.items }
    requires marks { length left.now ≡ length b.now.order.items }
    requires ranks { length unseen.old ≡ length b.now.order.items }
    ensures seen { OnOk result ((ws : List ℕ) (i : ℕ) → slice_index ws i ≡ w →
        Seen (length b.now.order.items) b.now left.now ws unseen.old rests.old.items spans.old.items i →
        Seen (length b.now.order.items) b.now left.now ws unseen.new rests.new.items spans.new.items (i + 1)) }
{
    let block = rank(b, w);
    if !unseen.get(block) {
        return Ok(());
    }
    unseen.set(block, false);
    spans.push((start(b, w), end(b, w)))?;
    match left_in(b, left, w) {
        Some(r) => {
            rests.push(r)?;
            Ok(())
        }
        None => Ok(()),
    }
}

fn find_rests(alloc: Global, b: &Blocks, touched: &Touched) -> Result<Rests, OutOfMemory>
    requires valid { AreBlocks (length b.now.order.items) b.now }
    requires listed { Listed (length b.now.order.items) touched.now.left touched.now.worlds.items }
    ensures rests { IfOk result (λ r. AreRests (length b.now.order.items) b.now touched.now.left touched.now.worlds.items r.worlds.items) }
    ensures spans { IfOk result (λ r. AreSpans b.now touched.now.worlds.items r.spans.items) }
    ensures few { IfOk result (λ r. length r.worlds.items ≤ length touched.now.worlds.items) }
{
    let mut unseen = Bits::ones(alloc, touched.left.len())?;
    let mut worlds = Vec::new(alloc);
    let mut spans = Vec::new(alloc);
    for w in &touched.worlds {
        visit(b, &touched.left, *w, &mut unseen, &mut worlds, &mut spans)?;
    }
    Ok(Rests { worlds, spans })
}

fn joined(alloc: Global, xs: &[u32], ys: &[u32]) -> Result<Vec<u32>, OutOfMemory>
    ensures { IfOk result (λ v. v.items ≡ xs.now ++ ys.now) }
{
    let mut all = Vec::from_slice(alloc, xs)?;
    all.extend_from_slice(ys)?;
    Ok(all)
}

/// One round: signs the touched worlds that are not alone in their blocks, and one other world of each of these blocks, splits the blocks by the
/// signatures, and gives the worlds that moved to pieces that are not kept.
pub fn round<L: Ledger>(
    alloc: Global,
    s: &State,
    b: &mut Blocks,
    touched: &Touched,
    slots: &mut Vec<u32>,
    steps: &mut Steps<L>,
) -> Result<Vec<u32>, OutOfMemory>
    requires state { IsState s.now }
    requires valid { AreBlocks s.now.worlds b.old }
    requires listed { Listed s.now.worlds touched.now.left touched.now.worlds.items }
    requires rest { RestAlike s.now (rank_of b.old) touched.now.left }
    ensures round { IfOk result (λ moved. IsRound s.now b.old b.new moved.items) }
    ensures few { steps.new ≤ steps.old + 2 * length touched.now.worlds.items }
    ensures all { steps.new ≤ steps.old + s.now.worlds }
{
    let touched = crowded(alloc, b, touched)?;
    let Rests {
        worlds: rests,
        spans,
    } = find_rests(alloc, b, &touched)?;
    let worlds = joined(alloc, &touched.worlds, &rests)?;
    let signed = sign_these(alloc, s, &b.ranks, &worlds, slots, steps)?;
    let Grouped { worlds, groups } = group_worlds(alloc, signed)?;
    split(b, &worlds, &groups, &touched.left);
    let moved = leave(alloc, b, &spans)?;
    Ok(moved)
}
