// Refinement in rounds. In each round the worlds are signed that have a link to a world that moved, in the round
// before, to a piece that was not kept, and one other world of each of their blocks.

ghost use Rattle.std.specs.Prelude.{◌≡◌, ℕ, ◌+◌, ◌*◌, ◌<◌, ◌≤◌, ◌^◌, true, false, length, slice_index, IfOk};
ghost use Rattle.ep_theory.specs.Rising.{IsIn};
ghost use Rattle.ep_theory.specs.Kripke.{IsState};
ghost use Rattle.ep_theory.specs.Ranks.{RanksAt};
ghost use Rattle.ep_kripke.specs.States.{IsBounded};
ghost use Rattle.ep_refine.specs.Touching.{is_listed, Listed};
ghost use Rattle.ep_refine.specs.Bound.{FewSigned};
ghost use Rattle.ep_refine.specs.Blocks.{AreBlocks, rank_of};
ghost use Rattle.ep_refine.specs.Groups.{IsWithin};
ghost use Rattle.ep_refine.specs.Rounds.{RestAlike, IsRound};

use crate::backward::all_backward;
use crate::blocks::Blocks;
use crate::rounds::{by_truth, round};
use crate::touching::{all_worlds, touch};
use ep_kripke::State;
use ep_logic::{OutOfMemory, Steps};
use std::alloc::Global;
use std::sync::ledger::Ledger;

/// The blocks of worlds of equal kinds, in the order of their kinds at the level of the number of worlds.
pub fn refined<L: Ledger>(
    alloc: Global,
    s: &State,
    steps: &mut Steps<L>,
) -> Result<Blocks, OutOfMemory>
    ensures valid { IfOk result (AreBlocks s.now.worlds) }
    ensures ordered { IfOk result (λ b. RanksAt s.now s.now.worlds (rank_of b)) }
    ensures few { FewSigned s.now steps.old steps.new }
    ensures state { IsState s.now }
    ensures bounded { IsBounded s.now }
{
    let worlds = s.worlds();
    let backward = all_backward(alloc, s)?;
    let all = all_worlds(alloc, worlds)?;
    let mut blocks = by_truth(alloc, s, &all)?;
    let mut slots = Vec::new(alloc);
    let mut moved = round(alloc, s, &mut blocks, &all, &mut slots, steps)?;
    for _level in 1..worlds {
        if moved.is_empty() {
            return Ok(blocks);
        }
        let touched = touch(alloc, s, backward.as_slice(), &moved)?;
        moved = round(alloc, s, &mut blocks, &touched, &mut slots, steps)?;
    }
    Ok(blocks)
}
