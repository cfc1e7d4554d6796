// Worlds that are marked, each of which is opened once.

ghost use Rattle.std.specs.Prelude.{◌≡◌, ◌<◌, All, length, OnOk};
ghost use Rattle.ep_theory.specs.Rising.{IsIn};
ghost use Rattle.ep_refine.specs.Marking.{Marks, IsTarget};

use ep_kripke::State;
use ep_logic::{AgentId, Bits, OutOfMemory, WorldId};
use std::alloc::Global;

/// Marks the worlds, and opens those that were not marked.
pub fn mark(marked: &mut Bits, waiting: &mut Vec<u32>, worlds: &[u32]) -> Result<(), OutOfMemory>
    requires { All (λ w. w < length marked.old) worlds.now }
    ensures { OnOk result (Marks (λ v. IsIn v worlds.now) marked.old marked.new waiting.old.items waiting.new.items) }
{
    for w in worlds {
        if !marked.get(*w) {
            marked.set(*w, true);
            waiting.push(*w)?;
        }
    }
    Ok(())
}

/// Marks the worlds to which some agent links `w`.
pub fn mark_targets(
    alloc: Global,
    s: &State,
    w: WorldId,
    marked: &mut Bits,
    waiting: &mut Vec<u32>,
) -> Result<(), OutOfMemory>
    requires world { w.n < s.now.worlds }
    requires one_each { length marked.old ≡ s.now.worlds }
    ensures { OnOk result (Marks (IsTarget s.now w.n) marked.old marked.new waiting.old.items waiting.new.items) }
{
    let mut targets = Vec::new(alloc);
    for a in 0..s.agents() {
        s.read_targets(AgentId { n: a }, w, &mut targets)?;
        mark(marked, waiting, &targets)?;
    }
    Ok(())
}
