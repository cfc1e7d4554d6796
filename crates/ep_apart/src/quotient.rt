// The quotient of a state by bisimilarity.

ghost use Rattle.std.specs.Prelude.{◌≡◌, ℕ, ◌<◌, ◌≤◌, ◌↔◌, length, replicate, true, slice_index, IfOk};
ghost use Rattle.ep_kripke.specs.declared.limits.TheConstants.{MOST_WORLDS};
ghost use Rattle.ep_theory.specs.Kripke.{IsState};
ghost use Rattle.ep_theory.specs.Bisimulation.{BisimilarWorlds};
ghost use Rattle.ep_theory.specs.Image.{IsImage};
ghost use Rattle.ep_refine.specs.Numbering.{AreNumbers};
ghost use Rattle.ep_apart.specs.Classes.{StandFor};

use ep_kripke::State;
use ep_logic::{Bits, OutOfMemory};
use ep_refine::{ClassList, image};
use std::alloc::Global;

/// One world for each class of bisimilar worlds.
pub fn quotient(alloc: Global, s: &State, classes: &ClassList) -> Result<State, OutOfMemory>
    requires one_each { length classes.now ≡ s.now.worlds }
    requires bisimilar { (w v : ℕ) → w < s.now.worlds → v < s.now.worlds →
        (slice_index classes.now w ≡ slice_index classes.now v) ↔ BisimilarWorlds s.now w s.now v }
    ensures image { IfOk result (IsImage s.now (λ _. true) (slice_index classes.now)) }
    ensures valid { IfOk result IsState }
    ensures fewer { IfOk result (λ q. q.worlds ≤ s.now.worlds) }
{
    let keep = all_kept(alloc, s.worlds())?;
    let chosen = one_of_each(alloc, classes.as_slice(), classes.count())?;
    image(alloc, s, &keep, classes.as_slice(), &chosen)
}

fn all_kept(alloc: Global, count: u32) -> Result<Bits, OutOfMemory>
    ensures { IfOk result (λ row. row ≡ replicate count true) }
{
    let mut row = Bits::zeros(alloc, count)?;
    for w in 0..count {
        row.set(w, true);
    }
    Ok(row)
}

// A world of each class.
fn one_of_each(alloc: Global, classes: &[u32], count: u32) -> Result<Vec<u32>, OutOfMemory>
    requires used { AreNumbers classes.now count }
    requires few { length classes.now ≤ MOST_WORLDS }
    ensures long { IfOk result (λ v. length v.items ≡ count) }
    ensures each { IfOk result (λ v. (c : ℕ) → c < count → StandFor classes.now v.items c) }
{
    let mut chosen = vec![in alloc; 0u32; count as usize]?;
    for w in 0..classes.len() {
        chosen[classes[w] as usize] = w as u32;
    }
    Ok(chosen)
}
