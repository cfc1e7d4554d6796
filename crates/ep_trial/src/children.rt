//! The children, by their numbers.

ghost use Rattle.std.specs.Prelude.{◌≡◌, IfOk};
ghost use Rattle.ep_trial.specs.TrialText as spec;

use ep_base::OutOfMemory;
use std::alloc::Global;

#[tactic(auto, using(crate::proofs::ListLemmas::counting_more))]
pub(crate) fn everyone(alloc: Global, count: u32) -> Result<Vec<u32>, OutOfMemory>
    ensures { IfOk result (λ children. children.items ≡ spec.everyone count) }
{
    let mut children = Vec::new(alloc);
    for before in 0..count {
        children.push(before + 1)?;
    }
    Ok(children)
}

pub(crate) fn others(alloc: Global, children: &[u32], own: u32) -> Result<Vec<u32>, OutOfMemory>
    ensures { IfOk result (λ others. others.items ≡ spec.others children.now own) }
{
    Ok(
        children
            .iter()
            .copied()
            .filter(|other| *other != own)
            .collect(alloc)?,
    )
}
