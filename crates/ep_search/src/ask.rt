// What a guide is asked, and what waits after it.

ghost use Rattle.std.specs.Prelude.{◌≡◌, ℕ, ◌<◌, ◌≤◌, OnOk, length};
ghost use Rattle.ep_base.specs.Counts.{Rose};
ghost use Rattle.ep_guide.specs.Waitings.{placed};

use crate::progress::Progress;
use ep_guide::{Guide, View};
use ep_logic::{OutOfMemory, StateId};

// An entry of this weight, at whose state so many of the goal's parts are not true.
#[derive(Clone, Copy)]
pub struct Met {
    pub id: StateId,
    pub weight: u32,
    pub unmet: u32,
    pub parts: u32,
}

// Scores an entry, and pushes it. What a view calls the depth is the weight.
pub fn enqueue(guide: &mut Box<dyn Guide>, p: &mut Progress, met: Met) -> Result<(), OutOfMemory>
    requires { met.id.n < length p.old.store.entries }
    ensures pushed { OnOk result ((score : ℕ) × (p.new
        ≡ record p.old { frontier = placed (record { score = score; id = met.id }) p.old.frontier })) }
    ensures asked { Rose (asked guide.old) (asked guide.new) }
    ensures grows { asked guide.old ≤ asked guide.new }
{
    let state = p.store.get(met.id).state();
    let view = View {
        depth: met.weight,
        worlds: state.worlds(),
        designated: state.designated().len() as u32,
        unmet: met.unmet,
        parts: met.parts,
    };
    let score = guide.score(&view);
    p.frontier.push(score, met.id)?;
    Ok(())
}
