// What a search is set to.

use ep_bounds::{Bounds, Mode};
use ep_logic::{Formula, List};

// Bounds and a mode, and the parts of the goal, which a guide is told of.
#[derive(Drop)]
pub struct Setting {
    pub bounds: Bounds,
    pub mode: Mode,
    pub parts: List<Formula>,
}
