//! Commands.

use ep_bounds::{Bounds, Mode};

/// What the words ask for. Its files, plans and formula are the words themselves, in their places. `guide` is 0 for `depth`, 1
/// for `unmet` and 2 for `worlds`.
#[derive(Clone, Copy)]
pub enum Command {
    Plan {
        bounds: Bounds,
        guide: u32,
        mode: Mode,
    },
    Validate,
    Eval,
    State,
    Contract,
    Same,
    Check,
    /// The number of children is 1 to 8.
    Trial {
        children: u32,
    },
    Apart,
}

/// The words are those of no command.
#[derive(Clone, Copy)]
pub struct Usage {}
