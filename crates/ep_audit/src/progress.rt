//! What the lines of a certificate have told so far.

use ep_kripke::State;
use ep_logic::List;

/// The line that comes next. `pair` is the place of an entry and an action, entry by entry.
#[derive(Clone, Copy, Debug, PartialEq, Eq)]
pub enum DueLine {
    Version,
    Task,
    Bound,
    Count,
    Entry,
    Start,
    Step { pair: u32 },
    End,
    Nothing,
}

/// The bound and the number of entries, once they were told; the entries so far, each a state with its weight; and the
/// line that comes next.
#[derive(Drop)]
pub struct Progress {
    pub bound: u32,
    pub count: u32,
    pub entries: List<(State, u32)>,
    pub due: DueLine,
}
