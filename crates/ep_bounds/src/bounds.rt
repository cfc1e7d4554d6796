// The bounds of a search, its mode, and what plans are measured by.

/// The greatest bound on what plans measure.
pub const MOST_BOUND: u32 = 1000;

/// The most states that a store may be bounded to.
pub const MOST_STATES: u32 = 16_384;

/// The most worlds that a contraction may be bounded to.
pub const MOST_WORLDS: u32 = 256;

/// The greatest cost of an action. The least is 1.
pub const MOST_COST: u32 = 100;

/// The most actions of a plan that is printed or read.
pub const MOST_PLAN_ACTIONS: u32 = 262_144;

/// What a plan is measured by: its number of actions, or the sum of their costs.
#[derive(Clone, Copy, Debug, PartialEq, Eq)]
pub enum Measure {
    Length,
    Cost,
}

/// How far a search goes: `bound` is the most that a plan measures, `states` the most states that are stored, at least 1,
/// `worlds` the most worlds of a contracted state.
#[derive(Clone, Copy)]
pub struct Bounds {
    pub measure: Measure,
    pub bound: u32,
    pub states: u32,
    pub worlds: u32,
}

/// Whether a search goes on from the first plan that it meets until none is proved to measure less.
#[derive(Clone, Copy)]
pub enum Mode {
    Prove,
    First,
}
