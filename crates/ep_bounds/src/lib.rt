//! How far a search goes, and what plans are measured by.
#![tactic(auto)]

mod bounds;

pub use bounds::{
    Bounds, MOST_BOUND, MOST_COST, MOST_PLAN_ACTIONS, MOST_STATES, MOST_WORLDS, Measure, Mode,
};
