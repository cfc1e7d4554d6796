//! The text of a puzzle that the planner is tried on.
#![tactic(auto)]

mod children;
mod trial;

pub use trial::trial_text;
