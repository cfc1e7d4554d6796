//! The commands that search for a plan: `plan` and `trial`.
#![tactic(auto)]

pub mod laws;
mod plan;
mod trial;

pub use plan::plan_by_guide;
pub use trial::try_by_guide;
