//! Runs of plans under a size, and the verdict on a plan, by plain products.
#![tactic(auto)]

pub mod laws;
mod runs;
mod verdicts;

pub use runs::{Outcome, plan_fits, run_plan};
pub use verdicts::{MOST_LINKS, Verdict, validate};
