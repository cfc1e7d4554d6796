//! Plan files of ground tasks: their reader, and the texts of plans.
#![tactic(auto)]

mod costs;
pub mod laws;
mod print;
mod read;

pub use print::{Mark, print_actions, print_plan};
pub use read::{PlanError, read_plan};
