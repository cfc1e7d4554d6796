//! The commands with a task and two plans: `same` and `apart`.
#![tactic(auto)]

mod apart_text;
mod comparison;
mod states;
mod two_plans;

pub use comparison::Comparison;
pub use two_plans::compare_plans;
