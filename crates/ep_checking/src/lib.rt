//! The command with a task alone: `check`.
#![tactic(auto)]

mod check;

pub use check::check_task;
