//! The layout of tasks.
#![tactic(auto)]

pub mod layout;
mod print;
mod printer;

pub use print::print_task;
