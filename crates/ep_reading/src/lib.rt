//! The files that commands name, and the reading of their texts: tasks, plans with their runs, and formulas.
#![tactic(auto)]

mod files;
mod formula;
mod plans;
mod read;
mod runs;

pub use files::{fetch_file, read_task_file};
pub use formula::read_formula_word;
pub use plans::read_plan_file;
pub use read::read_task;
pub use runs::{judge, run_to_end};
