//! The readers of the task language. Its trees are those of `ep_tree`.
#![tactic(auto)]

mod action;
mod atom;
mod declarations;
mod formula;
mod initial;
mod language;
pub mod laws;
mod plan;
mod read;
mod task;

pub use language::TaskLanguage;
pub use read::{
    read_formula, read_formula_text, read_plan_lines, read_plan_text, read_task, read_task_text,
};
