//! The commands with a task and one plan: `validate`, `eval`, `state` and `contract`.
#![tactic(auto)]

pub mod laws;
mod one_plan;
mod question;

pub use one_plan::answer_question;
pub use question::Question;
