//! The ground task of a typed task.
#![tactic(auto)]

mod fault;
mod formula;
mod formula_fault;
mod formulas;
mod frames;
mod grounding;
pub mod laws;
mod limits;
mod state_text;
mod task;

pub use ep_problem::{Plan, Problem};
pub use fault::{GroundError, S5Place};
pub use formula::ground_formula;
pub use formula_fault::FormulaFault;
pub use grounding::ground;
pub use limits::{MOST_TASK_NODES, check_limits};
pub use state_text::print_state;
pub use task::{Parts, Task, parts_of_task};
