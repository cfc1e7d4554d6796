//! Planning tasks over states, actions with their costs, and a goal. No text occurs here.
#![tactic(auto)]

mod fitting;
mod problem;
mod weights;

pub use ep_bounds::Measure;
pub use fitting::actions_fit;
pub use problem::{Plan, Problem};
