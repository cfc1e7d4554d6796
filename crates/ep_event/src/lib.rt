//! Actions: event models among at most 8 agents, built from parts, and the four named kinds.
#![tactic(auto)]

pub mod action;
mod equivalence;
pub mod laws;
mod marks;
mod numbers;
pub mod parts;
mod refusal;
mod relations;

pub use action::Action;
pub use parts::{ActionParts, Assign, EventLink, EventParts};
pub use refusal::ActionError;
