//! Formulas that look ahead, and composed actions.
#![tactic(auto)]

pub mod compose;
mod events;
pub mod formula;
mod greatest;
pub mod laws;
mod links;
pub mod node;
mod reduced;
pub mod sizes;
pub mod truths;

pub use formula::{DynFormula, MOST_DYNAMIC_DEPTH};
pub use node::DynNode;
pub use truths::{DynFail, MOST_LINKS, holds_dynamic};
