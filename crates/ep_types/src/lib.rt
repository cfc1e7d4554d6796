//! Names and types: the first fault of a tree in file order.
#![tactic(auto)]

mod atoms;
mod fault;
mod formula;
mod init;
mod judge;
pub mod laws;
mod links;
mod schema;
mod scope;
mod table;
mod task;
mod typed;
mod types;

pub use fault::{TypeError, TypeFault};
pub use typed::{Typed, check, check_formula};
