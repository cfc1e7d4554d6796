//! The ground actions of schemas, in order, with their printed names.
#![tactic(auto)]

pub mod actions;
mod body_error;
pub mod costs;
pub mod counts;
mod fault;
pub mod laws;
mod links;
pub mod schemas;
pub mod tables;
pub mod written;

pub use actions::action_of;
pub use body_error::BodyError;
pub use fault::SchemaError;
