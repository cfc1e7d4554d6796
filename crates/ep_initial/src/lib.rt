//! The initial state of a task, of the explicit and of the lawful form.
#![tactic(auto)]

mod explicit;
mod fault;
mod initial;
mod lawful;
pub mod laws;
pub mod limits;
mod links;
mod meeting;
mod numbers;
mod rows;
mod seeing;
mod valuations;

pub use explicit::{check_worlds, explicit_state};
pub use fault::InitialError;
pub use initial::initial_state;
pub use lawful::{LawfulForm, lawful_state};
pub use limits::MOST_VARIED;
