//! What the names of a typed task stand for, and ground forms of its formulas.
#![tactic(auto)]

pub mod atoms;
pub mod count;
pub mod formula;
mod items;
pub mod laws;
pub mod limits;
pub mod links;
pub mod names;
pub mod objects;
pub mod universe;
mod universe_error;

pub use limits::MOST_GROUND_NODES;
pub use universe::Universe;
pub use universe_error::UniverseError;
