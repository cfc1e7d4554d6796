//! Bindings of parameters to objects, and their exact numbers.
#![tactic(auto)]

pub mod counts;
pub mod distinct;
pub mod laminar;
pub mod laws;
pub mod limits;
pub mod listing;

pub use counts::{binding_count, distinct_count};
pub use distinct::distinct_bindings;
pub use laminar::is_laminar;
pub use limits::{MOST_OBJECTS, MOST_PARAMETERS};
pub use listing::{bindings, has_binding};
