//! A formula that tells two states apart, as a list of lines that share parts.
#![tactic(auto)]

mod apart;
mod hints;
pub mod limits;
mod lines;
mod missed;
mod parts;
mod prune;
mod quotient;
mod simplify;
mod table;
mod union;

pub use apart::tell_apart;
pub use limits::MOST_TOLD;
pub use lines::{Apart, Line, Side};
