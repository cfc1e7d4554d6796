//! States as bytes, both ways.
#![tactic(auto)]

mod laws;
pub mod limits;
mod reading;
mod writing;

pub use laws::bytes_decide;
pub use limits::MOST_WRITTEN_WORLDS;
pub use reading::{ReadError, read_state};
pub use writing::write_state;
