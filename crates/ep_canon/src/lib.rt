//! Canonical states: the contraction of a state, and its bytes.
#![tactic(auto)]

mod canon;
mod contracting;
mod error;
mod laws;
pub mod limits;
mod quotient;

pub use canon::{Canon, Mapped, contract, contract_map, same};
pub use error::CanonError;
pub use laws::bytes_of_contractions_decide;
pub use limits::MOST_CONTRACTED_WORLDS;
