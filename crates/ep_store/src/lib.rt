//! The states that a search has met, each once.
#![tactic(auto)]

mod entry;
mod store;

pub use entry::{Added, Entry, Step, StoreError};
pub use store::Store;
