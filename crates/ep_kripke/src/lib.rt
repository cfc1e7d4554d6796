//! Finite Kripke states with several designated worlds.
#![tactic(auto)]

mod build;
mod equivalence;
mod hint;
mod interning;
mod laws;
pub mod limits;
mod naming;
mod parts;
mod relation;
mod row;
mod row_set;
mod row_table;
mod rows;
mod sources;
mod state;

pub use interning::InternedState;
pub use laws::keys_decide;
pub use limits::{MOST_PACKED, MOST_WORLDS};
pub use naming::Naming;
pub use parts::{Link, StateError, StateParts};
pub use relation::Relation;
pub use row::Row;
pub use row_set::RowSet;
pub use row_table::RowTable;
pub use rows::Rows;
pub use sources::Sources;
pub use state::State;
