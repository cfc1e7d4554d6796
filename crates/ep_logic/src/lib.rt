//! Ids, sets of agents, rows of truth values, formulas, and the counter of steps. Lists, texts and boxes are those of
//! `ep_base`.
#![tactic(auto)]

pub mod agents;
pub mod bits;
pub mod formula;
pub mod ids;
pub mod limits;
pub mod places;
pub mod steps;
pub mod table;
pub mod words;

pub use agents::Agents;
pub use bits::Bits;
pub use ep_base::{Boxed, List, OutOfMemory, Text};
pub use formula::{Formula, FormulaError, Node};
pub use ids::{ActionId, AgentId, AtomId, EventId, StateId, WorldId};
pub use limits::{MOST_AGENTS, MOST_ATOMS, MOST_EVENTS, MOST_GROUND_ACTIONS, MOST_INITIAL_WORLDS};
pub use places::put_places;
pub use steps::Steps;
pub use table::BitTable;
pub use words::{flip_words, meet, or_words};
