//! Guides of the search, and its frontier.
#![tactic(auto)]

mod frontier;
mod guide;
mod guides;
mod hostile;
mod queues;
mod unmet;

pub use frontier::{Frontier, Waiting};
pub use guide::{Guide, View};
pub use guides::{ByDepth, ByWorlds};
pub use hostile::{Contrary, Flat, Loud, Mixer};
pub use unmet::ByUnmet;
