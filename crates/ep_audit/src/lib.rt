//! Certificates that no plan within a bound exists, and their audit. An accepted certificate rests on truth, products,
//! bytes of states and maps that are checked to be bisimulations, and on no search.
#![tactic(auto)]

mod due;
mod entry;
pub mod laws;
mod lines;
mod made;
mod map;
mod named_task;
mod number;
mod progress;
mod step;
mod stuck;
mod take;
mod verdict;

pub use map::maps;
pub use named_task::NamedTask;
pub use progress::{DueLine, Progress};
pub use verdict::{Audited, MOST_CERTIFICATE_BYTES, audit};
