//! Applicability and product update.
#![tactic(auto)]

mod ahead;
mod blocks;
mod fitting;
mod labelling;
pub mod laws;
mod originals;
mod places;
mod rows;
mod stuck;
mod truth;
mod update;

pub use ahead::{openings, places_of};
pub use fitting::fits_action;
pub use labelling::{LabelTable, labels};
pub use stuck::{applicable, applicable_labelled, stuck_at};
pub use update::{Size, UpdateError, product, product_labelled};
