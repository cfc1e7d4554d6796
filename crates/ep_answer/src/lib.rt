//! What is answered: causes, answers of commands, and their statuses and texts.
#![tactic(auto)]

mod answer;
mod cause;
mod planned;
mod run_stop;
mod status;
mod trial_text;

pub use answer::{Answer, Counts, Stop};
pub use cause::{Cause, Place, Subject};
pub use planned::Planned;
pub use run_stop::{RunStop, Whose};
pub use status::Status;
pub use trial_text::{Trial, TrialEnd};
