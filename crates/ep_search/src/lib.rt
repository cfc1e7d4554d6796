//! Bounded best-first search for a plan. Every answer is one that the problem allows, whatever the guide scores.
#![tactic(auto)]

mod answer;
mod ask;
mod bounded;
mod child;
mod expand;
mod goal;
mod laws;
mod made;
mod parts;
mod plan;
mod progress;
mod run;
mod setting;
mod toll;

pub use answer::Answer;
pub use bounded::search;
