//! Tests of words, libraries, sinks, devices and the text of a trial.
#![tactic(auto)]

#[cfg(test)]
mod devices;
#[cfg(test)]
mod libraries;
#[cfg(test)]
mod sinks;
#[cfg(test)]
mod trial_texts;
#[cfg(test)]
mod words;
