//! Tests of audits.
#![tactic(auto)]

#[cfg(test)]
mod rows;
#[cfg(test)]
mod states;
#[cfg(test)]
mod tasks;
