//! Tests of problems, of what plans measure, of runs of plans and of verdicts.
#![tactic(auto)]

#[cfg(test)]
mod actions;
#[cfg(test)]
mod problems;
#[cfg(test)]
mod runs;
#[cfg(test)]
mod states;
#[cfg(test)]
mod tasks;
#[cfg(test)]
mod verdicts;
#[cfg(test)]
mod weights;
