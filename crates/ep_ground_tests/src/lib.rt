//! Tests of ground tasks, their costs, relations, initial states and formulas, and plan files.
#![tactic(auto)]

#[cfg(test)]
mod costs_and_frames;
#[cfg(test)]
mod explicit_states;
#[cfg(test)]
mod formulas;
#[cfg(test)]
mod ground_tasks;
#[cfg(test)]
mod lawful_states;
#[cfg(test)]
mod plan_files;
#[cfg(test)]
mod reading;
#[cfg(test)]
mod state_texts;
