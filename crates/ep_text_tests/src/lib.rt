//! Tests of tokens, trees, layouts, names and types.
#![tactic(auto)]

#[cfg(test)]
mod costs_and_frames;
#[cfg(test)]
mod layouts;
#[cfg(test)]
mod lexing;
#[cfg(test)]
mod plan_lines;
#[cfg(test)]
mod reading;
#[cfg(test)]
mod type_faults;
#[cfg(test)]
mod typed_tasks;
