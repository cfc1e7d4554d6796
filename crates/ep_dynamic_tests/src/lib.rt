//! Tests of formulas that look ahead.
#![tactic(auto)]

#[cfg(test)]
mod ahead;
#[cfg(test)]
mod composing;
#[cfg(test)]
mod formulas;
#[cfg(test)]
mod problems;
