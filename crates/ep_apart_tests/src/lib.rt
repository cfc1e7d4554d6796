//! Tests of the formula that tells two states apart.
#![tactic(auto)]

#[cfg(test)]
mod lines;
#[cfg(test)]
mod made;
#[cfg(test)]
mod telling;
