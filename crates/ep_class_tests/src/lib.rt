//! Tests of reached worlds, restrictions, classes, contractions and canonical bytes.
#![tactic(auto)]

#[cfg(test)]
mod bytes;
#[cfg(test)]
mod classes;
#[cfg(test)]
mod contractions;
#[cfg(test)]
mod made;
#[cfg(test)]
mod refinement;
