//! Tests of bindings, printed names and universes.
#![tactic(auto)]

#[cfg(test)]
mod binding_lists;
#[cfg(test)]
mod name_tables;
#[cfg(test)]
mod reading;
#[cfg(test)]
mod universes;
