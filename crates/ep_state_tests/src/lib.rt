//! Tests of values, formulas, states, truth and actions.
#![tactic(auto)]

#[cfg(test)]
mod actions;
#[cfg(test)]
mod formulas;
#[cfg(test)]
mod interned;
#[cfg(test)]
mod made;
#[cfg(test)]
mod rows;
#[cfg(test)]
mod sizes;
#[cfg(test)]
mod states;
#[cfg(test)]
mod tables;
#[cfg(test)]
mod truths;
#[cfg(test)]
mod values;
