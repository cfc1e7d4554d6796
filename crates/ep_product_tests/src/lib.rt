//! Tests of products.
#![tactic(auto)]

#[cfg(test)]
mod doubling;
#[cfg(test)]
mod labels;
#[cfg(test)]
mod made;
#[cfg(test)]
mod products;
#[cfg(test)]
mod refusals;
