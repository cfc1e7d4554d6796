//! Tests of the store, of guides and their frontier, and of the search.
#![tactic(auto)]

#[cfg(test)]
mod actions;
#[cfg(test)]
mod frontiers;
#[cfg(test)]
mod own_guides;
#[cfg(test)]
mod scores;
#[cfg(test)]
mod searches;
#[cfg(test)]
mod states;
#[cfg(test)]
mod stores;
#[cfg(test)]
mod tasks;
#[cfg(test)]
mod told;
