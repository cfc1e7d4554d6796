//! What the commands answer for worked tasks, over a library and a sink in memory.
#![tactic(auto)]

#[cfg(test)]
mod faults;
#[cfg(test)]
mod frames;
#[cfg(test)]
mod hostile;
#[cfg(test)]
mod memory;
#[cfg(test)]
mod planning;
#[cfg(test)]
mod plans;
#[cfg(test)]
mod tasks;
#[cfg(test)]
mod words;
#[cfg(test)]
mod worn;
