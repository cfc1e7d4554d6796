//! The words of a command.
#![tactic(auto)]

mod command;
mod number;
mod options;
mod words;

pub use command::{Command, Usage};
pub use words::{is_file_word, read_words};
