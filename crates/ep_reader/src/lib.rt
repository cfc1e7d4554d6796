//! The means of reading: a place in a list of tokens, lists of values, and what an answer says of the tokens, for the
//! grammar of any language.
#![tactic(auto)]

mod error;
mod parse;
mod reader;
mod text;

pub use error::SyntaxError;
pub use parse::{
    Parse, parse_any_listed, parse_braced_each, parse_braced_listed, parse_each, parse_listed,
    parse_some_each, parse_whole,
};
pub use reader::Reader;
pub use text::{ParsedText, TextError, parse_text};
