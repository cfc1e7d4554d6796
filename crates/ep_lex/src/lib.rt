//! The tokens of a text.
#![tactic(auto)]

pub mod laws;
pub mod lex;
pub mod limits;
mod piece;
pub mod token;
pub mod token_list;

pub use lex::{LexError, tokens};
pub use limits::{MOST_BYTES, MOST_DIGITS, MOST_TOKENS, MOST_WORD_BYTES};
pub use token::{PieceKind, Token, TokenKind};
pub use token_list::TokenList;
