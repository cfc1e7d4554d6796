//! Texts: their tokens first, then their trees.

ghost use Rattle.std.specs.Prelude.{◌≡◌, ◌≤◌, MatchResult, length};
ghost use Rattle.ep_lex.specs.Tokens.{AreLexed, line_at};
ghost use Rattle.ep_lex.specs.declared.limits.TheConstants.{MOST_BYTES};
ghost use Rattle.ep_reader.specs.Texts as texts;
ghost use Rattle.ep_reader.specs.Texts.{IsTokenFault, SaysText};

use crate::error::SyntaxError;
use crate::parse::{Parse, parse_whole};
use ep_lex::{LexError, TokenList, tokens};
use std::alloc::Global;
use std::fmt;

/// Why a text is not read: the first of its faults, those of its tokens before those of its tree.
#[derive(Clone, Copy, Debug, PartialEq, Eq)]
pub enum TextError {
    /// `at` is the number of bytes before the first that can stand in no token, blank or comment.
    Stray { at: u32 },
    /// There are more tokens than a list may hold.
    TooManyTokens,
    /// No text of the kind goes on with this token, or ends where it is the number of tokens; `line` is its line.
    Syntax { token: u32, line: u32 },
    /// The token begins a formula that stands in too many others; `line` is its line.
    TooDeep { token: u32, line: u32 },
    OutOfMemory,
}

impl fmt::Display for TextError {
    fn fmt<W: fmt::Write>(&self, f: &mut fmt::Formatter<W>) -> fmt::Result {
        match self {
            TextError::Stray { at } => write!(f, "stray byte at {at}"),
            TextError::TooManyTokens => write!(f, "too many tokens"),
            TextError::Syntax { token, line } => {
                write!(f, "syntax at token {token}, line {line}")
            }
            TextError::TooDeep { token, line } => {
                write!(f, "too deep at token {token}, line {line}")
            }
            TextError::OutOfMemory => write!(f, "out of memory"),
        }
    }
}

impl std::error::Error for TextError {}

/// A text that is read.
#[derive(Drop)]
pub struct ParsedText<T> {
    pub tokens: TokenList,
    pub tree: T,
}

fn lex_text(alloc: Global, bytes: &[u8]) -> Result<TokenList, TextError>
    requires { length bytes.now ≤ MOST_BYTES }
    ensures { MatchResult result (AreLexed bytes.now) (IsTokenFault bytes.now) }
{
    match tokens(alloc, bytes) {
        Ok(found) => Ok(found),
        Err(LexError::Stray { at }) => Err(TextError::Stray { at }),
        Err(LexError::TooManyTokens) => Err(TextError::TooManyTokens),
        Err(LexError::OutOfMemory) => Err(TextError::OutOfMemory),
    }
}

// Behind the last token stands the end.
fn line_of(tokens: &TokenList, token: u32) -> u32
    ensures { result ≡ line_at tokens.now token }
{
    tokens.line(token.min(tokens.count()))
}

// The error with its line.
fn error_at(tokens: &TokenList, error: SyntaxError) -> TextError
    ensures { result ≡ texts.error_at tokens.now error }
{
    match error {
        SyntaxError::Syntax { token } => TextError::Syntax {
            token,
            line: line_of(tokens, token),
        },
        SyntaxError::TooDeep { token } => TextError::TooDeep {
            token,
            line: line_of(tokens, token),
        },
        SyntaxError::OutOfMemory => TextError::OutOfMemory,
    }
}

/// The tokens of a text and its tree, or the first fault of the text.
pub fn parse_text<L, T: Parse<L>>(alloc: Global, bytes: &[u8]) -> Result<ParsedText<T>, TextError>
    requires { length bytes.now ≤ MOST_BYTES }
    ensures { SaysText T.reads bytes.now result }
{
    let tokens = lex_text(alloc, bytes)?;
    match parse_whole(alloc, bytes, &tokens) {
        Ok(tree) => Ok(ParsedText { tokens, tree }),
        Err(error) => Err(error_at(&tokens, error)),
    }
}
