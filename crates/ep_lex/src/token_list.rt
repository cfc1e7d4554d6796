ghost use Rattle.std.specs.Prelude.{◌≡◌, ◌<◌, ◌≤◌, length, slice_get, Some};
ghost use Rattle.ep_lex.specs.Tokens.{line_at};
ghost use Rattle.ep_lex.specs.declared.limits.TheConstants.{MOST_TOKENS};

use crate::token::Token;
use ep_base::List;
use std::marker::Model;

/// The tokens of a text in order, at most `MOST_TOKENS`, which contracts see as their list beside the line of the text's end.
/// Its methods take no memory.
#[derive(Debug, Drop)]
pub struct TokenList {
    items: List<Token>,
    last_line: u32,
}

impl Model for TokenList {
    ghost use Rattle.std.specs.Prelude.{◌≤◌, length};
    ghost use Rattle.ep_lex.specs.Tokens.{Lexed};
    ghost use Rattle.ep_lex.specs.declared.limits.TheConstants.{MOST_TOKENS};

    ghost Value = { Lexed };

    ghost view = { λ t. record { tokens = t.items; end_line = t.last_line } };

    ghost invariant = { λ t. length t.items ≤ MOST_TOKENS };
}

impl TokenList {
    pub(crate) fn from_parts(items: List<Token>, last_line: u32) -> TokenList
        requires { length items ≤ MOST_TOKENS }
        ensures tokens { result.tokens ≡ items }
        ensures line { result.end_line ≡ last_line }
    {
        TokenList { items, last_line }
    }

    pub fn count(&self) -> u32
        ensures value { result ≡ length self.now.tokens }
        ensures bound { length self.now.tokens ≤ MOST_TOKENS }
    {
        self.items.as_slice().len() as u32
    }

    pub fn token(&self, i: u32) -> Token
        requires { i < length self.now.tokens }
        ensures { slice_get self.now.tokens i ≡ Some result }
    {
        self.items.as_slice()[i as usize]
    }

    /// The line of a token, or of the end of the text where `i` is the count.
    pub fn line(&self, i: u32) -> u32
        requires { i ≤ length self.now.tokens }
        ensures { result ≡ line_at self.now i }
    {
        match self.items.as_slice().get(i as usize) {
            Some(token) => token.line,
            None => self.last_line,
        }
    }
}
