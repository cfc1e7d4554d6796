//! The place in a list of tokens, and what stands there.

ghost use Rattle.std.specs.Prelude.{◌≡◌, ◌≤◌, ◌+◌, IsTrue, IfSome, IfOk, length, drop};
ghost use Rattle.std.specs.Option.{option_map};
ghost use Rattle.std.specs.Str.Parse.{digits_value};
ghost use Rattle.ep_lex.specs.Pieces.{is_piece};
ghost use Rattle.ep_lex.specs.Tokens.{spelling};
ghost use Rattle.ep_lex.specs.declared.limits.TheConstants.{MOST_TOKENS};
ghost use Rattle.ep_lex.specs.declared.token.PieceKind.TheVariants as piece;
ghost use Rattle.ep_lex.specs.declared.token.TokenKind.TheVariants as kinds;
ghost use Rattle.ep_reader.specs.Gives.{Gives, place_at, all_sound};
ghost use Rattle.ep_reader.specs.Reading as reading;
ghost use Rattle.ep_tree.specs.Terminals as terminals;

use crate::error::SyntaxError;
use ep_base::{OutOfMemory, Text};
use ep_lex::{Token, TokenKind, TokenList};
use ep_tree::{Name, Terminal, is_reserved_word};
use std::alloc::Global;
use std::marker::Model;

#[derive(Drop)]
pub struct Reader<'a> {
    bytes: &'a [u8],
    tokens: &'a TokenList,
    count: u32,
    at: u32,
}

impl<'a> Model for Reader<'a> {
    ghost use Rattle.ep_reader.specs.Gives.{Place, place_at, IsAtPlace};

    ghost Value = { Place };

    ghost view = { λ r. place_at r.at r.bytes.now r.tokens.now.tokens };

    ghost invariant = { λ r. IsAtPlace r.at r.count r.bytes.now r.tokens.now.tokens };
}

fn bytes_of(bytes: &[u8], token: Token) -> &[u8]
    requires { token.start + token.len ≤ length bytes.now }
    ensures { result.now ≡ spelling bytes.now token }
{
    let start = token.start as usize;
    let end = start + token.len as usize;
    &bytes[start..end]
}

fn is_name(kind: TokenKind, text: &[u8]) -> bool
    requires { IsTrue (is_piece (piece.Spelling kind) text.now) }
    ensures { result ≡ terminals.is_name text.now }
{
    match kind {
        TokenKind::Word => !is_reserved_word(text),
        TokenKind::Number => false,
        TokenKind::Mark => false,
    }
}

fn is_count(kind: TokenKind, text: &[u8]) -> bool
    requires { IsTrue (is_piece (piece.Spelling kind) text.now) }
    ensures { result ≡ reading.is_count text.now }
{
    match kind {
        TokenKind::Number => text[0] != b'0' || text.len() == 1,
        TokenKind::Word => false,
        TokenKind::Mark => false,
    }
}

fn value_of(digits: &[u8]) -> u32
    requires { IsTrue (is_piece (piece.Spelling kinds.Number) digits.now) }
    ensures { result ≡ digits_value 10 digits.now }
{
    let mut value = 0;
    for digit in digits {
        value = value * 10 + u32::from(*digit - b'0');
    }
    value
}

fn copy_name(alloc: Global, text: &[u8]) -> Result<Text, OutOfMemory>
    requires { IsTrue (terminals.is_name text.now) }
    ensures { IfOk result (λ copy. copy ≡ text.now) }
{
    let bytes = Vec::from_slice(alloc, text)?;
    Ok(Text::from_vec(bytes))
}

impl<'a> Reader<'a> {
    pub fn new(bytes: &'a [u8], tokens: &'a TokenList) -> Reader<'a>
        requires { IsTrue (all_sound bytes.now tokens.now.tokens) }
        ensures { result ≡ place_at 0 bytes.now tokens.now.tokens }
    {
        Reader {
            bytes,
            tokens,
            count: tokens.count(),
            at: 0,
        }
    }

    // The kind and the bytes of the token that stands so far ahead.
    fn peek(&self, by: u32) -> Option<(TokenKind, &'a [u8])>
        requires { by ≤ 2 }
        ensures text { option_map (λ p. p.1.now) result ≡ reading.first_token (drop by self.now.1) }
        ensures kind { IfSome result (λ p. IsTrue (is_piece (piece.Spelling p.0) p.1.now)) }
    {
        let at = self.at + by;
        if at < self.count {
            let token = self.tokens.token(at);
            Some((token.kind, bytes_of(self.bytes, token)))
        } else {
            None
        }
    }

    /// The place of the next token.
    pub fn place(&self) -> u32
        ensures value { result ≡ self.now.0 }
        ensures bound { result ≤ MOST_TOKENS }
    {
        self.at
    }

    /// How many tokens are left.
    pub fn tokens_left(&self) -> u32
        ensures { result ≡ length self.now.1 }
    {
        self.count - self.at
    }

    /// The bytes of the next token.
    pub fn next_text(&self) -> Option<&'a [u8]>
        ensures { option_map (λ text. text.now) result ≡ reading.first_token self.now.1 }
    {
        match self.peek(0) {
            Some((_, text)) => Some(text),
            None => None,
        }
    }

    pub fn sees_at(&self, by: u32, terminal: Terminal) -> bool
        requires { by ≤ 2 }
        ensures { result ≡ reading.begins terminal (drop by self.now.1) }
    {
        match self.peek(by) {
            Some((_, text)) => terminal.is(text),
            None => false,
        }
    }

    pub fn sees(&self, terminal: Terminal) -> bool
        ensures { result ≡ reading.begins terminal self.now.1 }
    {
        self.sees_at(0, terminal)
    }

    pub fn sees_name_at(&self, by: u32) -> bool
        requires { by ≤ 2 }
        ensures { result ≡ reading.name_begins (drop by self.now.1) }
    {
        match self.peek(by) {
            Some((kind, text)) => is_name(kind, text),
            None => false,
        }
    }

    pub fn sees_name(&self) -> bool
        ensures { result ≡ reading.name_begins self.now.1 }
    {
        self.sees_name_at(0)
    }

    /// The terminal, and its place as the value.
    pub fn expect(&mut self, terminal: Terminal) -> Result<u32, SyntaxError>
        ensures { Gives (reading.key terminal) self.old result self.new }
    {
        let token = self.at;
        if self.sees(terminal) {
            self.at += 1;
            Ok(token)
        } else {
            Err(SyntaxError::Syntax { token })
        }
    }

    pub fn expect_name(&mut self, alloc: Global) -> Result<Name, SyntaxError>
        ensures { Gives reading.name self.old result self.new }
    {
        let token = self.at;
        let Some((kind, text)) = self.peek(0) else {
            return Err(SyntaxError::Syntax { token });
        };
        if !is_name(kind, text) {
            return Err(SyntaxError::Syntax { token });
        }
        let text = copy_name(alloc, text)?;
        self.at += 1;
        Ok(Name { token, text })
    }

    /// A number without a leading zero, but `0` itself.
    pub fn expect_count(&mut self) -> Result<u32, SyntaxError>
        ensures { Gives reading.count self.old result self.new }
    {
        let token = self.at;
        let Some((kind, text)) = self.peek(0) else {
            return Err(SyntaxError::Syntax { token });
        };
        if !is_count(kind, text) {
            return Err(SyntaxError::Syntax { token });
        }
        let value = value_of(text);
        self.at += 1;
        Ok(value)
    }

    /// A number without a leading zero, but `0` itself, of at least the first and at most the second.
    pub fn expect_count_within(&mut self, least: u32, most: u32) -> Result<u32, SyntaxError>
        ensures { Gives (reading.count_within least most) self.old result self.new }
    {
        let token = self.at;
        let count = self.expect_count()?;
        if least <= count && count <= most {
            Ok(count)
        } else {
            Err(SyntaxError::Syntax { token })
        }
    }

    /// Nothing is left.
    pub fn expect_end(&mut self) -> Result<(), SyntaxError>
        ensures { Gives reading.end self.old result self.new }
    {
        match self.peek(0) {
            None => Ok(()),
            Some(_) => Err(SyntaxError::Syntax { token: self.at }),
        }
    }
}
