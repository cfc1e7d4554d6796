// The piece at the front of a text.

ghost use Rattle.std.specs.Prelude.{◌≡◌, ◌≤◌, length, nat_le, take_while, if◌then◌else◌, Ok, Err};
ghost use Rattle.ep_lex.specs.Pieces as pieces;
ghost use Rattle.ep_lex.specs.Scan as scan;
ghost use Rattle.ep_lex.specs.declared.limits.TheConstants.{MOST_BYTES};

use crate::limits::{MOST_DIGITS, MOST_WORD_BYTES};
use crate::token::{PieceKind, TokenKind};

fn is_blank(b: u8) -> bool
    ensures { result ≡ pieces.is_blank b }
{
    matches!(b, b' ' | b'\t' | b'\r' | b'\n')
}

fn is_letter(b: u8) -> bool
    ensures { result ≡ pieces.is_letter b }
{
    matches!(b, b'a'..=b'z' | b'A'..=b'Z' | b'_')
}

fn is_digit(b: u8) -> bool
    ensures { result ≡ pieces.is_digit b }
{
    matches!(b, b'0'..=b'9')
}

fn is_word_byte(b: u8) -> bool
    ensures { result ≡ pieces.is_word_byte b }
{
    is_letter(b) || is_digit(b)
}

fn is_comment_byte(b: u8) -> bool
    ensures { result ≡ pieces.is_comment_byte b }
{
    b != b'\n'
}

fn is_mark_byte(b: u8) -> bool
    ensures { result ≡ pieces.is_mark_byte b }
{
    matches!(
        b,
        b'{' | b'}' | b'(' | b')' | b',' | b';' | b':' | b'<' | b'='
    )
}

fn word_bytes(bytes: &[u8]) -> usize
    ensures count { result ≡ length (take_while pieces.is_word_byte bytes.now) }
    ensures within { result ≤ length bytes.now }
{
    bytes.iter().take_while(|b| is_word_byte(**b)).count()
}

fn digits(bytes: &[u8]) -> usize
    ensures count { result ≡ length (take_while pieces.is_digit bytes.now) }
    ensures within { result ≤ length bytes.now }
{
    bytes.iter().take_while(|b| is_digit(**b)).count()
}

fn comment_bytes(bytes: &[u8]) -> usize
    ensures count { result ≡ length (take_while pieces.is_comment_byte bytes.now) }
    ensures within { result ≤ length bytes.now }
{
    bytes.iter().take_while(|b| is_comment_byte(**b)).count()
}

fn at_most(most: usize, kind: TokenKind, len: usize) -> Result<(PieceKind, usize), usize>
    ensures { result ≡ (if nat_le len most then Ok (PieceKind.Spelling kind, len) else Err most) }
{
    if len <= most {
        Ok((PieceKind::Spelling(kind), len))
    } else {
        Err(most)
    }
}

fn is_next(bytes: &[u8], wanted: u8) -> bool
    ensures { result ≡ scan.next_is wanted bytes.now }
{
    match bytes.first() {
        Some(b) => *b == wanted,
        None => false,
    }
}

// The kind and the length of the front piece, or how many bytes stand before the stray one.
pub fn front_piece(bytes: &[u8]) -> Result<(PieceKind, usize), usize>
    requires { length bytes.now ≤ MOST_BYTES }
    ensures { result ≡ scan.lengths (scan.scan bytes.now) }
{
    let Some((b, rest)) = bytes.split_first() else {
        return Err(0);
    };
    let b = *b;
    if is_blank(b) {
        Ok((PieceKind::Blank, 1))
    } else if b == b'#' {
        Ok((PieceKind::Comment, 1 + comment_bytes(rest)))
    } else if is_letter(b) {
        at_most(MOST_WORD_BYTES, TokenKind::Word, 1 + word_bytes(rest))
    } else if is_digit(b) {
        at_most(MOST_DIGITS, TokenKind::Number, 1 + digits(rest))
    } else if b == b':' {
        let len = if is_next(rest, b'=') { 2 } else { 1 };
        Ok((PieceKind::Spelling(TokenKind::Mark), len))
    } else if b == b'-' && is_next(rest, b'>') {
        Ok((PieceKind::Spelling(TokenKind::Mark), 2))
    } else if is_mark_byte(b) {
        Ok((PieceKind::Spelling(TokenKind::Mark), 1))
    } else {
        Err(0)
    }
}
