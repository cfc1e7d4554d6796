ghost use Rattle.std.specs.Prelude.{◌≡◌, ℕ, ◌≤◌, ◌⊎◌, [], ◌∷◌, ◌++◌, length, nat_lt, if◌then◌else◌, IsOk, IfOk, OnOk};
ghost use Rattle.ep_lex.specs.declared.limits.TheConstants.{MOST_BYTES};
ghost use Rattle.ep_lex.specs.Pieces.{is_line_feed, IsStray};
ghost use Rattle.ep_lex.specs.Tokens.{AreLexed, HasTooManyTokens, Lexed};

use crate::limits::MOST_TOKENS;
use crate::piece::front_piece;
use crate::token::{PieceKind, Token};
use crate::token_list::TokenList;
use ep_base::{List, OutOfMemory};
use std::alloc::Global;
use std::fmt;

/// Why a text has no list of tokens. `at` is the number of bytes before the first byte that can stand in no token,
/// blank or comment. `TooManyTokens` says that none is stray and there are more tokens than a
/// list may hold.
#[derive(Clone, Copy, Debug, PartialEq, Eq)]
pub enum LexError {
    Stray { at: u32 },
    TooManyTokens,
    OutOfMemory,
}

impl fmt::Display for LexError {
    fn fmt<W: fmt::Write>(&self, f: &mut fmt::Formatter<W>) -> fmt::Result {
        match self {
            LexError::Stray { at } => write!(f, "stray byte at {at}"),
            LexError::TooManyTokens => write!(f, "too many tokens"),
            LexError::OutOfMemory => write!(f, "out of memory"),
        }
    }
}

impl std::error::Error for LexError {}

impl From<OutOfMemory> for LexError {
    ghost use Rattle.std.specs.Prelude.{◌≡◌};
    ghost use Rattle.ep_lex.specs.declared.lex.LexError.TheVariants.{OutOfMemory};

    ghost from_gives = { λ _ e. e ≡ OutOfMemory };

    fn from(_error: OutOfMemory) -> LexError {
        LexError::OutOfMemory
    }
}

/// The tokens of a text, in time in proportion to its length. What a token is and what a
/// stray byte is are this project's own.
pub fn tokens(alloc: Global, bytes: &[u8]) -> Result<TokenList, LexError>
    requires { length bytes.now ≤ MOST_BYTES }
    ensures tokens { IfOk result (AreLexed bytes.now) }
    ensures stray { (at : ℕ) → result ≡ Err (LexError.Stray at) → IsStray bytes.now at }
    ensures too_many { result ≡ Err LexError.TooManyTokens → HasTooManyTokens bytes.now }

    // Each of these is told, unless memory is wanting.
    ensures tokens_are_told { (found : Lexed) → AreLexed bytes.now found → (result ≡ Ok found) ⊎ (result ≡ Err LexError.OutOfMemory) }
    ensures stray_is_told { (at : ℕ) → IsStray bytes.now at →
        (result ≡ Err (LexError.Stray at)) ⊎ (result ≡ Err LexError.OutOfMemory) }
    ensures too_many_is_told { HasTooManyTokens bytes.now →
        (result ≡ Err LexError.TooManyTokens) ⊎ (result ≡ Err LexError.OutOfMemory) }
{
    let mut kept = List::new(alloc);
    let mut count = 0;
    let mut line = 1;
    let mut at = 0;
    while at < bytes.len() {
        let (kind, len) = match front_piece(&bytes[at..]) {
            Ok(piece) => piece,
            Err(before) => {
                return Err(LexError::Stray {
                    at: (at + before) as u32,
                });
            }
        };
        match kind {
            PieceKind::Blank => line += line_feeds(bytes[at]),
            PieceKind::Comment => {}
            PieceKind::Spelling(kind) => {
                let token = Token {
                    kind,
                    start: at as u32,
                    len: len as u32,
                    line,
                };
                keep(&mut kept, count, token)?;
                count += 1;
            }
        }
        at += len;
    }
    if count > MOST_TOKENS {
        return Err(LexError::TooManyTokens);
    }
    Ok(TokenList::from_parts(kept, line))
}

// A token past the most that a list may have is counted, and not kept.
fn keep(kept: &mut List<Token>, count: usize, token: Token) -> Result<(), OutOfMemory>
    ensures { OnOk result (kept.new ≡ (if nat_lt count MOST_TOKENS then kept.old ++ token ∷ [] else kept.old)) }
{
    if count < MOST_TOKENS {
        kept.push(token)?;
    }
    Ok(())
}

fn line_feeds(blank: u8) -> u32
    ensures { result ≡ (if is_line_feed blank then 1 else 0) }
{
    if blank == b'\n' { 1 } else { 0 }
}
