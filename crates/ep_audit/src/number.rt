//! Numbers as they are written: decimal digits without a leading zero, but `0` itself.

ghost use Rattle.std.specs.Prelude.{◌≡◌, ◌≢◌, ◌≤◌, ◌↔◌, ℕ, IsTrue, MatchOption, decimal};
ghost use Rattle.ep_audit.specs.Numerals.{IsPlain};

use std::str::from_utf8;

// No sign stands first, nor a zero before more digits.
fn is_plain(text: &[u8]) -> bool
    ensures { IsTrue result ↔ IsPlain text.now }
{
    match text {
        [] => false,
        [only] => *only != b'+',
        [first, ..] => *first != b'+' && *first != b'0',
    }
}

/// The number that the text writes, if it is at most `most`.
#[tactic(auto, using(crate::proofs::NumberLemmas::plain_number, crate::proofs::NumberLemmas::number_is_plain))]
pub fn number(text: &[u8], most: u32) -> Option<u32>
    ensures { MatchOption result
        ((n : ℕ) → n ≤ most → text.now ≢ decimal n)
        (λ n. (text.now ≡ decimal n) × (n ≤ most)) }
{
    let Ok(word) = from_utf8(text) else {
        return None;
    };
    let Ok(n) = word.parse::<u32>() else {
        return None;
    };
    if is_plain(text) && n <= most {
        Some(n)
    } else {
        None
    }
}
