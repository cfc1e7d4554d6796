//! Numbers as they are written: decimal digits without a leading zero, but `0` itself.

ghost use Rattle.std.specs.Prelude.{◌≡◌, ◌≢◌, ◌≤◌, ◌↔◌, ℕ, IsTrue, MatchOption, decimal};
ghost use Rattle.ep_words.specs.Numerals.{IsPlain};

// No sign stands first, nor a zero before more digits.
fn is_plain(bytes: &[u8]) -> bool
    ensures { IsTrue result ↔ IsPlain bytes.now }
{
    match bytes {
        [] => false,
        [only] => *only != b'+',
        [first, ..] => *first != b'+' && *first != b'0',
    }
}

/// The number that the word writes, if it is one from `least` to `most`.
#[tactic(auto, using(crate::proofs::NumberLemmas::plain_number, crate::proofs::NumberLemmas::number_is_plain))]
pub fn read_number(word: &str, least: u32, most: u32) -> Option<u32>
    ensures { MatchOption result
        ((n : ℕ) → least ≤ n → n ≤ most → word.now ≢ decimal n)
        (λ n. (word.now ≡ decimal n) × (least ≤ n) × (n ≤ most)) }
{
    let Ok(n) = word.parse::<u32>() else {
        return None;
    };
    if is_plain(word.as_bytes()) && least <= n && n <= most {
        Some(n)
    } else {
        None
    }
}
