//! The parts of a line.

ghost use Rattle.std.specs.Prelude.{◌≡◌, ◌≢◌, ◌≤◌, ◌<◌, ◌++◌, ◌∷◌, ℕ, List, length, All, MatchOption, IfOk, decimal, Option};
ghost use Rattle.ep_audit.specs.Lines.{field, map_text};
ghost use Rattle.ep_audit.specs.Shown.{IsBelow};
ghost use Rattle.std.specs.List.{AllByRecursion};

use crate::number::number;
use ep_logic::{List, OutOfMemory};
use std::alloc::Global;

/// What stands before the first such byte, and what behind it.
pub fn cut_at(text: &[u8], byte: u8) -> Option<(&[u8], &[u8])>
    ensures { MatchOption result
        (All (λ b. b ≢ byte) text.now)
        (λ parts. (text.now ≡ parts.0.now ++ byte ∷ parts.1.now) × All (λ b. b ≢ byte) parts.0.now) }
{
    let at = text.iter().position(|b| *b == byte)?;
    Some((&text[..at], &text[at + 1..]))
}

/// What stands behind the head of a line.
pub fn behind<'a>(line: &'a [u8], head: &[u8]) -> Option<&'a [u8]>
    ensures { MatchOption result
        ((rest : List ℕ) → line.now ≢ head.now ++ rest)
        (λ rest. line.now ≡ head.now ++ rest.now) }
{
    line.strip_prefix(head)
}

/// The number, at most `most`, that stands behind the head of a line.
pub fn number_behind(line: &[u8], head: &[u8], most: u32) -> Option<u32>
    ensures { MatchOption result
        ((n : ℕ) → n ≤ most → line.now ≢ head.now ++ decimal n)
        (λ n. (line.now ≡ head.now ++ decimal n) × (n ≤ most)) }
{
    match behind(line, head) {
        Some(digits) => number(digits, most),
        None => None,
    }
}

/// A number below `most`, or `-`.
pub fn map_field(text: &[u8], most: u32) -> Option<Option<u32>>
    requires { 0 < most }
    ensures { MatchOption result
        ((f : Option ℕ) → IsBelow most f → text.now ≢ field f)
        (λ f. (text.now ≡ field f) × IsBelow most f) }
{
    if text == b"-".as_slice() {
        return Some(None);
    }
    match number(text, most - 1) {
        Some(v) => Some(Some(v)),
        None => None,
    }
}

/// The fields of a map, where each number is below `most`.
pub fn map_fields(
    alloc: Global,
    text: &[u8],
    most: u32,
) -> Result<Option<List<Option<u32>>>, OutOfMemory>
    requires { 0 < most }
    ensures { IfOk result (λ found. MatchOption found
        ((m : List (Option ℕ)) → 0 < length m → AllByRecursion (IsBelow most) m → text.now ≢ map_text m)
        (λ m. (0 < length m) × (text.now ≡ map_text m) × AllByRecursion (IsBelow most) m)) }
{
    let mut fields = List::new(alloc);
    let mut rest = text;
    while let Some((first, after)) = cut_at(rest, b',') {
        let Some(value) = map_field(first, most) else {
            return Ok(None);
        };
        fields.push(value)?;
        rest = after;
    }
    let Some(value) = map_field(rest, most) else {
        return Ok(None);
    };
    fields.push(value)?;
    Ok(Some(fields))
}
