// The places where a row is true, in time per word and per place.

ghost use Rattle.std.specs.Prelude.{◌≡◌, ◌+◌, ◌*◌, ◌≤◌, ◌^◌, ◌++◌, length, IfOk, OnOk};
ghost use Rattle.ep_logic.specs.Numbers.{numbers_where};
ghost use Rattle.ep_logic.specs.Packed.{bit_in, word_places};

use ep_base::{List, OutOfMemory};
use std::alloc::{AllocError, Global};

// Puts the true places of a word at the end, counted from `from`.
fn put_word(word: u64, from: u32, out: &mut Vec<u32>) -> Result<(), OutOfMemory>
    requires { from + 64 ≤ 2 ^ 32 }
    ensures { OnOk result (out.new.items ≡ out.old.items ++ word_places from word) }
{
    let mut rest = word;
    while rest != 0 {
        let at = rest.trailing_zeros();
        out.push(from + at).map_err(AllocError::from)?;
        rest &= !(1u64 << at);
    }
    Ok(())
}

/// Puts the true places of a row of words at the end, in rising order.
pub fn put_places(words: &[u64], out: &mut Vec<u32>) -> Result<(), OutOfMemory>
    requires { length words.now * 64 ≤ 2 ^ 32 }
    ensures { OnOk result (out.new.items ≡ out.old.items ++ numbers_where (bit_in words.now) (length words.now * 64)) }
{
    for k in 0..words.len() {
        put_word(words[k], (k * 64) as u32, out)?;
    }
    Ok(())
}

// The true places of a row of words, in rising order.
pub(crate) fn places_of(alloc: Global, words: &[u64]) -> Result<List<u32>, OutOfMemory>
    requires { length words.now * 64 ≤ 2 ^ 32 }
    ensures { IfOk result (λ places. places ≡ numbers_where (bit_in words.now) (length words.now * 64)) }
{
    let mut places = Vec::new(alloc);
    put_places(words, &mut places)?;
    Ok(List::from_vec(places))
}
