// Where a row may have been seen. It is only a hint: who asks it compares the row.

use ep_logic::OutOfMemory;
use std::alloc::{AllocError, Global};
use std::collections::HashMap;

// How many rows are looked through one by one, which is faster while they are few.
pub(crate) const FIRST_ROWS: u32 = 8;

// For each start of a row the first row that begins so, and for the mixed words of each later row its number. So a row
// whose start is new is new, and is not mixed.
#[derive(Drop)]
pub(crate) struct Hint {
    firsts: Vec<Option<u32>>,
    seen: HashMap<u64, u32>,
}

impl Hint {
    pub(crate) fn new(alloc: Global, worlds: u32) -> Result<Hint, OutOfMemory> {
        Ok(Hint {
            firsts: vec![in alloc; None; worlds as usize + 1]?,
            seen: HashMap::new(alloc),
        })
    }

    // The first row that begins so.
    pub(crate) fn first(&self, start: usize) -> Option<u32> {
        self.firsts.get(start).copied()?
    }

    // A row that is the first to begin so.
    pub(crate) fn begins(&mut self, start: usize, name: u32) {
        if let Some(first) = self.firsts.get_mut(start) {
            *first = Some(name);
        }
    }

    pub(crate) fn find(&self, mixed: u64) -> Option<u32> {
        self.seen.get(&mixed).copied()
    }

    pub(crate) fn add(&mut self, mixed: u64, name: u32) -> Result<(), OutOfMemory> {
        if name >= FIRST_ROWS {
            self.seen.insert(mixed, name).map_err(AllocError::from)?;
        }
        Ok(())
    }
}

// How a row begins: 0 where it is empty, else one more than its first number.
pub(crate) fn start_of(row: &[u32]) -> usize {
    match row.first() {
        Some(number) => *number as usize + 1,
        None => 0,
    }
}

fn mix(mixed: u64, word: u64) -> u64 {
    let next = (mixed ^ word).wrapping_mul(0x9E37_79B9_7F4A_7C15);
    next ^ (next >> 32)
}

pub(crate) fn mix_words(words: &[u64]) -> u64 {
    let mut mixed = 0;
    for word in words {
        mixed = mix(mixed, *word);
    }
    mixed
}

pub(crate) fn mix_numbers(numbers: &[u32]) -> u64 {
    let mut mixed = 0;
    for number in numbers {
        mixed = mix(mixed, u64::from(*number));
    }
    mixed
}
