// Where a line may stand. No answer depends on it.

use crate::lines::Line;
use ep_logic::OutOfMemory;
use std::alloc::Global;

const BUCKETS: u32 = 4096;

/// The places at which lines were put, by a mix of what they say.
#[derive(Drop)]
pub struct Hints {
    buckets: Vec<Vec<u32>>,
}

impl Hints {
    pub fn new(alloc: Global) -> Result<Hints, OutOfMemory> {
        let mut buckets = Vec::new(alloc);
        for _bucket in 0..BUCKETS {
            buckets.push(Vec::new(alloc))?;
        }
        Ok(Hints { buckets })
    }

    /// The places at which such lines were put.
    pub fn places(&self, line: &Line) -> &[u32] {
        match self.buckets.get(bucket_of(line)) {
            Some(places) => places.as_slice(),
            None => &[],
        }
    }

    pub fn add(&mut self, line: &Line, place: u32) -> Result<(), OutOfMemory> {
        if let Some(places) = self.buckets.get_mut(bucket_of(line)) {
            places.push(place)?;
        }
        Ok(())
    }
}

fn bucket_of(line: &Line) -> usize {
    let mixed = match line {
        Line::True => 0,
        Line::Atom(p) => mix(1, p.n),
        Line::Not(i) => mix(2, *i),
        Line::And(parts) => mix_all(parts.as_slice()),
        Line::Knows(a, i) => mix(mix(4, a.n), *i),
    };
    (mixed % BUCKETS) as usize
}

fn mix(seed: u32, n: u32) -> u32 {
    seed.wrapping_mul(31).wrapping_add(n)
}

fn mix_all(numbers: &[u32]) -> u32 {
    let mut mixed = 3;
    for n in numbers {
        mixed = mix(mixed, *n);
    }
    mixed
}
