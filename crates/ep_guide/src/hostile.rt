//! Guides with scores that mislead. A search is right whatever a guide scores, and these are for trying that.

ghost use Rattle.std.specs.Prelude.{◌≡◌, ◌≤◌, ◌-◌, ◌*◌, ◌%◌, ◌^◌};
ghost use Rattle.ep_base.specs.Counts.{Rose, last_count, one_more};

use crate::guide::{Guide, View};
use crate::guides::raised;
use std::marker::Model;

/// Prefers the greatest depth: scores the greatest u64 less the depth. Contracts see how often it was asked.
#[derive(Drop)]
pub struct Contrary {
    asked: u64,
}

impl Model for Contrary {
    ghost use Rattle.std.specs.Prelude.{ℕ};

    ghost Value = { ℕ };

    ghost view = { λ g. g.asked };
}

impl Contrary {
    pub fn new() -> Contrary
        ensures { result ≡ 0 }
    {
        Contrary { asked: 0 }
    }
}

impl Guide for Contrary {
    ghost asked = { λ g. g };

    fn score(&mut self, view: &View) -> u64
        ensures score { result ≡ last_count - view.now.depth }
        ensures asked { self.new ≡ one_more self.old }
        ensures rose { Rose self.old self.new }
        ensures grows { self.old ≤ self.new }
    {
        self.asked = raised(self.asked);
        u64::MAX - u64::from(view.depth)
    }

    fn met(&mut self, _depth: u32)
        ensures { self.new ≡ self.old }
    {}
}

/// Scores 0. Contracts see how often it was asked.
#[derive(Drop)]
pub struct Flat {
    asked: u64,
}

impl Model for Flat {
    ghost use Rattle.std.specs.Prelude.{ℕ};

    ghost Value = { ℕ };

    ghost view = { λ g. g.asked };
}

impl Flat {
    pub fn new() -> Flat
        ensures { result ≡ 0 }
    {
        Flat { asked: 0 }
    }
}

impl Guide for Flat {
    ghost asked = { λ g. g };

    fn score(&mut self, _view: &View) -> u64
        ensures score { result ≡ 0 }
        ensures asked { self.new ≡ one_more self.old }
        ensures rose { Rose self.old self.new }
        ensures grows { self.old ≤ self.new }
    {
        self.asked = raised(self.asked);
        0
    }

    fn met(&mut self, _depth: u32)
        ensures { self.new ≡ self.old }
    {}
}

/// Scores the greatest u64. Contracts see how often it was asked.
#[derive(Drop)]
pub struct Loud {
    asked: u64,
}

impl Model for Loud {
    ghost use Rattle.std.specs.Prelude.{ℕ};

    ghost Value = { ℕ };

    ghost view = { λ g. g.asked };
}

impl Loud {
    pub fn new() -> Loud
        ensures { result ≡ 0 }
    {
        Loud { asked: 0 }
    }
}

impl Guide for Loud {
    ghost asked = { λ g. g };

    fn score(&mut self, _view: &View) -> u64
        ensures score { result ≡ last_count }
        ensures asked { self.new ≡ one_more self.old }
        ensures rose { Rose self.old self.new }
        ensures grows { self.old ≤ self.new }
    {
        self.asked = raised(self.asked);
        u64::MAX
    }

    fn met(&mut self, _depth: u32)
        ensures { self.new ≡ self.old }
    {}
}

/// Scores its count of calls, this one among them, times 6,364,136,223,846,793,005 modulo 2^64. Contracts see how often it was asked.
#[derive(Drop)]
pub struct Mixer {
    asked: u64,
}

impl Model for Mixer {
    ghost use Rattle.std.specs.Prelude.{ℕ};

    ghost Value = { ℕ };

    ghost view = { λ g. g.asked };
}

impl Mixer {
    pub fn new() -> Mixer
        ensures { result ≡ 0 }
    {
        Mixer { asked: 0 }
    }
}

impl Guide for Mixer {
    ghost asked = { λ g. g };

    fn score(&mut self, _view: &View) -> u64
        ensures score { result ≡ (self.new * 6364136223846793005) % 2 ^ 64 }
        ensures asked { self.new ≡ one_more self.old }
        ensures rose { Rose self.old self.new }
        ensures grows { self.old ≤ self.new }
    {
        self.asked = raised(self.asked);
        self.asked.wrapping_mul(6_364_136_223_846_793_005)
    }

    fn met(&mut self, _depth: u32)
        ensures { self.new ≡ self.old }
    {}
}
