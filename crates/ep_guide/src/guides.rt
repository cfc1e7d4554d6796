ghost use Rattle.std.specs.Prelude.{◌≡◌, ◌≤◌};
ghost use Rattle.ep_base.specs.Counts.{Rose, one_more};

use crate::guide::{Guide, View};
use std::marker::Model;

// A count stays at its greatest value.
pub fn raised(count: u64) -> u64
    ensures counted { result ≡ one_more count }
    ensures grows { count ≤ result }
{
    count.saturating_add(1)
}

/// Scores the depth. Contracts see how often it was asked.
#[derive(Drop)]
pub struct ByDepth {
    asked: u64,
}

impl Model for ByDepth {
    ghost use Rattle.std.specs.Prelude.{ℕ};

    ghost Value = { ℕ };

    ghost view = { λ g. g.asked };
}

impl ByDepth {
    pub fn new() -> ByDepth
        ensures { result ≡ 0 }
    {
        ByDepth { asked: 0 }
    }
}

impl Guide for ByDepth {
    ghost asked = { λ g. g };

    fn score(&mut self, view: &View) -> u64
        ensures score { result ≡ view.now.depth }
        ensures asked { self.new ≡ one_more self.old }
        ensures rose { Rose self.old self.new }
        ensures grows { self.old ≤ self.new }
    {
        self.asked = raised(self.asked);
        u64::from(view.depth)
    }

    fn met(&mut self, _depth: u32)
        ensures { self.new ≡ self.old }
    {}
}

/// Scores the number of worlds. Contracts see how often it was asked.
#[derive(Drop)]
pub struct ByWorlds {
    asked: u64,
}

impl Model for ByWorlds {
    ghost use Rattle.std.specs.Prelude.{ℕ};

    ghost Value = { ℕ };

    ghost view = { λ g. g.asked };
}

impl ByWorlds {
    pub fn new() -> ByWorlds
        ensures { result ≡ 0 }
    {
        ByWorlds { asked: 0 }
    }
}

impl Guide for ByWorlds {
    ghost asked = { λ g. g };

    fn score(&mut self, view: &View) -> u64
        ensures score { result ≡ view.now.worlds }
        ensures asked { self.new ≡ one_more self.old }
        ensures rose { Rose self.old self.new }
        ensures grows { self.old ≤ self.new }
    {
        self.asked = raised(self.asked);
        u64::from(view.worlds)
    }

    fn met(&mut self, _depth: u32)
        ensures { self.new ≡ self.old }
    {}
}
