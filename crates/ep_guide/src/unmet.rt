//! The guide that counts the goal's parts.

ghost use Rattle.std.specs.Prelude.{◌≡◌, ◌≤◌};
ghost use Rattle.ep_base.specs.Counts.{Rose};

use crate::guide::{Guide, View};
use crate::guides::raised;
use std::marker::Model;

/// Scores the unmet parts, then the depth, and prefers the first state with fewer unmet parts than any before.
/// Contracts see how often it was asked and the least number of unmet parts so far.
#[derive(Drop)]
pub struct ByUnmet {
    asked: u64,
    least: u32,
}

impl Model for ByUnmet {
    ghost use Rattle.ep_guide.specs.Scores.{Seen};

    ghost Value = { Seen };

    ghost view = { λ g. record { asked = g.asked; least = g.least } };
}

impl ByUnmet {
    /// Before the first view the least number of unmet parts is the greatest u32.
    pub fn new() -> ByUnmet
        ensures { result ≡ record { asked = 0; least = u32.MAX } }
    {
        ByUnmet {
            asked: 0,
            least: u32::MAX,
        }
    }
}

impl Guide for ByUnmet {
    ghost use Rattle.ep_guide.specs.Scores.{unmet_score, with_view};

    ghost asked = { λ g. g.asked };

    fn score(&mut self, view: &View) -> u64
        ensures score { result ≡ unmet_score self.old view.now }
        ensures seen { self.new ≡ with_view self.old view.now }
        ensures rose { Rose self.old.asked self.new.asked }
        ensures grows { self.old.asked ≤ self.new.asked }
    {
        self.asked = raised(self.asked);
        let plain = u64::from(view.unmet) * 1024 + u64::from(view.depth);
        if view.unmet < self.least {
            self.least = view.unmet;
            plain.saturating_sub(512)
        } else {
            plain
        }
    }

    fn met(&mut self, _depth: u32)
        ensures { self.new ≡ self.old }
    {}
}
