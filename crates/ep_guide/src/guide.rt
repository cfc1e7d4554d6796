ghost use Rattle.std.specs.Prelude.{◌≡◌, ◌≤◌, ℕ};
ghost use Rattle.ep_base.specs.Counts.{Rose};

/// What a guide is told of a state: its depth, the numbers of worlds and of designated worlds of its contraction, and
/// of the goal's parts, how many there are and how many are not true at every designated world.
#[derive(Clone, Copy)]
pub struct View {
    pub depth: u32,
    pub worlds: u32,
    pub designated: u32,
    pub unmet: u32,
    pub parts: u32,
}

/// Scores states, the least first. Nothing is assumed of the scores, and neither call takes memory. (This project's
/// own.)
pub trait Guide: Drop {
    /// How often a score was asked for; it stays at the greatest u64.
    ghost asked: { Self → ℕ };

    fn score(&mut self, view: &View) -> u64
        ensures rose { Rose (asked self.old) (asked self.new) }
        ensures grows { asked self.old ≤ asked self.new };

    /// Tells that a state at this depth reaches the goal.
    fn met(&mut self, depth: u32)
        ensures { asked self.new ≡ asked self.old };
}
