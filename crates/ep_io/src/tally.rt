// What a device counts.
ghost use Rattle.std.specs.Prelude.{◌≡◌, ◌≤◌, ◌+◌, min};
ghost use Rattle.ep_base.specs.Counts.{last_count, one_more};

/// How often a device failed, and how many bytes it took. Each count stays at the greatest u64.
#[derive(Clone, Copy, Debug)]
pub struct Tally {
    pub faults: u64,
    pub taken: u64,
}

impl Tally {
    /// Nothing is counted yet.
    pub fn new() -> Tally
        ensures { result ≡ record { faults = 0; taken = 0 } }
    {
        Tally {
            faults: 0,
            taken: 0,
        }
    }

    pub fn count_fault(&mut self)
        ensures counted { self.new ≡ record { faults = one_more self.old.faults; taken = self.old.taken } }
        ensures faults { self.old.faults ≤ self.new.faults }
    {
        self.faults = self.faults.saturating_add(1);
    }

    pub fn count_taken(&mut self, bytes: usize)
        ensures counted { self.new ≡ record { faults = self.old.faults; taken = min (self.old.taken + bytes) last_count } }
        ensures taken { self.old.taken ≤ self.new.taken }
    {
        self.taken = self.taken.saturating_add(bytes as u64);
    }
}
