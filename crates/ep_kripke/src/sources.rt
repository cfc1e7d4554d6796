ghost use Rattle.std.specs.Prelude.{◌≡◌, ℕ, ◌+◌, ◌<◌, ◌^◌, ◌++◌, [], ◌∷◌, length, replicate, sum_by, IfOk, OnOk, OnErr, All};
ghost use Rattle.ep_theory.specs.Rising.{IsIn};
ghost use Rattle.ep_kripke.specs.Sources.{row_at, with_source, with_sources};
ghost use Rattle.ep_kripke.specs.Taking.{without, taken};

use ep_logic::{Bits, OutOfMemory};
use std::alloc::{AllocError, Global};
use std::marker::Model;

/// A link into some world: the world that it comes from, and the place of the link before it into the same world.
#[derive(Clone, Copy, Debug)]
struct BackLink {
    from: u32,
    before: u32,
}

/// For each world the worlds that link to it, the latest first. Places count from 1, and 0 ends a chain.
#[derive(Drop)]
pub struct Sources {
    last: Vec<u32>,
    links: Vec<BackLink>,
}

impl Model for Sources {
    ghost use Rattle.std.specs.Prelude.{List, ℕ};
    ghost use Rattle.ep_kripke.specs.Sources.{chains, IsChained};

    ghost Value = { List (List ℕ) };

    ghost view = { λ s. chains s.links.items s.last.items };

    ghost invariant = { λ s. IsChained s.links.items s.last.items };
}

impl Sources {
    pub fn new(alloc: Global, worlds: u32) -> Result<Sources, OutOfMemory>
        ensures { IfOk result (λ rows. rows ≡ replicate worlds []) }
    {
        Ok(Sources {
            last: vec![in alloc; 0u32; worlds as usize]?,
            links: Vec::new(alloc),
        })
    }

    pub fn add(&mut self, from: u32, to: u32) -> Result<(), OutOfMemory>
        requires world { to < length self.old }
        requires room { sum_by length self.old + 1 < 2 ^ 32 }
        ensures ok { OnOk result (self.new ≡ with_source self.old from to) }
        ensures err { OnErr result (self.new ≡ self.old) }
    {
        let before = self.last[to as usize];
        let link = BackLink { from, before };
        self.links.push(link).map_err(AllocError::from)?;
        self.last[to as usize] = self.links.len() as u32;
        Ok(())
    }

    /// Adds a link from the world to each of the others.
    pub fn add_all(&mut self, from: u32, targets: &[u32]) -> Result<(), OutOfMemory>
        requires worlds { All (λ v. v < length self.old) targets.now }
        requires room { sum_by length self.old + length targets.now < 2 ^ 32 }
        ensures { OnOk result (self.new ≡ with_sources self.old from targets.now) }
    {
        for to in targets {
            self.add(from, *to)?;
        }
        Ok(())
    }

    /// Takes the sources of the world out of the row, and lists those that were in it.
    pub fn take_out(
        &self,
        v: u32,
        row: &mut Bits,
        waiting: &mut Vec<u32>,
    ) -> Result<(), OutOfMemory>
        requires world { v < length self.now }
        requires within { (w : ℕ) → IsIn w (row_at self.now v) → w < length row.old }
        ensures row { OnOk result (row.new ≡ without (row_at self.now v) row.old) }
        ensures waiting { OnOk result (waiting.new.items
            ≡ waiting.old.items ++ taken (row_at self.now v) row.old) }
    {
        let mut place = self.last[v as usize];
        while place != 0 {
            let link = self.links[(place - 1) as usize];
            if row.get(link.from) {
                row.set(link.from, false);
                waiting.push(link.from).map_err(AllocError::from)?;
            }
            place = link.before;
        }
        Ok(())
    }
}
