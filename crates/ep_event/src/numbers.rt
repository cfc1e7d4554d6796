ghost use Rattle.std.specs.Prelude.{◌≡◌, [], ◌∷◌, ◌++◌, OnOk, IfOk};

use ep_logic::OutOfMemory;
use smallvec::SmallVec;
use std::alloc::{AllocError, Global};
use std::marker::Model;

/// A short list of event numbers, of which two stand in the value itself.
#[derive(Debug, Drop)]
pub struct Numbers {
    items: SmallVec<u32, 2>,
}

impl Model for Numbers {
    ghost use Rattle.std.specs.Prelude.{List, ℕ};

    ghost Value = { List ℕ };

    ghost view = { λ n. n.items.items };
}

impl Numbers {
    pub fn new(alloc: Global) -> Numbers
        ensures { result ≡ [] }
    {
        Numbers {
            items: SmallVec::new(alloc),
        }
    }

    pub fn from_slice(alloc: Global, items: &[u32]) -> Result<Numbers, OutOfMemory>
        ensures { IfOk result (λ n. n ≡ items.now) }
    {
        Ok(Numbers {
            items: SmallVec::from_slice(alloc, items)?,
        })
    }

    pub fn push(&mut self, n: u32) -> Result<(), OutOfMemory>
        ensures { OnOk result (self.new ≡ self.old ++ n ∷ []) }
    {
        self.items.push(n).map_err(AllocError::from)?;
        Ok(())
    }

    pub fn as_slice(&self) -> &[u32]
        ensures { result.now ≡ self.now }
    {
        self.items.as_slice()
    }
}
