ghost use Rattle.std.specs.Prelude.{◌≡◌, [], ◌↔◌, IsTrue, IsNone, OnOk, OnErr};
ghost use Rattle.std.specs.List.Sorted.{IsNonDecreasingBy};

use crate::queues::{Queues, pop, push};
use ep_logic::{OutOfMemory, StateId};
use std::alloc::Global;
use std::marker::Model;

/// A state that waits under a score.
#[derive(Clone, Copy)]
pub struct Waiting {
    pub score: u64,
    pub id: StateId,
}

/// The states that wait, which contracts see in the order in which they leave. A push and a pop cost the logarithm of
/// the number of scores at which something waits.
#[derive(Drop)]
pub struct Frontier {
    queues: Queues,
    alloc: Global,
}

impl Model for Frontier {
    ghost use Rattle.std.specs.Prelude.{List};
    ghost use Rattle.ep_guide.specs.declared.frontier.Waiting.{Waiting};
    ghost use Rattle.ep_guide.specs.Waitings.{waiting_in, AllInUse};

    ghost Value = { List Waiting };

    ghost view = { λ f. waiting_in f.queues.entries };

    ghost invariant = { λ f. AllInUse f.queues.entries };
}

impl Frontier {
    ghost use Rattle.ep_guide.specs.Waitings.{placed, waiting, Pops};

    /// It takes no memory before the first push.
    pub fn new(alloc: Global) -> Frontier
        ensures { result ≡ [] }
    {
        Frontier {
            queues: Queues::new(alloc),
            alloc,
        }
    }

    pub fn is_empty(&self) -> bool
        ensures { IsTrue result ↔ (self.now ≡ []) }
    {
        self.queues.is_empty()
    }

    /// The state waits behind all of its score or less.
    pub fn push(&mut self, score: u64, id: StateId) -> Result<(), OutOfMemory>
        ensures ok { OnOk result (self.new ≡ placed (waiting score id) self.old) }
        ensures err { OnErr result (self.new ≡ self.old) }
    {
        push(&mut self.queues, self.alloc, score, id)
    }

    /// The state with the least score, and among equals the one pushed first.
    pub fn pop(&mut self) -> Option<StateId>
        ensures none { IsNone result ↔ (self.old ≡ []) }
        ensures first { Pops self.old result self.new }
        ensures least_first { IsNonDecreasingBy (λ w. w.score) self.old }
    {
        pop(&mut self.queues)
    }
}
