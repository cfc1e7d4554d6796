ghost use Rattle.std.specs.Prelude.{◌≡◌, ◌<◌, ◌≤◌, ◌↔◌, ◌++◌, [], length, slice_index_or, sum_by, IsTrue, IfOk, OnOk};
ghost use Rattle.std.specs.Ordering.{nat_cmp};
ghost use Rattle.std.specs.List.{AllByRecursion, list_all};
ghost use Rattle.ep_logic.specs.Numbers.{table};
ghost use Rattle.ep_logic.specs.Rows.{value_at};
ghost use Rattle.ep_theory.specs.Rising.{IsIn, IsRising};
ghost use Rattle.ep_theory.specs.Equivalences.{IsEquivalence};
ghost use Rattle.ep_theory.specs.Relations.{all_pairs};
ghost use Rattle.ep_kripke.specs.declared.limits.TheConstants.{MOST_WORLDS};
ghost use Rattle.ep_kripke.specs.Relations.{named_rows};
ghost use Rattle.ep_kripke.specs.States.{AreRow};
ghost use Rattle.ep_kripke.specs.Equivalence.{IsClass};

use crate::row_set::RowSet;
use ep_logic::{Bits, OutOfMemory};
use std::alloc::{AllocError, Global};
use std::marker::Model;
use std::rc::Rc;

#[derive(Drop)]
struct Named {
    names: Vec<u32>,
    rows: RowSet,
    links: u64,
}

/// The links of one agent, shared by its owners: for each world the number of its row, and the rows. Contracts see the
/// successors of each world.
#[derive(Drop)]
pub struct Relation {
    named: Rc<Named>,
}

impl Model for Relation {
    ghost use Rattle.std.specs.Prelude.{List, ℕ};
    ghost use Rattle.ep_kripke.specs.Relations.{named_rows, IsNamed};

    ghost Value = { List (List ℕ) };

    ghost view = { λ r. named_rows r.named.value.names.items r.named.value.rows };

    ghost invariant = { λ r. IsNamed r.named.value.names.items r.named.value.rows r.named.value.links };
}

impl Relation {
    /// For each name its row. `links` is how long these rows are together.
    pub fn from_named(
        alloc: Global,
        names: Vec<u32>,
        rows: RowSet,
        links: u64,
    ) -> Result<Relation, OutOfMemory>
        requires few { length rows ≤ MOST_WORLDS }
        requires within { AllByRecursion (λ i. i < length rows) names.items }
        requires count { links ≡ sum_by length (named_rows names.items rows) }
        ensures { IfOk result (λ r. r ≡ named_rows names.items rows) }
    {
        let named = Named { names, rows, links };
        Ok(Relation {
            named: Rc::new(alloc, named).map_err(AllocError::from)?,
        })
    }

    /// The number of worlds.
    pub fn len(&self) -> usize
        ensures { result ≡ length self.now }
    {
        self.named.names.len()
    }

    /// The number of links.
    pub fn total(&self) -> u64
        ensures { result ≡ sum_by length self.now }
    {
        self.named.links
    }

    /// For each world the number of its row.
    pub fn names(&self) -> (&[u32], &RowSet)
        ensures few { length result.1.now ≤ MOST_WORLDS }
        ensures within { AllByRecursion (λ i. i < length result.1.now) result.0.now }
        ensures rows { named_rows result.0.now result.1.now ≡ self.now }
    {
        (&self.named.names, &self.named.rows)
    }

    /// Puts the successors of a world at the end.
    pub fn put_row(&self, w: u32, out: &mut Vec<u32>) -> Result<(), OutOfMemory>
        requires { w < length self.now }
        ensures { OnOk result (out.new.items ≡ out.old.items ++ slice_index_or self.now w []) }
    {
        let (names, rows) = self.names();
        rows.put_row(names[w as usize], out)
    }

    /// Whether the set is true at each successor of a world.
    pub fn within(&self, w: u32, set: &Bits) -> bool
        requires { w < length self.now }
        ensures { result ≡ list_all (value_at set.now) (slice_index_or self.now w []) }
    {
        let (names, rows) = self.names();
        rows.within(names[w as usize], set)
    }

    /// For each world, whether the set is true at each of its successors. Each row is looked at once.
    pub fn all_within(&self, alloc: Global, set: &Bits) -> Result<Bits, OutOfMemory>
        requires { length self.now ≤ MOST_WORLDS }
        ensures { IfOk result (λ row. row ≡
            table (λ w. list_all (value_at set.now) (slice_index_or self.now w [])) (length self.now)) }
    {
        let (names, rows) = self.names();
        let values = rows.all_within(alloc, set)?;
        let mut row = Bits::zeros(alloc, names.len() as u32)?;
        for w in 0..names.len() {
            row.set(w as u32, values.get(names[w]));
        }
        Ok(row)
    }

    /// Whether a world has the successor.
    pub fn has(&self, w: u32, v: u32) -> bool
        requires row { w < length self.now }
        requires rising { IsRising nat_cmp (slice_index_or self.now w []) }
        ensures { IsTrue result ↔ IsIn v (slice_index_or self.now w []) }
    {
        let (names, rows) = self.names();
        rows.has(names[w as usize], v)
    }

    /// Whether the links are an equivalence of the worlds. It takes no memory.
    pub fn is_equivalence(&self) -> bool
        requires worlds { length self.now ≤ MOST_WORLDS }
        requires rows { AllByRecursion (AreRow (length self.now)) self.now }
        ensures { IsTrue result ↔ IsEquivalence (length self.now) (all_pairs self.now) }
    {
        for w in 0..self.len() {
            if !self.is_class(w as u32) {
                return false;
            }
        }
        true
    }

    // Whether a world is one of its successors, and each of them has the same successors.
    fn is_class(&self, w: u32) -> bool
        requires world { w < length self.now }
        requires worlds { length self.now ≤ MOST_WORLDS }
        requires rows { AllByRecursion (AreRow (length self.now)) self.now }
        ensures { IsTrue result ↔ IsClass self.now w }
    {
        let (names, rows) = self.names();
        let name = names[w as usize];
        rows.has(name, w) && rows.is_shared(name, names)
    }

    /// The same links, for one owner more.
    pub fn share(&self) -> Result<Relation, OutOfMemory>
        ensures { IfOk result (λ r. r ≡ self.now) }
    {
        Ok(Relation {
            named: self.named.clone()?,
        })
    }
}
