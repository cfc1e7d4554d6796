ghost use Rattle.std.specs.Prelude.{◌≡◌, [], ◌∷◌, ◌++◌, ◌<◌, length, None, Some, slice_get, IfOk, OnOk, OnErr, MatchOption};
ghost use Rattle.ep_theory.specs.Rising.{IsIn};
ghost use Rattle.ep_kripke.specs.RowTables.{AreDistinct, Keeps};

use crate::row::{Row, Words};
use ep_logic::OutOfMemory;
use indexmap::IndexMap;
use std::alloc::Global;
use std::marker::Model;
use std::rc::Rc;

/// Rows of truth values, each once, in the order in which they were first numbered.
pub struct RowTable {
    rows: IndexMap<Rc<Words>, Row>,
}

impl Drop for RowTable {
    fn drop(self) {
        let RowTable { rows: _rows } = self;
    }
}

impl Model for RowTable {
    ghost use Rattle.std.specs.Prelude.{List, Bool};
    ghost use Rattle.indexmap.specs.IndexMap.{values};
    ghost use Rattle.ep_kripke.specs.RowTables.{IsTable};

    ghost Value = { List (List Bool) };

    ghost view = { λ t. values t.rows };

    ghost invariant = { λ t. IsTable t.rows.entries };
}

impl RowTable {
    /// A table of no row. It takes no memory.
    pub fn new(alloc: Global) -> RowTable
        ensures { result ≡ [] }
    {
        RowTable {
            rows: IndexMap::new(alloc),
        }
    }

    /// The number of rows.
    pub fn len(&self) -> usize
        ensures value { result ≡ length self.now }
        ensures distinct { AreDistinct self.now }
    {
        self.rows.len()
    }

    /// The row at a place.
    pub fn row(&self, n: usize) -> &Row
        requires { n < length self.now }
        ensures value { slice_get self.now n ≡ Some result.now }
        ensures distinct { AreDistinct self.now }
    {
        &self.rows[n]
    }

    /// The place of a row, if it has one. It adds nothing.
    pub fn find(&self, row: &Row) -> Option<usize>
        ensures place { MatchOption result (¬ IsIn row.now self.now) (λ n. slice_get self.now n ≡ Some row.now) }
        ensures distinct { AreDistinct self.now }
    {
        self.rows.get_index_of(&row.words)
    }

    /// The place of a row, which goes last where it is new.
    pub fn number(&mut self, row: &Row) -> Result<usize, OutOfMemory>
        ensures place { IfOk result (λ n. slice_get self.new n ≡ Some row.now) }
        ensures known { OnOk result (IsIn row.now self.old → self.new ≡ self.old) }
        ensures new { OnOk result (¬ IsIn row.now self.old → self.new ≡ self.old ++ row.now ∷ []) }
        ensures kept { Keeps self.old self.new }
        ensures err { OnErr result (self.new ≡ self.old) }
    {
        if let Some(n) = self.find(row) {
            return Ok(n);
        }
        let n = self.len();
        self.put(row)?;
        Ok(n)
    }

    // Puts a row that is not there at the end.
    fn put(&mut self, row: &Row) -> Result<(), OutOfMemory>
        requires { ¬ IsIn row.now self.old }
        ensures ok { OnOk result (self.new ≡ self.old ++ row.now ∷ []) }
        ensures err { OnErr result (self.new ≡ self.old) }
    {
        let key = row.words.clone()?;
        let row = row.share()?;
        self.rows.insert(key, row)?;
        Ok(())
    }
}
