//! Types, and their order.

ghost use Rattle.std.specs.Prelude.{◌≡◌, ◌+◌, ◌++◌, ◌∷◌, [], ◌<◌, ◌≤◌, false, true, codes, length, IsTrue, ◌↔◌, IfOk, OnOk};
ghost use Rattle.ep_types.specs.Links.{AreLinked, IsAbove, depth_at, far_at, name_at, typings, up_at};
ghost use Rattle.ep_types.specs.Names.{is_among, is_below, names_of, Reaches};

use crate::table::Table;
use ep_base::List;
use std::alloc::{AllocError, Global};
use std::marker::Model;

/// A type's parent, by name and by number, the number of a type further above, and how many steps it is from the first type.
#[derive(Drop)]
pub struct TypeRow {
    pub parent: List<u8>,
    pub up: usize,
    pub far: usize,
    pub depth: usize,
}

/// Types in order of declaration, which contracts see with their parents.
pub struct Types {
    rows: Table<TypeRow>,
}

impl Drop for Types {
    fn drop(self) {
        let Types { rows: _rows } = self;
    }
}

impl Model for Types {
    ghost use Rattle.std.specs.Prelude.{List, ℕ};
    ghost use Rattle.ep_types.specs.Links.{AreLinked, typings};

    ghost Value = { List (List ℕ × List ℕ) };

    ghost view = { λ t. typings t.rows };

    ghost invariant = { λ t. AreLinked t.rows };
}

/// How many steps a type is from the first one.
fn depth_of(rows: &Table<TypeRow>, at: usize) -> usize
    requires linked { AreLinked rows.now }
    requires there { at < length rows.now }
    ensures value { result ≡ depth_at rows.now at }
    ensures small { result ≤ at }
{
    rows.value(at).depth
}

/// The number of the parent of a type that is not the first one.
fn up_of(rows: &Table<TypeRow>, at: usize) -> usize
    requires linked { AreLinked rows.now }
    requires there { at < length rows.now }
    requires deep { 0 < depth_at rows.now at }
    ensures above { IsAbove rows.now at result }
    ensures depth { depth_at rows.now at ≡ depth_at rows.now result + 1 }
    ensures there { result < length rows.now }
{
    rows.value(at).up
}

/// The number of the type further above that a type knows.
fn far_of(rows: &Table<TypeRow>, at: usize) -> usize
    requires linked { AreLinked rows.now }
    requires there { at < length rows.now }
    ensures above { IsAbove rows.now at result }
    ensures higher { 0 < depth_at rows.now at → depth_at rows.now result < depth_at rows.now at }
    ensures there { result < length rows.now }
{
    rows.value(at).far
}

/// The number of a type on the way up that is no higher than a depth.
fn find_next(rows: &Table<TypeRow>, at: usize, depth: usize) -> usize
    requires linked { AreLinked rows.now }
    requires there { at < length rows.now }
    requires deep { depth < depth_at rows.now at }
    ensures above { IsAbove rows.now at result }
    ensures within { depth ≤ depth_at rows.now result }
    ensures higher { depth_at rows.now result < depth_at rows.now at }
    ensures there { result < length rows.now }
{
    let far = far_of(rows, at);
    if depth_of(rows, far) < depth {
        up_of(rows, at)
    } else {
        far
    }
}

/// Whether a type is another one or below it, by their numbers.
fn climbs_to(rows: &Table<TypeRow>, kind: usize, above: usize) -> bool
    requires linked { AreLinked rows.now }
    requires kind { kind < length rows.now }
    requires above { above < length rows.now }
    ensures { result ≡ is_below (typings rows.now) (name_at rows.now kind) (name_at rows.now above) }
{
    let depth = depth_of(rows, above);
    let mut at = kind;
    while depth_of(rows, at) > depth {
        at = find_next(rows, at, depth);
    }
    at == above
}

/// The number of a type at or above another one, which the next below is to know:
/// the steps to it double where the two steps before it are as long.
fn choose_far(rows: &Table<TypeRow>, up: usize) -> usize
    requires linked { AreLinked rows.now }
    requires there { up < length rows.now }
    ensures { IsAbove rows.now up result }
{
    let far = far_of(rows, up);
    let further = far_of(rows, far);
    let depth = depth_of(rows, far);
    if depth_of(rows, up) - depth == depth - depth_of(rows, further) {
        further
    } else {
        up
    }
}

/// A type below one that is there.
fn make_row(
    alloc: Global,
    rows: &Table<TypeRow>,
    up: usize,
    parent: &[u8],
) -> Result<TypeRow, AllocError>
    requires linked { AreLinked rows.now }
    requires there { up < length rows.now }
    ensures parent { IfOk result (λ row. row.parent ≡ parent.now) }
    ensures up { IfOk result (λ row. row.up ≡ up) }
    ensures far { IfOk result (λ row. IsAbove rows.now up row.far) }
    ensures depth { IfOk result (λ row. row.depth ≡ depth_at rows.now up + 1) }
{
    let count = rows.len();
    prove!(up < count);
    let far = choose_far(rows, up);
    let depth = depth_of(rows, up) + 1;
    let parent = List::from_vec(Vec::from_slice(alloc, parent)?);
    Ok(TypeRow {
        parent,
        up,
        far,
        depth,
    })
}

/// Whether a type is another one or below it, by their names.
fn is_name_below(rows: &Table<TypeRow>, kind: &[u8], above: &[u8]) -> bool
    requires { AreLinked rows.now }
    ensures { result ≡ is_below (typings rows.now) kind.now above.now }
{
    match rows.index(kind) {
        None => kind == above,
        Some(low) => match rows.index(above) {
            None => false,
            Some(high) => climbs_to(rows, low, high),
        },
    }
}

fn make_first_types(alloc: Global) -> Result<Types, AllocError>
    ensures { IfOk result (λ types. types ≡ (codes "object", codes "object") ∷ []) }
{
    let parent = List::from_vec(Vec::from_slice(alloc, b"object")?);
    let mut rows = Table::new(alloc);
    rows.add(
        alloc,
        b"object",
        TypeRow {
            parent,
            up: 0,
            far: 0,
            depth: 0,
        },
    )?;
    Ok(Types { rows })
}

impl Types {
    /// The types that are there from the start: `agent` is below `object`, which is above all.
    pub fn start(alloc: Global) -> Result<Types, AllocError>
        ensures { IfOk result (λ types. types ≡ (codes "object", codes "object") ∷ (codes "agent", codes "object") ∷ []) }
    {
        let mut types = make_first_types(alloc)?;
        types.add(alloc, b"agent", b"object")?;
        Ok(types)
    }

    /// Whether a type is there.
    pub fn has(&self, name: &[u8]) -> bool
        ensures { result ≡ is_among name.now (names_of self.now) }
    {
        self.rows.has(name)
    }

    /// Whether a type is another one or below it, which is whether it reaches it through parents.
    pub fn is_below(&self, kind: &[u8], above: &[u8]) -> bool
        ensures value { result ≡ is_below self.now kind.now above.now }
        ensures reaches { IsTrue result ↔ Reaches self.now kind.now above.now }
    {
        is_name_below(&self.rows, kind, above)
    }

    /// Adds a type that is not there, below one that is.
    pub fn add(&mut self, alloc: Global, name: &[u8], parent: &[u8]) -> Result<(), AllocError>
        requires new { is_among name.now (names_of self.old) ≡ false }
        requires known { is_among parent.now (names_of self.old) ≡ true }
        ensures { OnOk result (self.new ≡ self.old ++ (name.now, parent.now) ∷ []) }
    {
        let up = self.rows.index(parent).unwrap();
        let row = make_row(alloc, &self.rows, up, parent)?;
        self.rows.add(alloc, name, row)?;
        Ok(())
    }
}
