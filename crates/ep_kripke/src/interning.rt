// The rows of a state in a table, and the places that they have there.

ghost use Rattle.std.specs.Prelude.{◌≡◌, ◌<◌, ◌≤◌, ◌∷◌, ◌++◌, [], length, map, slice_get, slice_index, Some, IfOk};
ghost use Rattle.std.specs.List.{AllByRecursion, flat_map};
ghost use Rattle.ep_kripke.specs.declared.limits.TheConstants.{MOST_WORLDS};
ghost use Rattle.ep_kripke.specs.States.{AreRow};
ghost use Rattle.ep_kripke.specs.RowTables.{Keeps};
ghost use Rattle.ep_kripke.specs.Interning.{row_of, ArePlaces};

use crate::relation::Relation;
use crate::row::Row;
use crate::row_set::RowSet;
use crate::row_table::RowTable;
use crate::state::State;
use ep_logic::{BitTable, Bits, List, OutOfMemory};
use std::alloc::Global;

/// A state that is made of the rows of a table.
#[derive(Drop)]
pub struct InternedState {
    pub state: State,
    /// The numbers of worlds, agents and atoms, and then the places of the rows: for each world its truth row; for each
    /// agent, for each world, the row of its successors; the row of the designated worlds.
    pub key: List<usize>,
}

// Rows of a table, and their places there.
#[derive(Drop)]
struct InternedRows {
    rows: List<Row>,
    places: Vec<usize>,
}

// Links that are made of the rows of a table, and for each world the place of its row.
#[derive(Drop)]
struct InternedRelation {
    relation: Relation,
    places: Vec<usize>,
}

// The links of each agent, and for each agent, for each world, the place of its row.
#[derive(Drop)]
pub(crate) struct InternedRelations {
    pub(crate) relations: List<Relation>,
    pub(crate) places: Vec<usize>,
}

// The places of truth rows.
pub(crate) fn truth_places(
    alloc: Global,
    truth: &BitTable,
    table: &mut RowTable,
) -> Result<Vec<usize>, OutOfMemory>
    ensures places { IfOk result (λ ps. ArePlaces table.new ps.items truth.now.rows) }
    ensures kept { Keeps table.old table.new }
{
    let mut places = Vec::new(alloc);
    for w in 0..truth.len() {
        let row = Row::from_words(alloc, truth.row(w), truth.width())?;
        places.push(table.number(&row)?)?;
    }
    Ok(places)
}

// The place of the row of worlds.
pub(crate) fn worlds_place(
    alloc: Global,
    worlds: u32,
    numbers: &[u32],
    table: &mut RowTable,
) -> Result<usize, OutOfMemory>
    ensures place { IfOk result (λ n. slice_get table.new n ≡ Some (row_of worlds numbers.now)) }
    ensures kept { Keeps table.old table.new }
{
    let bits = Bits::from_places(alloc, worlds, numbers)?;
    let row = Row::from_bits(alloc, &bits)?;
    table.number(&row)
}

// The rows of a set, over so many worlds.
fn intern_rows(
    alloc: Global,
    worlds: u32,
    rows: &RowSet,
    table: &mut RowTable,
) -> Result<InternedRows, OutOfMemory>
    requires { length rows.now ≤ MOST_WORLDS }
    ensures rows { IfOk result (λ i. i.rows ≡ map (row_of worlds) rows.now) }
    ensures places { IfOk result (λ i. ArePlaces table.new i.places.items (map (row_of worlds) rows.now)) }
    ensures kept { Keeps table.old table.new }
{
    let mut shared = List::new(alloc);
    let mut places = Vec::new(alloc);
    for at in 0..rows.len() as u32 {
        let row = rows.row(alloc, at, worlds)?;
        let place = table.number(&row)?;
        shared.push(table.row(place).share()?)?;
        places.push(place)?;
    }
    Ok(InternedRows {
        rows: shared,
        places,
    })
}

// For each name the place of its row.
fn named_places(alloc: Global, names: &[u32], places: &[usize]) -> Result<Vec<usize>, OutOfMemory>
    requires { AllByRecursion (λ i. i < length places.now) names.now }
    ensures { IfOk result (λ ps. ps.items ≡ map (λ i. slice_index places.now i) names.now) }
{
    let mut all = Vec::with_capacity(alloc, names.len())?;
    for name in names {
        all.push(places[*name as usize])?;
    }
    Ok(all)
}

fn intern_relation(
    alloc: Global,
    worlds: u32,
    relation: &Relation,
    table: &mut RowTable,
) -> Result<InternedRelation, OutOfMemory>
    requires { AllByRecursion (AreRow worlds) relation.now }
    ensures relation { IfOk result (λ i. i.relation ≡ relation.now) }
    ensures places { IfOk result (λ i. ArePlaces table.new i.places.items (map (row_of worlds) relation.now)) }
    ensures kept { Keeps table.old table.new }
{
    let (names, rows) = relation.names();
    let InternedRows {
        rows: shared,
        places: row_places,
    } = intern_rows(alloc, worlds, rows, table)?;
    let places = named_places(alloc, names, &row_places)?;
    let names = Vec::from_slice(alloc, names)?;
    let links = relation.total();
    Ok(InternedRelation {
        relation: Relation::from_named(alloc, names, RowSet::from_shared(shared), links)?,
        places,
    })
}

pub(crate) fn intern_relations(
    alloc: Global,
    worlds: u32,
    relations: &[Relation],
    table: &mut RowTable,
) -> Result<InternedRelations, OutOfMemory>
    requires { AllByRecursion (AllByRecursion (AreRow worlds)) relations.now }
    ensures relations { IfOk result (λ i. i.relations ≡ relations.now) }
    ensures places { IfOk result (λ i. ArePlaces table.new i.places.items (flat_map (map (row_of worlds)) relations.now)) }
    ensures kept { Keeps table.old table.new }
{
    let mut all = List::new(alloc);
    let mut all_places = Vec::new(alloc);
    for relation in relations {
        let InternedRelation { relation, places } = intern_relation(
            alloc, worlds, relation, table,
        )?;
        all.push(relation)?;
        all_places.extend_from_slice(&places)?;
    }
    Ok(InternedRelations {
        relations: all,
        places: all_places,
    })
}

// The numbers, then the places of the truth rows, of the link rows and of the row of designated worlds.
pub(crate) fn key_of(
    alloc: Global,
    numbers: &[usize],
    truth: &[usize],
    links: &[usize],
    designated: usize,
) -> Result<List<usize>, OutOfMemory>
    ensures { IfOk result (λ key. key ≡ numbers.now ++ (truth.now ++ (links.now ++ designated ∷ []))) }
{
    let mut key = Vec::from_slice(alloc, numbers)?;
    key.extend_from_slice(truth)?;
    key.extend_from_slice(links)?;
    key.push(designated)?;
    Ok(List::from_vec(key))
}
