// The truth of all formulas of a table.

ghost use Rattle.std.specs.Prelude.{◌≡◌, ◌<◌, not, length, map, take, IfOk};
ghost use Rattle.std.specs.List.{AllByRecursion};
ghost use Rattle.ep_theory.specs.Fits.{Fits};
ghost use Rattle.ep_truth.specs.Labels.{HasValues};
ghost use Rattle.ep_truth.specs.FormulaTables.{tree_at, truth_row, all_rows_test, any_rows_test};

use crate::common::label_common;
use crate::formula_table::{Entry, FormulaTable};
use crate::labels::{label_atom, label_knows};
use ep_kripke::State;
use ep_logic::{Bits, List, OutOfMemory};
use std::alloc::Global;

/// The truth of each formula of the table at each world: one row for each number, made once and in one pass.
pub fn label_all(
    alloc: Global,
    s: &State,
    formulas: &FormulaTable,
) -> Result<List<Bits>, OutOfMemory>
    requires { AllByRecursion (Fits s.now) formulas.now }
    ensures { IfOk result (λ rows. rows ≡ map (truth_row s.now) formulas.now) }
{
    let mut rows = List::new(alloc);
    for n in 0..formulas.len() {
        let row = label_entry(alloc, s, formulas, n, rows.as_slice())?;
        rows.push(row)?;
    }
    Ok(rows)
}

// The truth of one formula, from the rows of those before it.
fn label_entry(
    alloc: Global,
    s: &State,
    formulas: &FormulaTable,
    n: u32,
    rows: &[Bits],
) -> Result<Bits, OutOfMemory>
    requires fits { AllByRecursion (Fits s.now) formulas.now }
    requires number { n < length formulas.now }
    requires rows { rows.now ≡ map (truth_row s.now) (take n formulas.now) }
    ensures { IfOk result (λ row. row ≡ truth_row s.now (tree_at formulas.now n)) }
{
    let worlds = s.worlds();
    match formulas.entry(n) {
        Entry::True => Bits::ones(alloc, worlds),
        Entry::False => Bits::zeros(alloc, worlds),
        Entry::Atom(p) => label_atom(alloc, s, *p),
        Entry::Not(m) => flipped(alloc, &rows[*m as usize]),
        Entry::And(numbers) => join_and(alloc, worlds, rows, numbers.as_slice()),
        Entry::Or(numbers) => join_or(alloc, worlds, rows, numbers.as_slice()),
        Entry::Knows(a, m) => label_knows(alloc, s, *a, &rows[*m as usize]),
        Entry::Common(group, m) => label_common(alloc, s, group, &rows[*m as usize]),
    }
}

fn flipped(alloc: Global, row: &Bits) -> Result<Bits, OutOfMemory>
    ensures { IfOk result (λ new. new ≡ map not row.now) }
{
    let mut new = row.copy(alloc)?;
    new.flip();
    Ok(new)
}

// True where each of the rows with these numbers is.
fn join_and(alloc: Global, worlds: u32, rows: &[Bits], numbers: &[u32]) -> Result<Bits, OutOfMemory>
    requires long { AllByRecursion (λ row. length row ≡ worlds) rows.now }
    requires numbers { AllByRecursion (λ n. n < length rows.now) numbers.now }
    ensures { IfOk result (HasValues worlds (all_rows_test rows.now numbers.now)) }
{
    let mut joined = Bits::ones(alloc, worlds)?;
    for n in numbers {
        joined.and_with(&rows[*n as usize]);
    }
    Ok(joined)
}

// True where one of the rows with these numbers is.
fn join_or(alloc: Global, worlds: u32, rows: &[Bits], numbers: &[u32]) -> Result<Bits, OutOfMemory>
    requires long { AllByRecursion (λ row. length row ≡ worlds) rows.now }
    requires numbers { AllByRecursion (λ n. n < length rows.now) numbers.now }
    ensures { IfOk result (HasValues worlds (any_rows_test rows.now numbers.now)) }
{
    let mut joined = Bits::zeros(alloc, worlds)?;
    for n in numbers {
        joined.or_with(&rows[*n as usize]);
    }
    Ok(joined)
}
