// Formulas that are numbered, and labelled all at once.

ghost use Rattle.std.specs.Prelude.{OnOk};
ghost use Rattle.std.specs.List.{AllByRecursion};
ghost use Rattle.ep_theory.specs.Fits.{Fits};

use crate::made::{Given, state};
use crate::truths::{Shape, formula};
use ep_kripke::State;
use ep_logic::{Formula, OutOfMemory};
use ep_truth::{FormulaTable, MOST_TREES, fits, label, label_all};
use std::alloc::Global;
use std::process::Abort;
use std::test::Fail;

// A formula, its number, and how many distinct subformulas the table has with it.
type Numbered<'a> = (Shape<'a>, u32, u32);

// The number of a formula that fits the state.
fn added(
    rt: &impl Abort,
    s: &State,
    formulas: &mut FormulaTable,
    f: &Formula,
) -> Result<u32, OutOfMemory>
    requires { AllByRecursion (Fits s.now) formulas.old }
    ensures { OnOk result (AllByRecursion (Fits s.now) formulas.new) }
{
    assert!(rt; fits(s, f));
    assert!(rt; u64::from(formulas.len()) + u64::from(f.nodes()) <= u64::from(MOST_TREES));
    let n = formulas.add(f)?;
    Ok(n)
}

fn add_each(
    rt: &impl Abort,
    alloc: Global,
    s: &State,
    formulas: &mut FormulaTable,
    rows: &[Numbered<'_>],
) -> Result<(), Fail>
    requires { AllByRecursion (Fits s.now) formulas.old }
    ensures { OnOk result (AllByRecursion (Fits s.now) formulas.new) }
{
    for (shape, number, len) in rows {
        let f = formula(rt, alloc, *shape)?;
        let found = added(rt, s, formulas, &f)?;
        assert_eq!(rt; found, *number, "{shape:?}");
        assert_eq!(rt; formulas.len(), *len, "{shape:?}");
    }
    Ok(())
}

// The row of each formula is its label.
fn check_rows(
    rt: &impl Abort,
    alloc: Global,
    s: &State,
    formulas: &FormulaTable,
    rows: &[Numbered<'_>],
) -> Result<(), Fail>
    requires { AllByRecursion (Fits s.now) formulas.now }
{
    let all = label_all(alloc, s, formulas)?;
    for (shape, number, _) in rows {
        let f = formula(rt, alloc, *shape)?;
        assert!(rt; fits(s, &f) && (*number as usize) < all.as_slice().len());
        let row = label(alloc, s, &f)?;
        let found = &all.as_slice()[*number as usize];
        assert_eq!(rt; found.words(), row.words(), "{shape:?}");
    }
    Ok(())
}

// The first agent was told of heads at world 0, the second was not.
#[test]
fn shared_parts_have_one_number(rt: HostRuntime) -> Result<(), Fail> {
    let told = Given {
        agents: 2,
        atoms: 1,
        worlds: &[&[0], &[0], &[]],
        links: &[
            (0, 0, 0),
            (0, 1, 1),
            (0, 1, 2),
            (0, 2, 1),
            (0, 2, 2),
            (1, 0, 1),
            (1, 0, 2),
            (1, 1, 1),
            (1, 1, 2),
            (1, 2, 1),
            (1, 2, 2),
        ],
        designated: &[0],
    };
    let rows: [Numbered<'_>; 10] = [
        (Shape::HeadsAndKnows(0), 2, 3),
        (Shape::TailsOrKnows(0), 4, 5),
        (Shape::HeadsAndKnows(0), 2, 5),
        (Shape::TailsOrKnows(1), 6, 7),
        (Shape::Common(&[0, 1]), 7, 8),
        (Shape::Common(&[0]), 8, 9),
        (Shape::Atom(0), 0, 9),
        (Shape::Tails, 3, 9),
        (Shape::Knows(1), 5, 9),
        (Shape::True, 9, 10),
    ];
    let s = state(&rt, rt.alloc(), &told)?;
    let mut formulas = FormulaTable::new(rt.alloc());
    add_each(&rt, rt.alloc(), &s, &mut formulas, &rows)?;
    check_rows(&rt, rt.alloc(), &s, &formulas, &rows)
}
