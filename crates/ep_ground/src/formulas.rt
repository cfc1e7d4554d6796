//! The formulas of a task in file order, and the nodes of their ground forms.

ghost use Rattle.std.specs.Prelude.{◌≡◌, ◌++◌, ◌≤◌, false, true, All, IfErr, IfOk, None, OnErr, OnOk, Some, length, map};
ghost use Rattle.ep_lex.specs.declared.limits.TheConstants.{MOST_TOKENS};
ghost use Rattle.ep_logic.specs.declared.limits.TheConstants.{MOST_GROUND_ACTIONS};
ghost use Rattle.ep_initial.specs.Initial.{init_formulas};
ghost use Rattle.ep_schema.specs.Written.{written};
ghost use Rattle.ep_ground.specs.Faults as faults;
ghost use Rattle.ep_ground.specs.Written as spec;

use crate::fault::GroundError;
use ep_logic::{List, OutOfMemory};
use ep_schema::written::{WrittenFormula, push_formula, push_schemas};
use ep_tree::InitTree;
use ep_universe::count::{count_nodes, first_token};
use ep_universe::universe::Universe;
use std::alloc::Global;

fn push_init<'a>(
    formulas: &mut List<WrittenFormula<'a>>,
    init: &'a InitTree,
) -> Result<(), OutOfMemory>
    ensures { OnOk result (formulas.new ≡ formulas.old ++ map (written 1) (init_formulas init.now)) }
{
    match init {
        InitTree::Explicit { .. } => Ok(()),
        InitTree::Lawful {
            law,
            designated,
            ..
        } => {
            push_formula(formulas, 1, law)?;
            push_formula(formulas, 1, designated)
        }
    }
}

/// The formulas of a task in file order, each with the number of its ground forms.
pub fn task_formulas(
    alloc: Global,
    universe: &Universe,
) -> Result<List<WrittenFormula>, OutOfMemory>
    ensures { IfOk result (λ formulas. formulas ≡ spec.task_formulas universe.now.names universe.now.tree) }
{
    let tree = universe.tree();
    let mut formulas = List::new(alloc);
    push_init(&mut formulas, &tree.init)?;
    push_schemas(alloc, &mut formulas, universe, tree.schemas.as_slice())?;
    push_formula(&mut formulas, 1, &tree.goal)?;
    Ok(formulas)
}

/// The nodes of all ground forms of a formula. One that has none is passed over.
fn nodes_of(universe: &Universe, written: &WrittenFormula) -> Result<u64, GroundError>
    requires { written.now.times ≤ MOST_GROUND_ACTIONS }
    ensures small { OnOk result (faults.is_too_large universe.now.names written.now ≡ false) }
    ensures value { IfOk result (λ nodes. nodes ≡ faults.nodes_of universe.now.names written.now) }
    ensures most { IfOk result (λ nodes. nodes ≤ 67108864) }
    ensures large { OnErr result (faults.is_too_large universe.now.names written.now ≡ true) }
    ensures fault { IfErr result (λ fault. fault ≡ faults.too_large_formula written.now) }
{
    if written.times == 0 {
        return Ok(0);
    }
    match count_nodes(universe, written.formula) {
        Some(nodes) => Ok(written.times * u64::from(nodes)),
        None => Err(GroundError::TooLargeFormula {
            token: first_token(written.formula),
        }),
    }
}

/// The nodes of all ground forms of formulas, or else the first formula whose ground form is too large.
pub fn node_total(universe: &Universe, formulas: &[WrittenFormula]) -> Result<u64, GroundError>
    requires few { length formulas.now ≤ MOST_TOKENS }
    requires times { All (λ x. x.times ≤ MOST_GROUND_ACTIONS) formulas.now }
    ensures small { OnOk result (faults.too_large universe.now.names formulas.now ≡ None) }
    ensures value { IfOk result (λ total. total ≡ faults.node_total universe.now.names formulas.now) }
    ensures fault { IfErr result (λ fault. faults.too_large universe.now.names formulas.now ≡ Some fault) }
{
    let mut total = 0;
    for written in formulas {
        total += nodes_of(universe, written)?;
    }
    Ok(total)
}
