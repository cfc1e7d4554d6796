//! Formulas over the names of a ground task.

ghost use Rattle.std.specs.Prelude.{◌≡◌, [], IfErr, IfOk, IsTrue, None, length};
ghost use Rattle.ep_base.specs.Refusals.{Reports};
ghost use Rattle.ep_theory.specs.Fits.{Fits, fits_in};
ghost use Rattle.ep_tree.specs.Formed.{IsFormedFormula};
ghost use Rattle.ep_tree.specs.Grammar.{formulas};
ghost use Rattle.ep_tree.specs.Marks.{IsShallow};
ghost use Rattle.ep_types.specs.Tasks.{declarations};
ghost use Rattle.ep_universe.specs.Atoms.{atoms_of};
ghost use Rattle.ep_universe.specs.Formulas.{ground_of};
ghost use Rattle.ep_universe.specs.Objects.{agents_of};
ghost use Rattle.ep_ground.specs.FormulaFaults.{formula_refusal};

use crate::formula_fault::FormulaFault;
use crate::task::Task;
use ep_logic::Formula;
use ep_tree::FormulaTree;
use ep_types::check_formula;
use ep_universe::count::{count_nodes, first_token};
use ep_universe::formula::ground_form;
use ep_universe::universe::Universe;
use std::alloc::Global;

/// The ground form of a formula over the names of a universe, where no parameter is in force.
fn ground_in(
    alloc: Global,
    universe: &Universe,
    tree: &FormulaTree,
) -> Result<Formula, FormulaFault>
    requires formed { IsFormedFormula tree.now }
    requires shallow { IsShallow (formulas.marks tree.now) }
    ensures form { IfOk result (λ f. f ≡ ground_of universe.now.names tree.now []) }
    ensures fits { IfOk result (λ f. IsTrue (fits_in (length (agents_of universe.now.names)) (length (atoms_of universe.now.names)) f)) }
    ensures allowed { IfOk result (λ f. formula_refusal universe.now.names tree.now ≡ None) }
    ensures refused { IfErr result (Reports FormulaFault.OutOfMemory (formula_refusal universe.now.names tree.now)) }
{
    check_formula(alloc, universe.typed(), tree)?;
    match count_nodes(universe, tree) {
        None => Err(FormulaFault::TooLarge {
            token: first_token(tree),
        }),
        Some(_) => Ok(ground_form(alloc, universe, tree, &[])?),
    }
}

/// The ground form of a formula by itself, over the names of a task. The formula is one that the reader gives. An error
/// is the first fault of its types, or else that its ground form has too many nodes.
pub fn ground_formula(
    alloc: Global,
    task: &Task,
    tree: &FormulaTree,
) -> Result<Formula, FormulaFault>
    requires formed { IsFormedFormula tree.now }
    requires shallow { IsShallow (formulas.marks tree.now) }
    ensures form { IfOk result (λ f. f ≡ ground_of (declarations task.now.tree) tree.now []) }
    ensures fits { IfOk result (Fits task.now.problem.initial) }
    ensures allowed { IfOk result (λ f. formula_refusal (declarations task.now.tree) tree.now ≡ None) }
    ensures refused { IfErr result (Reports FormulaFault.OutOfMemory (formula_refusal (declarations task.now.tree) tree.now)) }
{
    ground_in(alloc, task.universe(), tree)
}
