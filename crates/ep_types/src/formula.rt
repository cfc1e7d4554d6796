//! Formulas, and the parameters that they bring into force.

ghost use Rattle.std.specs.Prelude.{◌≡◌, OnOk};
ghost use Rattle.ep_types.specs.Faults.{IsJudged};
ghost use Rattle.ep_types.specs.Places.{scope, with_params, both};
ghost use Rattle.ep_types.specs.Uses.{param_uses, knower_uses, knowers_uses, equality_uses, formula_uses, formulas_uses};

use crate::fault::TypeError;
use crate::judge::{
    check_agent, check_atom, check_group, check_knowledge, check_new_param, check_used_object,
    check_used_type,
};
use crate::scope::{Declared, Frame};
use crate::table::copy_text;
use ep_tree::{FormulaTree, GroupTree, Name, ParamTree};
use std::alloc::Global;

/// Checks a list of parameters, and brings them into force.
#[tactic(auto, using(crate::proofs::NamesLemmas::absent_among))]
pub fn bring_into_force(
    alloc: Global,
    names: &Declared,
    frame: &mut Frame,
    list: &[ParamTree],
) -> Result<(), TypeError>
    ensures judged { IsJudged (param_uses 0 list.now (scope names.now frame.old)) result }
    ensures in_force { OnOk result (scope names.now frame.new ≡ with_params (scope names.now frame.old) list.now) }
{
    for (number, param) in list.iter().enumerate() {
        check_new_param(names, frame, number, &param.name)?;
        check_used_type(&names.types, &param.kind)?;
        let kind = copy_text(alloc, &param.kind.text)?;
        frame.params.add(alloc, param.name.text.as_slice(), kind)?;
    }
    Ok(())
}

/// `knows`, and the name behind it.
fn check_knower(names: &Declared, frame: &Frame, token: u32, name: &Name) -> Result<(), TypeError>
    ensures { IsJudged (knower_uses token name.now (scope names.now frame.now)) result }
{
    check_knowledge(frame, token)?;
    check_agent(names, frame, name)
}

/// `common`, and the group behind it.
fn check_knowers(
    names: &Declared,
    frame: &Frame,
    token: u32,
    who: &GroupTree,
) -> Result<(), TypeError>
    ensures { IsJudged (knowers_uses token who.now (scope names.now frame.now)) result }
{
    check_knowledge(frame, token)?;
    check_group(names, frame, who)
}

/// The two sides of an equality.
fn check_sides(names: &Declared, frame: &Frame, left: &Name, right: &Name) -> Result<(), TypeError>
    ensures { IsJudged (equality_uses left.now right.now (scope names.now frame.now)) result }
{
    check_used_object(names, frame, left)?;
    check_used_object(names, frame, right)
}

/// Checks a formula. The parameters in force stay.
#[cycle(formula)]
pub fn check_formula_in(
    alloc: Global,
    names: &Declared,
    frame: &mut Frame,
    tree: &FormulaTree,
) -> Result<(), TypeError>
    ensures judged { IsJudged (formula_uses tree.now (scope names.now frame.old)) result }
    ensures kept { OnOk result (frame.new ≡ frame.old) }
{
    match tree {
        FormulaTree::True { .. } => Ok(()),
        FormulaTree::False { .. } => Ok(()),
        FormulaTree::Atom { atom: inner } => check_atom(names, frame, inner),
        FormulaTree::Not { inner, .. } => check_formula_in(alloc, names, frame, inner.get()),
        FormulaTree::Knows {
            token,
            agent: name,
            inner,
        } => {
            check_knower(names, frame, *token, name)?;
            check_formula_in(alloc, names, frame, inner.get())?;
            Ok(())
        }
        FormulaTree::Common {
            token,
            group: who,
            inner,
        } => {
            check_knowers(names, frame, *token, who)?;
            check_formula_in(alloc, names, frame, inner.get())?;
            Ok(())
        }
        FormulaTree::Forall { params, inner, .. } => {
            check_quantified(alloc, names, frame, params.as_slice(), inner.get())
        }
        FormulaTree::Exists { params, inner, .. } => {
            check_quantified(alloc, names, frame, params.as_slice(), inner.get())
        }
        FormulaTree::Equal { left, right, .. } => check_sides(names, frame, left, right),
        FormulaTree::Paren { inner, .. } => check_formula_in(alloc, names, frame, inner.get()),
        FormulaTree::And { parts, .. } => check_formulas(alloc, names, frame, parts.as_slice()),
        FormulaTree::Or { parts, .. } => check_formulas(alloc, names, frame, parts.as_slice()),
    }
}

/// A formula behind a quantifier, whose parameters are in force in it alone.
#[cycle(formula)]
fn check_quantified(
    alloc: Global,
    names: &Declared,
    frame: &mut Frame,
    params: &[ParamTree],
    inner: &FormulaTree,
) -> Result<(), TypeError>
    ensures judged { IsJudged (both (param_uses 0 params.now (scope names.now frame.old)) (formula_uses inner.now (with_params (scope names.now frame.old) params.now))) result }
    ensures kept { OnOk result (frame.new ≡ frame.old) }
{
    let before = frame.params.len();
    bring_into_force(alloc, names, frame, params)?;
    check_formula_in(alloc, names, frame, inner)?;
    frame.params.truncate(before);
    Ok(())
}

/// The parts of a conjunction or a disjunction.
#[cycle(formula)]
fn check_formulas(
    alloc: Global,
    names: &Declared,
    frame: &mut Frame,
    parts: &[FormulaTree],
) -> Result<(), TypeError>
    ensures judged { IsJudged (formulas_uses parts.now (scope names.now frame.old)) result }
    ensures kept { OnOk result (frame.new ≡ frame.old) }
{
    for part in parts {
        check_formula_in(alloc, names, frame, part)?;
    }
    Ok(())
}
