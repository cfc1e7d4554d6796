//! Ground forms of formulas.

ghost use Rattle.std.specs.Prelude.{◌≡◌, ◌+◌, ◌<◌, ◌≤◌, ◌^◌, ◌==◌, [], ◌∷◌, false, length, map, if◌then◌else◌, IfOk, MatchResult};
ghost use Rattle.ep_logic.specs.declared.limits.TheConstants.{MOST_AGENTS};
ghost use Rattle.ep_logic.specs.AgentSets.{is_nobody};
ghost use Rattle.ep_logic.specs.declared.formula.Node.TheVariants.{Not, Knows, Common, And, Or, True, False};
ghost use Rattle.ep_universe.specs.Formulas.{ground_of, conjunction, disjunction, instances};
ghost use Rattle.ep_universe.specs.Objects.{object_at};
ghost use Rattle.ep_universe.specs.Sizes.{IsBuildable, AreBuildable, IsMakeable, IsRepeatable};

use crate::objects::{Bound, widen};
use crate::universe::Universe;
use ep_binding::bindings;
use ep_logic::{AgentId, Agents, Formula, FormulaError, List, OutOfMemory};
use ep_tree::{FormulaTree, Name, ParamTree};
use std::alloc::Global;

/// The ground form under a binding of the parameters in force.
#[cycle(ground)]
pub fn ground_form(
    alloc: Global,
    universe: &Universe,
    tree: &FormulaTree,
    binding: &[Bound],
) -> Result<Formula, OutOfMemory>
    requires { IsBuildable universe.now.names tree.now }
    ensures { IfOk result (λ f. f ≡ ground_of universe.now.names tree.now binding.now) }
{
    match tree {
        FormulaTree::True { .. } => Ok(Formula::truth(true)),
        FormulaTree::False { .. } => Ok(Formula::truth(false)),
        FormulaTree::Atom { atom } => Ok(Formula::atom(universe.atom_at(alloc, binding, atom)?)),
        FormulaTree::Not { inner, .. } => {
            let f = ground_form(alloc, universe, inner.get(), binding)?;
            negation(alloc, f)
        }
        FormulaTree::Knows { agent, inner, .. } => {
            let f = ground_form(alloc, universe, inner.get(), binding)?;
            knowledge(alloc, universe.agent_at(binding, agent), f)
        }
        FormulaTree::Common { group, inner, .. } => {
            let f = ground_form(alloc, universe, inner.get(), binding)?;
            common_knowledge(alloc, universe.group_of(binding, group), f)
        }
        FormulaTree::Forall { params, inner, .. } => {
            let fs = ground_instances(alloc, universe, params.as_slice(), inner.get(), binding)?;
            conjunction(alloc, fs)
        }
        FormulaTree::Exists { params, inner, .. } => {
            let fs = ground_instances(alloc, universe, params.as_slice(), inner.get(), binding)?;
            disjunction(alloc, fs)
        }
        FormulaTree::Equal { left, right, .. } => Ok(equality(universe, binding, left, right)),
        FormulaTree::Paren { inner, .. } => ground_form(alloc, universe, inner.get(), binding),
        FormulaTree::And { parts, .. } => {
            let fs = ground_parts(alloc, universe, parts.as_slice(), binding)?;
            conjunction(alloc, fs)
        }
        FormulaTree::Or { parts, .. } => {
            let fs = ground_parts(alloc, universe, parts.as_slice(), binding)?;
            disjunction(alloc, fs)
        }
    }
}

#[cycle(ground)]
fn ground_parts(
    alloc: Global,
    universe: &Universe,
    parts: &[FormulaTree],
    binding: &[Bound],
) -> Result<List<Formula>, OutOfMemory>
    requires { AreBuildable universe.now.names parts.now }
    ensures { IfOk result (λ fs. fs ≡ map (λ f. ground_of universe.now.names f binding.now) parts.now) }
{
    let mut forms = List::new(alloc);
    for part in parts {
        forms.push(ground_form(alloc, universe, part, binding)?)?;
    }
    Ok(forms)
}

/// A formula at each binding of more parameters.
#[cycle(ground)]
fn ground_instances(
    alloc: Global,
    universe: &Universe,
    params: &[ParamTree],
    inner: &FormulaTree,
    binding: &[Bound],
) -> Result<List<Formula>, OutOfMemory>
    requires { IsRepeatable universe.now.names params.now inner.now }
    ensures { IfOk result (λ fs. fs ≡ instances universe.now.names (ground_of universe.now.names inner.now) binding.now params.now) }
{
    let mut forms = List::new(alloc);
    let candidates = universe.candidates(alloc, params)?;
    for objects in bindings(alloc, candidates.as_slice())?.as_slice() {
        let wider = widen(alloc, binding, params, objects.as_slice())?;
        forms.push(ground_form(alloc, universe, inner, wider.as_slice())?)?;
    }
    Ok(forms)
}

/// Whether the names of an equality stand for one object.
fn equality(universe: &Universe, binding: &[Bound], left: &Name, right: &Name) -> Formula
    ensures { result ≡ (if object_at universe.now.names binding.now left.now.text == object_at universe.now.names binding.now right.now.text then True else False) }
{
    Formula::truth(universe.object_at(binding, left) == universe.object_at(binding, right))
}

fn negation(alloc: Global, f: Formula) -> Result<Formula, OutOfMemory>
    requires { IsMakeable (Not f) }
    ensures { IfOk result (λ g. g ≡ Not f) }
{
    expect_formula(Formula::not(alloc, f))
}

fn knowledge(alloc: Global, agent: AgentId, f: Formula) -> Result<Formula, OutOfMemory>
    requires agent { agent.n < MOST_AGENTS }
    requires shape { IsMakeable (Knows agent f) }
    ensures { IfOk result (λ g. g ≡ Knows agent f) }
{
    expect_formula(Formula::knows(alloc, agent, f))
}

fn common_knowledge(alloc: Global, group: Agents, f: Formula) -> Result<Formula, OutOfMemory>
    requires some_member { is_nobody group ≡ false }
    requires shape { IsMakeable (Common group f) }
    ensures { IfOk result (λ g. g ≡ Common group f) }
{
    expect_formula(Formula::common(alloc, group, f))
}

fn conjunction(alloc: Global, parts: List<Formula>) -> Result<Formula, OutOfMemory>
    requires fits { length parts < 2 ^ 32 }
    requires shape { IsMakeable (conjunction parts) }
    ensures { IfOk result (λ g. g ≡ conjunction parts) }
{
    match parts.as_slice().len() {
        0 => Ok(Formula::truth(true)),
        1 => take_only(parts),
        _ => expect_formula(Formula::and(alloc, parts)),
    }
}

fn disjunction(alloc: Global, parts: List<Formula>) -> Result<Formula, OutOfMemory>
    requires fits { length parts < 2 ^ 32 }
    requires shape { IsMakeable (disjunction parts) }
    ensures { IfOk result (λ g. g ≡ disjunction parts) }
{
    match parts.as_slice().len() {
        0 => Ok(Formula::truth(false)),
        1 => take_only(parts),
        _ => expect_formula(Formula::or(alloc, parts)),
    }
}

/// The one part.
fn take_only(parts: List<Formula>) -> Result<Formula, OutOfMemory>
    requires { length parts ≡ 1 }
    ensures { IfOk result (λ f. parts ≡ f ∷ []) }
{
    match parts.into_vec().pop() {
        Some(f) => Ok(f),
        None => unreachable!(),
    }
}

/// The formula, where memory alone can be wanting.
fn expect_formula(answer: Result<Formula, FormulaError>) -> Result<Formula, OutOfMemory>
    requires { MatchResult answer (λ f. Unit {0}) (λ e. e ≡ FormulaError.OutOfMemory) }
    ensures { IfOk result (λ f. answer ≡ Ok f) }
{
    match answer {
        Ok(f) => Ok(f),
        Err(FormulaError::OutOfMemory) => Err(OutOfMemory {}),
        Err(_) => unreachable!(),
    }
}
