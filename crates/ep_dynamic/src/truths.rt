// Truth of formulas that look ahead.

ghost use Rattle.std.specs.Prelude.{Err, MatchResult, false, true, replicate, drop, ◌≡◌, ◌≢◌, ◌<◌, ◌↔◌, ◌⊎◌, [], length, IfOk, OnOk, IfErr, IfNone, IfSome, IsTrue, None, Some};
ghost use Rattle.std.specs.List.{AllByRecursion};
ghost use Rattle.ep_theory.specs.Rising.{IsIn};
ghost use Rattle.ep_theory.specs.Fits.{ActionFits};
ghost use Rattle.ep_theory.specs.Product.{places, product_of};
ghost use Rattle.ep_theory.specs.Events.{IsAction};
ghost use Rattle.ep_logic.specs.Numbers.{table};
ghost use Rattle.ep_update.specs.Places.{precondition_labels};
ghost use Rattle.ep_update.specs.Ahead.{openings};
ghost use Rattle.ep_logic.specs.AgentSets.{is_nobody};
ghost use Rattle.ep_truth.specs.Labels.{atom_test};
ghost use Rattle.ep_logic.specs.Rows.{value_at};
ghost use Rattle.ep_dynamic.specs.Made.{opened, spent_by};
ghost use Rattle.ep_dynamic.specs.DynamicLabels.{FitsTask, Foresees, HoldsBehind, IsAmong, Labels, LabelsEach, LabelsEither, IsBehind, IsKnown, IsShared, IsTurned, Says, SaysTruth, spent};
ghost use Rattle.ep_base.specs.Refusals.{Reports};

use crate::formula::DynFormula;
use crate::node::DynNode;
use ep_event::Action;
use ep_kripke::{MOST_WORLDS, State};
use ep_logic::{AgentId, Agents, AtomId, Bits, EventId, List, OutOfMemory, Steps};
use ep_problem::Problem;
use ep_truth::{label_atom, label_common, label_knows};
use ep_update::{LabelTable, Size, UpdateError, labels, openings, places_of, product_labelled};
use std::alloc::Global;
use std::sync::ledger::Ledger;

/// Why a formula is not evaluated: the first product that it needs is too large, with its exact number of worlds or
/// links.
#[derive(Clone, Copy, Debug, PartialEq, Eq)]
pub enum DynFail {
    SpentWorlds { worlds: u64 },
    SpentLinks { links: u64 },
    OutOfMemory,
}

impl From<OutOfMemory> for DynFail {
    ghost use Rattle.std.specs.Prelude.{◌≡◌};
    ghost use Rattle.ep_dynamic.specs.declared.truths.DynFail.TheVariants.{OutOfMemory};

    ghost from_gives = { λ _ e. e ≡ OutOfMemory };

    fn from(_error: OutOfMemory) -> DynFail {
        DynFail::OutOfMemory
    }
}

/// The most links of a product that looks ahead.
pub const MOST_LINKS: u64 = 33_554_432;

const MOST: Size = Size {
    worlds: MOST_WORLDS,
    links: MOST_LINKS,
};

// The product that looks ahead, where the action may happen at some world.
fn product_ahead<L: Ledger>(
    alloc: Global,
    s: &State,
    a: &Action,
    l: &LabelTable,
    steps: &mut Steps<L>,
) -> Result<Option<State>, DynFail>
    requires fits { ActionFits s.now a.now }
    requires labels { l.now ≡ precondition_labels s.now a.now }
    ensures none { IfOk result (λ p. IfNone p (openings s.now a.now ≡ [])) }
    ensures some { IfOk result (λ p. IfSome p (λ p. (openings s.now a.now ≢ []) × (p ≡ product_of (opened s.now a.now) a.now) × (spent_by p ≡ None))) }
    ensures err { IfErr result (λ e. (e ≡ DynFail.OutOfMemory) ⊎ ((openings s.now a.now ≢ []) × (spent_by (product_of (opened s.now a.now) a.now) ≡ Some e))) }
{
    let worlds = openings(alloc, s, a, l)?;
    if worlds.as_slice().is_empty() {
        return Ok(None);
    }
    let open = s.copy(alloc)?.designating(worlds);
    match product_labelled(alloc, &open, a, l, MOST, steps) {
        Ok(p) => Ok(Some(p)),
        Err(UpdateError::TooManyWorlds { worlds }) => Err(DynFail::SpentWorlds { worlds }),
        Err(UpdateError::TooManyLinks { links }) => Err(DynFail::SpentLinks { links }),
        Err(_) => Err(DynFail::OutOfMemory),
    }
}

// Whether the row is true at the place, if its event is designated.
fn is_met(a: &Action, e: u32, inner: &Bits, i: u32) -> bool
    requires event { e < length a.now.events }
    requires place { i < length inner.now }
    ensures { IsTrue result ↔ (IsIn e a.now.designated → IsTrue (value_at inner.now i)) }
{
    !a.is_designated(EventId { n: e }) || inner.get(i)
}

// Where the row is true at each pair of the world with a designated event.
fn holds_behind(
    alloc: Global,
    s: &State,
    a: &Action,
    list: &[(u32, u32)],
    inner: &Bits,
) -> Result<Bits, OutOfMemory>
    requires list { list.now ≡ places s.now a.now }
    requires long { length inner.now ≡ length (places s.now a.now) }
    ensures { IfOk result (Says s.now.worlds (HoldsBehind s.now a.now inner.now)) }
{
    let mut row = Bits::ones(alloc, s.worlds())?;
    for i in 0..inner.len() {
        let (w, e) = list[i as usize];
        let met = is_met(a, e, inner, i);
        let old = row.get(w);
        row.set(w, old & met);
    }
    Ok(row)
}

// Turns each value, where there is a row.
fn turned(inner: Result<Bits, DynFail>) -> Result<Bits, DynFail>
    ensures { MatchResult result (λ new. IsTurned inner new) (λ e. inner ≡ Err e) }
{
    let mut row = inner?;
    row.flip();
    Ok(row)
}

// Where an agent knows what the row says, where there is a row.
fn known(
    alloc: Global,
    s: &State,
    a: AgentId,
    inner: Result<Bits, DynFail>,
) -> Result<Bits, DynFail>
    requires agent { a.n < s.now.agents }
    requires long { IfOk inner (λ row. length row ≡ s.now.worlds) }
    ensures { MatchResult result (λ new. IsKnown s.now a.n inner new) (λ e. (e ≡ DynFail.OutOfMemory) ⊎ (inner ≡ Err e)) }
{
    let row = inner?;
    Ok(label_knows(alloc, s, a, &row)?)
}

// Where what the row says is common knowledge, where there is a row.
fn shared(
    alloc: Global,
    s: &State,
    group: &Agents,
    inner: Result<Bits, DynFail>,
) -> Result<Bits, DynFail>
    requires group { IsTrue (is_nobody (drop s.now.agents group.now)) }
    requires long { IfOk inner (λ row. length row ≡ s.now.worlds) }
    ensures { MatchResult result (λ new. IsShared s.now group.now inner new) (λ e. (e ≡ DynFail.OutOfMemory) ⊎ (inner ≡ Err e)) }
{
    let row = inner?;
    Ok(label_common(alloc, s, group, &row)?)
}

// Where the row says it behind the action, where there is a row.
fn behind(
    alloc: Global,
    s: &State,
    a: &Action,
    list: &[(u32, u32)],
    inner: Result<Bits, DynFail>,
) -> Result<Bits, DynFail>
    requires list { list.now ≡ places s.now a.now }
    requires long { IfOk inner (λ row. length row ≡ length (places s.now a.now)) }
    ensures { MatchResult result (λ new. IsBehind s.now a.now inner new) (λ e. (e ≡ DynFail.OutOfMemory) ⊎ (inner ≡ Err e)) }
{
    let row = inner?;
    Ok(holds_behind(alloc, s, a, list, &row)?)
}

fn all_true(alloc: Global, s: &State) -> Result<Bits, DynFail>
    ensures { MatchResult result (λ row. row ≡ replicate s.now.worlds true) (λ e. e ≡ DynFail.OutOfMemory) }
{
    Ok(Bits::ones(alloc, s.worlds())?)
}

fn all_false(alloc: Global, s: &State) -> Result<Bits, DynFail>
    ensures { MatchResult result (λ row. row ≡ replicate s.now.worlds false) (λ e. e ≡ DynFail.OutOfMemory) }
{
    Ok(Bits::zeros(alloc, s.worlds())?)
}

fn atom_row(alloc: Global, s: &State, p: AtomId) -> Result<Bits, DynFail>
    requires { p.n < s.now.atoms }
    ensures { MatchResult result (λ row. row ≡ table (atom_test s.now p.n) s.now.worlds) (λ e. e ≡ DynFail.OutOfMemory) }
{
    Ok(label_atom(alloc, s, p)?)
}

/// What an action leads to: its product, and the pairs that become the worlds of it.
#[derive(Drop)]
struct Ahead {
    product: State,
    places: List<(u32, u32)>,
}

// What the action leads to, where it may happen at some world.
fn look_ahead<L: Ledger>(
    alloc: Global,
    s: &State,
    a: &Action,
    steps: &mut Steps<L>,
) -> Result<Option<Ahead>, DynFail>
    requires { ActionFits s.now a.now }
    ensures { Foresees s.now a.now result }
{
    let l = labels(alloc, s, a)?;
    match product_ahead(alloc, s, a, &l, steps)? {
        None => Ok(None),
        Some(product) => {
            let places = List::from_vec(places_of(alloc, s, a, &l)?);
            Ok(Some(Ahead { product, places }))
        }
    }
}

#[cycle(dynamic)]
fn label_node<L: Ledger>(
    alloc: Global,
    task: &Problem,
    s: &State,
    node: &DynNode,
    steps: &mut Steps<L>,
) -> Result<Bits, DynFail>
    requires among { IsAmong task.now s.now }
    requires fits { FitsTask task.now node.now }
    ensures { Labels task.now s.now node.now result }
{
    let _worlds = s.worlds();
    match node {
        DynNode::True => all_true(alloc, s),
        DynNode::False => all_false(alloc, s),
        DynNode::Atom(p) => atom_row(alloc, s, *p),
        DynNode::Not(inner) => turned(label_node(alloc, task, s, inner.get(), steps)),
        DynNode::And(parts) => label_all(alloc, task, s, parts, steps),
        DynNode::Or(parts) => label_any(alloc, task, s, parts, steps),
        DynNode::Knows(a, inner) => {
            let row = label_node(alloc, task, s, inner.get(), steps);
            known(alloc, s, *a, row)
        }
        DynNode::Common(group, inner) => {
            let row = label_node(alloc, task, s, inner.get(), steps);
            shared(alloc, s, group, row)
        }
        DynNode::After(a, inner) => {
            let action = task.action(*a);
            match look_ahead(alloc, s, action, steps) {
                Err(e) => Err(e),
                Ok(None) => all_true(alloc, s),
                Ok(Some(ahead)) => {
                    let row = label_node(alloc, task, &ahead.product, inner.get(), steps);
                    behind(alloc, s, action, ahead.places.as_slice(), row)
                }
            }
        }
    }
}

#[cycle(dynamic)]
fn label_all<L: Ledger>(
    alloc: Global,
    task: &Problem,
    s: &State,
    parts: &List<DynNode>,
    steps: &mut Steps<L>,
) -> Result<Bits, DynFail>
    requires among { IsAmong task.now s.now }
    requires fits { AllByRecursion (FitsTask task.now) parts.now }
    ensures { LabelsEach task.now s.now parts.now result }
{
    let mut row = all_true(alloc, s)?;
    for part in parts.as_slice() {
        match label_node(alloc, task, s, part, steps) {
            Ok(next) => row.and_with(&next),
            Err(e) => return Err(e),
        }
    }
    Ok(row)
}

#[cycle(dynamic)]
fn label_any<L: Ledger>(
    alloc: Global,
    task: &Problem,
    s: &State,
    parts: &List<DynNode>,
    steps: &mut Steps<L>,
) -> Result<Bits, DynFail>
    requires among { IsAmong task.now s.now }
    requires fits { AllByRecursion (FitsTask task.now) parts.now }
    ensures { LabelsEither task.now s.now parts.now result }
{
    let mut row = all_false(alloc, s)?;
    for part in parts.as_slice() {
        match label_node(alloc, task, s, part, steps) {
            Ok(next) => row.or_with(&next),
            Err(e) => return Err(e),
        }
    }
    Ok(row)
}

/// The truth of the formula at each world, looking ahead by the actions of the problem. The refusal is that of the first
/// product that the formula needs and that is too large.
pub fn holds_dynamic<L: Ledger>(
    alloc: Global,
    task: &Problem,
    s: &State,
    f: &DynFormula,
    steps: &mut Steps<L>,
) -> Result<Bits, DynFail>
    requires among { IsAmong task.now s.now }
    requires fits { FitsTask task.now f.now }
    ensures truth { IfOk result (SaysTruth task.now s.now f.now) }
    ensures small { OnOk result (spent task.now s.now f.now ≡ None) }
    ensures err { IfErr result (Reports DynFail.OutOfMemory (spent task.now s.now f.now)) }
{
    label_node(alloc, task, s, f.node(), steps)
}
