// Formulas before an event: what is true there exactly if a formula is true after it.

ghost use Rattle.std.specs.Prelude.{◌≡◌, ◌<◌, ◌≤◌, ◌^◌, length, map, IfOk, IsTrue};
ghost use Rattle.std.specs.List.{list_all};
ghost use Rattle.ep_logic.specs.Nodes.{is_formed};
ghost use Rattle.ep_logic.specs.declared.formula.Node.TheVariants.{Not, And, Or, Knows, Common};
ghost use Rattle.ep_logic.specs.declared.limits.TheConstants.{MOST_AGENTS};
ghost use Rattle.ep_theory.specs.Events.{IsAction, event_at, event_links};
ghost use Rattle.ep_theory.specs.Kripke.{successors};
ghost use Rattle.ep_dynamic.specs.Reduction.{conjunction, knows_of, reduce, value_of};

use ep_event::Action;
use ep_logic::{AgentId, Agents, AtomId, Boxed, EventId, Formula, FormulaError, List, Node};
use std::alloc::Global;

const MANY: usize = 1 << 24;

// The formula that the event assigns to the atom, or the atom.
pub(crate) fn value_before(
    alloc: Global,
    a: &Action,
    e: EventId,
    p: AtomId,
) -> Result<Formula, FormulaError>
    requires { e.n < length a.now.events }
    ensures { IfOk result (λ f. f ≡ value_of (event_at a.now e.n) p) }
{
    for set in a.sets(e).as_slice() {
        if set.atom.n == p.n {
            return Ok(set.value.copy(alloc)?);
        }
    }
    Ok(Formula::atom(p))
}

fn negated(alloc: Global, part: Formula) -> Result<Formula, FormulaError>
    ensures { IfOk result (λ f. f ≡ Not part) }
{
    Formula::not(alloc, part)
}

pub(crate) fn all_of(alloc: Global, parts: List<Formula>) -> Result<Formula, FormulaError>
    requires { 2 ≤ length parts }
    ensures { IfOk result (λ f. f ≡ And parts) }
{
    if parts.as_slice().len() >= MANY {
        return Err(FormulaError::OutOfMemory);
    }
    Formula::and(alloc, parts)
}

fn one_of(alloc: Global, parts: List<Formula>) -> Result<Formula, FormulaError>
    requires { 2 ≤ length parts }
    ensures { IfOk result (λ f. f ≡ Or parts) }
{
    if parts.as_slice().len() >= MANY {
        return Err(FormulaError::OutOfMemory);
    }
    Formula::or(alloc, parts)
}

fn known(alloc: Global, g: AgentId, part: Formula) -> Result<Formula, FormulaError>
    requires { g.n < MOST_AGENTS }
    ensures { IfOk result (λ f. f ≡ Knows g part) }
{
    Formula::knows(alloc, g, part)
}

fn shared(alloc: Global, group: Agents, part: Formula) -> Result<Formula, FormulaError>
    ensures { IfOk result (λ f. f ≡ Common group part) }
{
    Formula::common(alloc, group, part)
}

// The conjunction of the parts; of one part it is that part, and of none it is true.
fn conjoined(alloc: Global, parts: List<Formula>) -> Result<Formula, FormulaError>
    ensures { IfOk result (λ f. f ≡ conjunction parts) }
{
    match parts.as_slice().len() {
        0 => Ok(Formula::truth(true)),
        1 => parts.as_slice()[0].copy(alloc).map_err(FormulaError::from),
        _ => all_of(alloc, parts),
    }
}

// That the agent knows what is said of event d, if d happened.
fn known_of(
    alloc: Global,
    a: &Action,
    g: AgentId,
    d: EventId,
    said: Formula,
) -> Result<Formula, FormulaError>
    requires agent { g.n < MOST_AGENTS }
    requires event { d.n < length a.now.events }
    ensures { IfOk result (λ f. f ≡ knows_of a.now g (λ _. said) d.n) }
{
    let mut parts = List::new(alloc);
    parts.push(negated(alloc, a.pre(d).copy(alloc)?)?)?;
    parts.push(said)?;
    known(alloc, g, one_of(alloc, parts)?)
}

// The events that the agent takes to be possible, none past the last agent.
fn targets_of(a: &Action, g: AgentId, e: EventId) -> &[u32]
    requires { e.n < length a.now.events }
    ensures value { result.now ≡ successors (event_links a.now g.n) e.n }
    ensures action { IsAction a.now }
{
    if g.n < a.agents() {
        a.targets(g, e)
    } else {
        &[]
    }
}

/// The formula that is true before the event exactly if the node is true after it.
#[cycle(reduced)]
pub fn reduced(alloc: Global, a: &Action, e: EventId, node: &Node) -> Result<Formula, FormulaError>
    requires event { e.n < length a.now.events }
    requires formed { IsTrue (is_formed node.now) }
    ensures { IfOk result (λ f. f ≡ reduce a.now e.n node.now) }
{
    match node {
        Node::True => Ok(Formula::truth(true)),
        Node::False => Ok(Formula::truth(false)),
        Node::Atom(p) => value_before(alloc, a, e, *p),
        Node::Not(inner) => {
            let part = reduced(alloc, a, e, inner.get())?;
            negated(alloc, part)
        }
        Node::And(parts) => {
            let parts = reduced_parts(alloc, a, e, parts)?;
            all_of(alloc, parts)
        }
        Node::Or(parts) => {
            let parts = reduced_parts(alloc, a, e, parts)?;
            one_of(alloc, parts)
        }
        Node::Knows(g, inner) => {
            let parts = reduced_known(alloc, a, e, *g, inner)?;
            conjoined(alloc, parts)
        }
        Node::Common(group, inner) => {
            let part = reduced(alloc, a, e, inner.get())?;
            shared(alloc, *group, part)
        }
    }
}

#[cycle(reduced)]
fn reduced_parts(
    alloc: Global,
    a: &Action,
    e: EventId,
    parts: &List<Node>,
) -> Result<List<Formula>, FormulaError>
    requires event { e.n < length a.now.events }
    requires formed { IsTrue (list_all is_formed parts.now) }
    ensures { IfOk result (λ fs. fs ≡ map (reduce a.now e.n) parts.now) }
{
    let mut all = List::new(alloc);
    for part in parts.as_slice() {
        let next = reduced(alloc, a, e, part)?;
        all.push(next)?;
    }
    Ok(all)
}

// For each event that the agent takes to be possible, that it knows what is said of it.
#[cycle(reduced)]
fn reduced_known(
    alloc: Global,
    a: &Action,
    e: EventId,
    g: AgentId,
    inner: &Boxed<Node>,
) -> Result<List<Formula>, FormulaError>
    requires event { e.n < length a.now.events }
    requires agent { g.n < MOST_AGENTS }
    requires formed { IsTrue (is_formed inner.now) }
    ensures { IfOk result (λ fs. fs ≡ map (knows_of a.now g (λ d. reduce a.now d inner.now)) (successors (event_links a.now g.n) e.n)) }
{
    let mut all = List::new(alloc);
    for d in targets_of(a, g, e) {
        let event = EventId { n: *d };
        let said = reduced(alloc, a, event, inner.get())?;
        all.push(known_of(alloc, a, g, event, said)?)?;
    }
    Ok(all)
}
