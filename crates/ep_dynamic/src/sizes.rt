// The sizes of reduced formulas, for all events of an action at once, without the formulas.

ghost use Rattle.std.specs.Prelude.{◌≡◌, ◌+◌, ◌<◌, max, IfOk, length, map};
ghost use Rattle.ep_logic.specs.Numbers.{table};
ghost use Rattle.ep_dynamic.specs.Sizes.{capped, join, known_part, known_size, more, part_sizes, reduced_sizes, size_at, value_size};

use ep_event::Action;
use ep_logic::{AgentId, AtomId, EventId, List, Node, OutOfMemory};
use std::alloc::Global;

/// The numbers of nodes and levels of a formula, each no further than one past its limit.
#[derive(Clone, Copy, Debug, PartialEq, Eq)]
pub struct Size {
    pub nodes: u32,
    pub depth: u32,
}

pub(crate) fn cap(nodes: u64, depth: u64) -> Size
    ensures { result ≡ capped nodes depth }
{
    Size {
        nodes: nodes.min(131_073) as u32,
        depth: depth.min(129) as u32,
    }
}

// The size with one node more above.
fn above(size: Size) -> Size
    ensures { result ≡ more size }
{
    cap(u64::from(size.nodes) + 1, u64::from(size.depth) + 1)
}

// The size of two lists of parts together.
fn together(first: Size, second: Size) -> Size
    ensures { result ≡ join first second }
{
    let nodes = u64::from(first.nodes) + u64::from(second.nodes);
    cap(nodes, u64::from(first.depth.max(second.depth)))
}

// The size of the formula whose truth the atom gets by the event.
pub(crate) fn value_at(a: &Action, p: AtomId, e: EventId) -> Size
    requires { e.n < length a.now.events }
    ensures { result ≡ value_size a.now p e.n }
{
    for set in a.sets(e).as_slice() {
        if set.atom.n == p.n {
            return cap(u64::from(set.value.nodes()), u64::from(set.value.depth()));
        }
    }
    cap(1, 1)
}

fn same_everywhere(alloc: Global, a: &Action, size: Size) -> Result<List<Size>, OutOfMemory>
    ensures { IfOk result (λ row. row ≡ table (λ e. size) (length a.now.events)) }
{
    let mut row = List::new(alloc);
    for _e in 0..a.events() {
        row.push(size)?;
    }
    Ok(row)
}

fn value_row(alloc: Global, a: &Action, p: AtomId) -> Result<List<Size>, OutOfMemory>
    ensures { IfOk result (λ row. row ≡ table (value_size a.now p) (length a.now.events)) }
{
    let mut row = List::new(alloc);
    for n in 0..a.events() {
        row.push(value_at(a, p, EventId { n }))?;
    }
    Ok(row)
}

fn above_row(alloc: Global, row: &[Size]) -> Result<List<Size>, OutOfMemory>
    ensures { IfOk result (λ new. new ≡ map more row.now) }
{
    let mut new = List::new(alloc);
    for size in row {
        new.push(above(*size))?;
    }
    Ok(new)
}

fn joined_row(alloc: Global, first: &[Size], second: &[Size]) -> Result<List<Size>, OutOfMemory>
    requires { length first.now ≡ length second.now }
    ensures { IfOk result (λ new. new ≡ table (λ e. join (size_at first.now e) (size_at second.now e)) (length first.now)) }
{
    let mut new = List::new(alloc);
    for e in 0..first.len() {
        new.push(together(first[e], second[e]))?;
    }
    Ok(new)
}

// The size of `knows (not pre or said)`, by the numbers of the precondition.
fn known(nodes: u32, depth: u32, said: Size) -> Size
    ensures { result ≡ capped (nodes + said.nodes + 3) (max (depth + 1) said.depth + 2) }
{
    let nodes = u64::from(nodes) + u64::from(said.nodes) + 3;
    cap(nodes, (u64::from(depth) + 1).max(u64::from(said.depth)) + 2)
}

// The size of that the agent knows what is said of event d, if d happened.
fn known_part_at(a: &Action, row: &[Size], d: u32) -> Size
    requires event { d < length a.now.events }
    requires long { length row.now ≡ length a.now.events }
    ensures { result ≡ known_part a.now row.now d }
{
    let pre = a.pre(EventId { n: d });
    known(pre.nodes(), pre.depth(), row[d as usize])
}

// The size of what an agent knows at an event, where the row has the sizes of what is said of each event.
fn known_at(a: &Action, g: AgentId, row: &[Size], e: u32) -> Size
    requires event { e < length a.now.events }
    requires long { length row.now ≡ length a.now.events }
    ensures { result ≡ known_size a.now g.n row.now e }
{
    if g.n >= a.agents() {
        return cap(1, 1);
    }
    let targets = a.targets(g, EventId { n: e });
    let mut size = Size { nodes: 0, depth: 0 };
    for d in targets {
        size = together(size, known_part_at(a, row, *d));
    }
    match targets.len() {
        0 => cap(1, 1),
        1 => size,
        _ => above(size),
    }
}

fn known_row(alloc: Global, a: &Action, g: AgentId, row: &[Size]) -> Result<List<Size>, OutOfMemory>
    requires { length row.now ≡ length a.now.events }
    ensures { IfOk result (λ new. new ≡ table (known_size a.now g.n row.now) (length a.now.events)) }
{
    let mut new = List::new(alloc);
    for e in 0..a.events() {
        new.push(known_at(a, g, row, e))?;
    }
    Ok(new)
}

/// The size of the reduced formula at each event. A node costs the events, and one of knowledge their links besides.
#[cycle(sizes)]
pub fn sizes_at_all(alloc: Global, a: &Action, node: &Node) -> Result<List<Size>, OutOfMemory>
    ensures { IfOk result (λ row. row ≡ reduced_sizes a.now node.now) }
{
    match node {
        Node::True => same_everywhere(alloc, a, Size { nodes: 1, depth: 1 }),
        Node::False => same_everywhere(alloc, a, Size { nodes: 1, depth: 1 }),
        Node::Atom(p) => value_row(alloc, a, *p),
        Node::Not(inner) => {
            let row = sizes_at_all(alloc, a, inner.get())?;
            above_row(alloc, row.as_slice())
        }
        Node::And(parts) => {
            let row = sizes_of_parts(alloc, a, parts)?;
            above_row(alloc, row.as_slice())
        }
        Node::Or(parts) => {
            let row = sizes_of_parts(alloc, a, parts)?;
            above_row(alloc, row.as_slice())
        }
        Node::Knows(g, inner) => {
            let _agents = a.agents();
            let row = sizes_at_all(alloc, a, inner.get())?;
            known_row(alloc, a, *g, row.as_slice())
        }
        Node::Common(_, inner) => {
            let row = sizes_at_all(alloc, a, inner.get())?;
            above_row(alloc, row.as_slice())
        }
    }
}

// The sizes of the parts together.
#[cycle(sizes)]
fn sizes_of_parts(alloc: Global, a: &Action, parts: &List<Node>) -> Result<List<Size>, OutOfMemory>
    ensures { IfOk result (λ row. row ≡ part_sizes a.now parts.now) }
{
    let mut row = same_everywhere(alloc, a, Size { nodes: 0, depth: 0 })?;
    for part in parts.as_slice() {
        let next = sizes_at_all(alloc, a, part)?;
        row = joined_row(alloc, row.as_slice(), next.as_slice())?;
    }
    Ok(row)
}
