// The refusals of a composition by the sizes of its formulas.

ghost use Rattle.std.specs.Prelude.{◌≡◌, ◌==◌, ◌+◌, ◌<◌, ◌≤◌, max, length, map, IfOk};
ghost use Rattle.std.specs.List.{find};
ghost use Rattle.ep_base.specs.Refusals.{IsJudged, told};
ghost use Rattle.ep_theory.specs.Events.{event_at};
ghost use Rattle.ep_dynamic.specs.Composition.{event_pairs, events_in_turn, value_in_turn};
ghost use Rattle.ep_dynamic.specs.ComposeAnswers.{event_refusal, first_refusal, formulas_of, greatest_size, size_refusal};
ghost use Rattle.ep_dynamic.specs.Sizes.{capped, size_of};

use crate::compose::ComposeError;
use crate::events::atoms_in_turn;
use crate::sizes::{Size, cap, sizes_at_all, value_at};
use ep_event::Action;
use ep_logic::formula::{MOST_DEPTH, MOST_NODES};
use ep_logic::{AtomId, EventId, OutOfMemory};
use std::alloc::Global;

// The greater numbers of two sizes.
fn greater(x: Size, y: Size) -> Size
    ensures { result ≡ record { nodes = max x.nodes y.nodes; depth = max x.depth y.depth } }
{
    Size {
        nodes: x.nodes.max(y.nodes),
        depth: x.depth.max(y.depth),
    }
}

// The size of the conjunction of a formula with these numbers and one of this size.
fn conjoined(nodes: u32, depth: u32, said: Size) -> Size
    ensures { result ≡ capped (nodes + said.nodes + 1) (max depth said.depth + 1) }
{
    let nodes = u64::from(nodes) + u64::from(said.nodes) + 1;
    cap(nodes, u64::from(depth.max(said.depth)) + 1)
}

fn pre_size(alloc: Global, a: &Action, b: &Action, at: (u32, u32)) -> Result<Size, OutOfMemory>
    requires first { at.0 < length a.now.events }
    requires second { at.1 < length b.now.events }
    ensures { IfOk result (λ size. size ≡ size_of (events_in_turn a.now b.now at).pre) }
{
    let row = sizes_at_all(alloc, a, b.pre(EventId { n: at.1 }).node())?;
    let pre = a.pre(EventId { n: at.0 });
    Ok(conjoined(pre.nodes(), pre.depth(), row.as_slice()[at.0 as usize]))
}

fn value_size_by_both(
    alloc: Global,
    a: &Action,
    b: &Action,
    at: (u32, u32),
    p: u32,
) -> Result<Size, OutOfMemory>
    requires first { at.0 < length a.now.events }
    requires second { at.1 < length b.now.events }
    ensures { IfOk result (λ size. size ≡ size_of (value_in_turn a.now at.0 p (find (λ set. set.0 == p) (event_at b.now at.1).sets))) }
{
    for set in b.sets(EventId { n: at.1 }).as_slice() {
        if set.atom.n == p {
            let row = sizes_at_all(alloc, a, set.value.node())?;
            return Ok(row.as_slice()[at.0 as usize]);
        }
    }
    Ok(value_at(a, AtomId { n: p }, EventId { n: at.0 }))
}

// The greatest numbers of the formulas of the two events in turn.
fn greatest(alloc: Global, a: &Action, b: &Action, at: (u32, u32)) -> Result<Size, OutOfMemory>
    requires first { at.0 < length a.now.events }
    requires second { at.1 < length b.now.events }
    ensures { IfOk result (λ size. size ≡ greatest_size (formulas_of (events_in_turn a.now b.now at))) }
{
    let atoms = atoms_in_turn(alloc, a, b, at)?;
    let mut size = pre_size(alloc, a, b, at)?;
    for p in atoms.as_slice() {
        let next = value_size_by_both(alloc, a, b, at, *p)?;
        size = greater(size, next);
    }
    Ok(size)
}

// Depth comes before nodes.
fn judge(event: u32, size: Size) -> Result<(), ComposeError>
    ensures { result ≡ told (size_refusal event size) }
{
    if size.depth > MOST_DEPTH {
        return Err(ComposeError::TooDeep { event });
    }
    if u64::from(size.nodes) > MOST_NODES {
        return Err(ComposeError::TooLarge { event });
    }
    Ok(())
}

// The refusal of the first pair of events that has a formula past a limit.
pub(crate) fn check_sizes(
    alloc: Global,
    a: &Action,
    b: &Action,
    pairs: &[(u32, u32)],
) -> Result<(), ComposeError>
    requires pairs { pairs.now ≡ event_pairs a.now b.now }
    requires few { length pairs.now ≤ 16 }
    ensures { IsJudged ComposeError.OutOfMemory (first_refusal event_refusal 0 (map (events_in_turn a.now b.now) pairs.now)) result }
{
    for k in 0..pairs.len() as u32 {
        let size = greatest(alloc, a, b, pairs[k as usize])?;
        judge(k, size)?;
    }
    Ok(())
}
