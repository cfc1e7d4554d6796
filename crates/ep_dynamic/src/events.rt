// The events of a composition, and their sizes.

ghost use Rattle.std.specs.Prelude.{◌≡◌, ◌==◌, ◌<◌, ◌∷◌, ◌++◌, [], true, length, map, IfOk, OnOk};
ghost use Rattle.std.specs.List.{find};
ghost use Rattle.std.specs.Ordering.{nat_cmp};
ghost use Rattle.ep_logic.specs.Numbers.{numbers_where, pairs_within};
ghost use Rattle.ep_logic.specs.declared.formula.Node.TheVariants.{And};
ghost use Rattle.ep_theory.specs.Rising.{rising};
ghost use Rattle.ep_theory.specs.Events.{event_at};
ghost use Rattle.ep_event.specs.Built.{event_of, set_of};
ghost use Rattle.ep_dynamic.specs.Reduction.{reduce};
ghost use Rattle.ep_dynamic.specs.Sizes.{capped, size_of};
ghost use Rattle.ep_dynamic.specs.Composition.{assigned_atoms, event_pairs, events_in_turn, value_in_turn};

use crate::reduced::{all_of, reduced, value_before};
use ep_event::{Action, Assign, EventParts};
use ep_logic::{AtomId, EventId, Formula, FormulaError, List, OutOfMemory};
use std::alloc::Global;

// The pairs of the event with each of so many events.
fn put_pairs(e: u32, count: u32, pairs: &mut List<(u32, u32)>) -> Result<(), OutOfMemory>
    ensures { OnOk result (pairs.new ≡ pairs.old ++ map (λ f. (e, f)) (numbers_where (λ f. true) count)) }
{
    for f in 0..count {
        pairs.push((e, f))?;
    }
    Ok(())
}

// All pairs of a number below each count, by the first and then by the second.
pub(crate) fn all_pairs(
    alloc: Global,
    first: u32,
    second: u32,
) -> Result<List<(u32, u32)>, OutOfMemory>
    ensures { IfOk result (λ pairs. pairs ≡ pairs_within (λ e f. true) second first) }
{
    let mut pairs = List::new(alloc);
    for e in 0..first {
        put_pairs(e, second, &mut pairs)?;
    }
    Ok(pairs)
}

fn put_atoms(sets: &[Assign], atoms: &mut List<u32>) -> Result<(), OutOfMemory>
    ensures { OnOk result (atoms.new ≡ atoms.old ++ map (λ set. set.atom.n) sets.now) }
{
    for set in sets {
        atoms.push(set.atom.n)?;
    }
    Ok(())
}

// The numbers in rising order, each once.
fn distinct(numbers: List<u32>) -> List<u32>
    ensures { result ≡ rising nat_cmp numbers }
{
    let mut numbers = numbers.into_vec();
    numbers.sort_unstable();
    numbers.dedup();
    List::from_vec(numbers)
}

// The atoms that either event assigns to, in rising order.
pub(crate) fn atoms_in_turn(
    alloc: Global,
    a: &Action,
    b: &Action,
    at: (u32, u32),
) -> Result<List<u32>, OutOfMemory>
    requires first { at.0 < length a.now.events }
    requires second { at.1 < length b.now.events }
    ensures { IfOk result (λ atoms. atoms ≡ assigned_atoms (event_at a.now at.0) (event_at b.now at.1)) }
{
    let mut atoms = List::new(alloc);
    put_atoms(a.sets(EventId { n: at.0 }).as_slice(), &mut atoms)?;
    put_atoms(b.sets(EventId { n: at.1 }).as_slice(), &mut atoms)?;
    Ok(distinct(atoms))
}

// What the atom gets by the two events in turn.
fn value_by_both(
    alloc: Global,
    a: &Action,
    b: &Action,
    at: (u32, u32),
    p: u32,
) -> Result<Formula, FormulaError>
    requires first { at.0 < length a.now.events }
    requires second { at.1 < length b.now.events }
    ensures { IfOk result (λ v. v ≡ value_in_turn a.now at.0 p (find (λ set. set.0 == p) (event_at b.now at.1).sets)) }
{
    let e = EventId { n: at.0 };
    for set in b.sets(EventId { n: at.1 }).as_slice() {
        if set.atom.n == p {
            return reduced(alloc, a, e, set.value.node());
        }
    }
    value_before(alloc, a, e, AtomId { n: p })
}

// The assignments of the two events in turn.
fn sets_by_both(
    alloc: Global,
    a: &Action,
    b: &Action,
    at: (u32, u32),
) -> Result<List<Assign>, FormulaError>
    requires first { at.0 < length a.now.events }
    requires second { at.1 < length b.now.events }
    ensures { IfOk result (λ sets. map set_of sets ≡ (events_in_turn a.now b.now at).sets) }
{
    let atoms = atoms_in_turn(alloc, a, b, at)?;
    let mut sets = List::new(alloc);
    for p in atoms.as_slice() {
        sets.push(Assign {
            atom: AtomId { n: *p },
            value: value_by_both(alloc, a, b, at, *p)?,
        })?;
    }
    Ok(sets)
}

// That both events may happen in turn.
fn pre_of_both(
    alloc: Global,
    a: &Action,
    b: &Action,
    at: (u32, u32),
) -> Result<Formula, FormulaError>
    requires first { at.0 < length a.now.events }
    requires second { at.1 < length b.now.events }
    ensures { IfOk result (λ pre. pre ≡ (events_in_turn a.now b.now at).pre) }
{
    let e = EventId { n: at.0 };
    let mut parts = List::new(alloc);
    parts.push(a.pre(e).copy(alloc)?)?;
    parts.push(reduced(alloc, a, e, b.pre(EventId { n: at.1 }).node())?)?;
    all_of(alloc, parts)
}

// The two events in turn.
fn event_by_both(
    alloc: Global,
    a: &Action,
    b: &Action,
    at: (u32, u32),
) -> Result<EventParts, FormulaError>
    requires first { at.0 < length a.now.events }
    requires second { at.1 < length b.now.events }
    ensures { IfOk result (λ event. event_of event ≡ events_in_turn a.now b.now at) }
{
    Ok(EventParts {
        pre: pre_of_both(alloc, a, b, at)?,
        sets: sets_by_both(alloc, a, b, at)?,
    })
}

pub(crate) fn events_by_both(
    alloc: Global,
    a: &Action,
    b: &Action,
    pairs: &[(u32, u32)],
) -> Result<List<EventParts>, FormulaError>
    requires { pairs.now ≡ event_pairs a.now b.now }
    ensures { IfOk result (λ events. map event_of events ≡ map (events_in_turn a.now b.now) pairs.now) }
{
    let mut events = List::new(alloc);
    for at in pairs {
        events.push(event_by_both(alloc, a, b, *at)?)?;
    }
    Ok(events)
}
