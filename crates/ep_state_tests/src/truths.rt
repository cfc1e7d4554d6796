// Truth of formulas at worlds.

ghost use Rattle.std.specs.Prelude.{◌≡◌, ◌≤◌, length, IfOk};

use crate::made::{Given, Triple, state};
use ep_kripke::State;
use ep_logic::{AgentId, Agents, AtomId, Formula, List, OutOfMemory, WorldId};
use ep_truth::{fits, holds, holds_all, label};
use std::alloc::Global;
use std::process::Abort;
use std::test::Fail;

/// A formula over heads, by its form.
#[derive(Clone, Copy, Debug)]
pub enum Shape<'a> {
    True,
    False,
    Atom(u32),
    Tails,
    Knows(u32),
    Common(&'a [u32]),
    HeadsAndKnows(u32),
    TailsOrKnows(u32),
}

fn heads() -> Formula {
    Formula::atom(AtomId { n: 0 })
}

fn knows(rt: &impl Abort, alloc: Global, a: u32) -> Result<Formula, Fail> {
    assert!(rt; a < 8);
    Ok(Formula::knows(alloc, AgentId { n: a }, heads())?)
}

fn common(rt: &impl Abort, alloc: Global, group: &[u32]) -> Result<Formula, Fail> {
    let mut agents = Agents::none();
    for a in group {
        assert!(rt; *a < 8);
        agents = agents.with(AgentId { n: *a });
    }
    Ok(Formula::common(alloc, agents, heads())?)
}

fn pair(alloc: Global, f: Formula, g: Formula) -> Result<List<Formula>, OutOfMemory>
    ensures { IfOk result (λ parts. length parts ≡ 2) }
{
    let mut parts = List::new(alloc);
    parts.push(f)?;
    parts.push(g)?;
    Ok(parts)
}

fn heads_and(alloc: Global, f: Formula) -> Result<Formula, Fail> {
    let parts = pair(alloc, heads(), f)?;
    Ok(Formula::and(alloc, parts)?)
}

fn tails_or(alloc: Global, f: Formula) -> Result<Formula, Fail> {
    let tails = Formula::not(alloc, heads())?;
    let parts = pair(alloc, tails, f)?;
    Ok(Formula::or(alloc, parts)?)
}

pub fn formula(rt: &impl Abort, alloc: Global, shape: Shape<'_>) -> Result<Formula, Fail> {
    match shape {
        Shape::True => Ok(Formula::truth(true)),
        Shape::False => Ok(Formula::truth(false)),
        Shape::Atom(n) => Ok(Formula::atom(AtomId { n })),
        Shape::Tails => Ok(Formula::not(alloc, heads())?),
        Shape::Knows(a) => knows(rt, alloc, a),
        Shape::Common(group) => common(rt, alloc, group),
        Shape::HeadsAndKnows(a) => heads_and(alloc, knows(rt, alloc, a)?),
        Shape::TailsOrKnows(a) => tails_or(alloc, knows(rt, alloc, a)?),
    }
}

// The formula is true at the worlds with a 1.
fn check_worlds(
    rt: &impl Abort,
    alloc: Global,
    s: &State,
    f: &Formula,
    want: &[u8],
) -> Result<(), OutOfMemory> {
    assert!(rt; fits(s, f));
    let row = label(alloc, s, f)?;
    assert_eq!(rt; row.len() as usize, want.len());
    for w in 0..row.len() {
        let value = want[w as usize] == b'1';
        assert_eq!(rt; row.get(w), value, "label at world {w}");
        let found = holds(alloc, s, WorldId { n: w }, f)?;
        assert_eq!(rt; found, value, "holds at world {w}");
    }
    Ok(())
}

// Whether the formula is true at every designated world.
fn check_all(
    rt: &impl Abort,
    alloc: Global,
    s: &State,
    f: &Formula,
    at_all: bool,
) -> Result<(), OutOfMemory> {
    assert!(rt; fits(s, f));
    let found = holds_all(alloc, s, f)?;
    assert_eq!(rt; found, at_all);
    Ok(())
}

fn check_each(
    rt: &impl Abort,
    alloc: Global,
    given: &Given<'_>,
    rows: &[(Shape<'_>, &[u8], bool)],
) -> Result<(), Fail> {
    let s = state(rt, alloc, given)?;
    for (shape, want, at_all) in rows {
        let f = formula(rt, alloc, *shape)?;
        check_worlds(rt, alloc, &s, &f, *want)?;
        check_all(rt, alloc, &s, &f, *at_all)?;
    }
    Ok(())
}

// World 0 has heads and was told of, 1 and 2 were not told of.
#[test]
fn after_a_message_to_both(rt: HostRuntime) -> Result<(), Fail> {
    let told = Given {
        agents: 2,
        atoms: 1,
        worlds: &[&[0], &[0], &[]],
        links: &[
            (0, 0, 0),
            (0, 1, 1),
            (0, 1, 2),
            (0, 2, 1),
            (0, 2, 2),
            (1, 0, 0),
            (1, 1, 1),
            (1, 1, 2),
            (1, 2, 1),
            (1, 2, 2),
        ],
        designated: &[0],
    };
    let rows: [(Shape<'_>, &[u8], bool); 5] = [
        (Shape::Atom(0), b"110", true),
        (Shape::Tails, b"001", false),
        (Shape::Knows(0), b"100", true),
        (Shape::Knows(1), b"100", true),
        (Shape::Common(&[0, 1]), b"100", true),
    ];
    check_each(&rt, rt.alloc(), &told, &rows)
}

// The second agent does not know of the message.
#[test]
fn after_a_message_to_one(rt: HostRuntime) -> Result<(), Fail> {
    let told = Given {
        agents: 2,
        atoms: 1,
        worlds: &[&[0], &[0], &[]],
        links: &[
            (0, 0, 0),
            (0, 1, 1),
            (0, 1, 2),
            (0, 2, 1),
            (0, 2, 2),
            (1, 0, 1),
            (1, 0, 2),
            (1, 1, 1),
            (1, 1, 2),
            (1, 2, 1),
            (1, 2, 2),
        ],
        designated: &[0],
    };
    let rows: [(Shape<'_>, &[u8], bool); 4] = [
        (Shape::Knows(0), b"100", true),
        (Shape::Knows(1), b"000", false),
        (Shape::Common(&[0]), b"100", true),
        (Shape::Common(&[0, 1]), b"000", false),
    ];
    check_each(&rt, rt.alloc(), &told, &rows)
}

// The first agent links 0 to 1, the second 1 to 2, and 2 links nowhere.
#[test]
fn along_links_of_one_way(rt: HostRuntime) -> Result<(), Fail> {
    let chain = Given {
        agents: 2,
        atoms: 1,
        worlds: &[&[0], &[0], &[]],
        links: &[(0, 0, 1), (1, 1, 2)],
        designated: &[0, 2],
    };
    let rows: [(Shape<'_>, &[u8], bool); 10] = [
        (Shape::True, b"111", true),
        (Shape::False, b"000", false),
        (Shape::Atom(0), b"110", false),
        (Shape::Knows(0), b"111", true),
        (Shape::Knows(1), b"101", true),
        (Shape::Common(&[0]), b"110", false),
        (Shape::Common(&[1]), b"100", false),
        (Shape::Common(&[0, 1]), b"000", false),
        (Shape::HeadsAndKnows(1), b"100", false),
        (Shape::TailsOrKnows(1), b"101", true),
    ];
    check_each(&rt, rt.alloc(), &chain, &rows)
}

#[test]
fn which_formulas_fit(rt: HostRuntime) -> Result<(), Fail> {
    let lone = Given {
        agents: 2,
        atoms: 1,
        worlds: &[&[0]],
        links: &[],
        designated: &[0],
    };
    let s = state(&rt, rt.alloc(), &lone)?;
    let rows: [(Shape<'_>, bool); 6] = [
        (Shape::TailsOrKnows(1), true),
        (Shape::Common(&[0, 1]), true),
        (Shape::Atom(1), false),
        (Shape::Knows(2), false),
        (Shape::HeadsAndKnows(2), false),
        (Shape::Common(&[0, 2]), false),
    ];
    for (shape, want) in rows {
        let f = formula(&rt, rt.alloc(), shape)?;
        assert_eq!(rt; fits(&s, &f), want, "{shape:?}");
    }
    Ok(())
}

// As many worlds, of which only the last may have tails.
fn long_state(
    rt: &impl Abort,
    alloc: Global,
    count: u32,
    last: &[u32],
    links: &[Triple],
) -> Result<State, Fail>
    requires { 1 ≤ count }
{
    let heads: &[u32] = &[0];
    let mut worlds = vec![in alloc; heads; count as usize - 1]?;
    worlds.push(last)?;
    let given = Given {
        agents: 2,
        atoms: 1,
        worlds: &worlds,
        links,
        designated: &[0],
    };
    Ok(state(rt, alloc, &given)?)
}

// The formula has the one value at each world before the last, and the other at the last.
fn check_long(
    rt: &impl Abort,
    alloc: Global,
    s: &State,
    f: &Formula,
    want: (bool, bool),
) -> Result<(), OutOfMemory> {
    assert!(rt; fits(s, f));
    let row = label(alloc, s, f)?;
    assert!(rt; row.len() > 0);
    let last = row.len() - 1;
    for w in 0..last {
        assert_eq!(rt; row.get(w), want.0, "at world {w}");
    }
    assert_eq!(rt; row.get(last), want.1);
    Ok(())
}

// Both agents take turns along 4,096 worlds.
#[test]
fn common_knowledge_along_a_long_chain(rt: HostRuntime) -> Result<(), Fail> {
    let links: Vec<Triple> = (0..4_095u32)
        .map(|w| (w % 2, w, w + 1))
        .collect(rt.alloc())?;
    let both = common(&rt, rt.alloc(), &[0, 1])?;
    let first = common(&rt, rt.alloc(), &[0])?;
    let s = long_state(&rt, rt.alloc(), 4_096, &[], &links)?;
    check_long(&rt, rt.alloc(), &s, &both, (false, false))?;
    let s = long_state(&rt, rt.alloc(), 4_096, &[0], &links)?;
    check_long(&rt, rt.alloc(), &s, &both, (true, true))?;
    check_long(&rt, rt.alloc(), &s, &first, (true, true))?;
    Ok(())
}

// The last of 4,096 worlds is linked to the first.
#[test]
fn common_knowledge_around_a_ring(rt: HostRuntime) -> Result<(), Fail> {
    let links: Vec<Triple> = (0..4_096u32)
        .map(|w| (w % 2, w, (w + 1) % 4_096))
        .collect(rt.alloc())?;
    let both = common(&rt, rt.alloc(), &[0, 1])?;
    let s = long_state(&rt, rt.alloc(), 4_096, &[0], &links)?;
    check_long(&rt, rt.alloc(), &s, &both, (true, true))?;
    let s = long_state(&rt, rt.alloc(), 4_096, &[], &links)?;
    check_long(&rt, rt.alloc(), &s, &both, (false, false))?;
    Ok(())
}

// Each of 70 worlds is linked to all: all rows are one.
#[test]
fn what_is_known_where_all_rows_are_the_same(rt: HostRuntime) -> Result<(), Fail> {
    let links: Vec<Triple> = (0..4_900u32)
        .map(|i| (0, i / 70, i % 70))
        .collect(rt.alloc())?;
    let known = knows(&rt, rt.alloc(), 0)?;
    let shared = common(&rt, rt.alloc(), &[0])?;
    let s = long_state(&rt, rt.alloc(), 70, &[0], &links)?;
    check_long(&rt, rt.alloc(), &s, &known, (true, true))?;
    check_long(&rt, rt.alloc(), &s, &shared, (true, true))?;
    let s = long_state(&rt, rt.alloc(), 70, &[], &links)?;
    check_long(&rt, rt.alloc(), &s, &known, (false, false))?;
    check_long(&rt, rt.alloc(), &s, &shared, (false, false))?;
    Ok(())
}

// Each of 70 worlds is linked to itself and those before it: all rows differ.
#[test]
fn what_is_known_where_all_rows_differ(rt: HostRuntime) -> Result<(), Fail> {
    let links: Vec<Triple> = (0..4_900u32)
        .filter(|i| *i % 70 <= *i / 70)
        .map(|i| (0, i / 70, i % 70))
        .collect(rt.alloc())?;
    let known = knows(&rt, rt.alloc(), 0)?;
    let unlinked = knows(&rt, rt.alloc(), 1)?;
    let shared = common(&rt, rt.alloc(), &[0])?;
    let s = long_state(&rt, rt.alloc(), 70, &[], &links)?;
    check_long(&rt, rt.alloc(), &s, &known, (true, false))?;
    check_long(&rt, rt.alloc(), &s, &unlinked, (true, true))?;
    check_long(&rt, rt.alloc(), &s, &shared, (true, false))?;
    Ok(())
}
