// Formulas that tell states apart, and states that none tells apart.

use crate::lines::{Wanted, are_wanted, true_at};
use crate::made::{Given, state};
use ep_apart::{Side, tell_apart};
use ep_kripke::StateError;
use std::alloc::Global;
use std::process::Abort;
use std::test::Fail;

// The side, the lines, and at how many designated worlds of each state the formula is true.
#[derive(Clone, Copy)]
struct Told<'a> {
    side: Side,
    lines: &'a [Wanted<'a>],
    here: usize,
    there: usize,
}

fn check(
    rt: &impl Abort,
    alloc: Global,
    first: &Given<'_>,
    second: &Given<'_>,
    wanted: Option<Told<'_>>,
) -> Result<(), StateError> {
    let s = state(rt, alloc, first)?;
    let t = state(rt, alloc, second)?;
    assert!(rt; s.agents() == t.agents() && s.atoms() == t.atoms());
    assert!(rt; s.worlds() <= 256 && t.worlds() <= 256);
    match tell_apart(alloc, &s, &t)? {
        Some(apart) => {
            let lines = apart.lines.as_slice();
            let found = (
                true_at(rt, alloc, &s, lines)?,
                true_at(rt, alloc, &t, lines)?,
            );
            match wanted {
                Some(told) => {
                    assert!(rt; apart.side == told.side);
                    assert!(rt; are_wanted(lines, told.lines), "{lines:?}");
                    assert_eq!(rt; found, (told.here, told.there));
                }
                None => assert!(rt; false, "told apart"),
            }
        }
        None => assert!(rt; wanted.is_none(), "not told apart"),
    }
    Ok(())
}

// A coin that neither agent sees.
const COIN: Given<'static> = Given {
    agents: 2,
    atoms: 1,
    worlds: &[&[], &[0]],
    links: &[
        (0, 0, 0),
        (0, 0, 1),
        (0, 1, 0),
        (0, 1, 1),
        (1, 0, 0),
        (1, 0, 1),
        (1, 1, 0),
        (1, 1, 1),
    ],
    designated: &[1],
};

// The coin after agent 0 saw it.
const SEEN: Given<'static> = Given {
    agents: 2,
    atoms: 1,
    worlds: &[&[0], &[]],
    links: &[
        (0, 0, 0),
        (0, 1, 1),
        (1, 0, 0),
        (1, 0, 1),
        (1, 1, 0),
        (1, 1, 1),
    ],
    designated: &[0],
};

#[test]
fn tells_what_an_agent_saw(rt: HostRuntime) -> Result<(), Fail> {
    let unseen = Told {
        side: Side::First,
        lines: &[Wanted::Atom(0), Wanted::Knows(0, 0), Wanted::Not(1)],
        here: 1,
        there: 0,
    };
    check(&rt, rt.alloc(), &COIN, &SEEN, Some(unseen))?;
    let seen = Told {
        lines: &[Wanted::Atom(0), Wanted::Knows(0, 0)],
        ..unseen
    };
    check(&rt, rt.alloc(), &SEEN, &COIN, Some(seen))?;
    Ok(())
}

// The coin that neither agent sees, where both sides may be real, and where the other one is.
const OPEN: Given<'static> = Given {
    designated: &[0, 1],
    ..COIN
};

const TURNED: Given<'static> = Given {
    designated: &[0],
    ..COIN
};

#[test]
fn tells_designated_worlds_alone(rt: HostRuntime) -> Result<(), Fail> {
    let down = Told {
        side: Side::Second,
        lines: &[Wanted::Atom(0), Wanted::Not(0)],
        here: 0,
        there: 1,
    };
    check(&rt, rt.alloc(), &COIN, &OPEN, Some(down))?;
    let first = Told {
        side: Side::First,
        here: 1,
        there: 0,
        ..down
    };
    check(&rt, rt.alloc(), &OPEN, &COIN, Some(first))?;
    check(&rt, rt.alloc(), &TURNED, &COIN, Some(first))?;
    let up = Told {
        lines: &[Wanted::Atom(0)],
        ..first
    };
    check(&rt, rt.alloc(), &COIN, &TURNED, Some(up))?;
    Ok(())
}

// Chains along which agent 0 links each world to the next.
const THREE: Given<'static> = Given {
    agents: 2,
    atoms: 1,
    worlds: &[&[], &[], &[]],
    links: &[(0, 0, 1), (0, 1, 2)],
    designated: &[0],
};

const FOUR: Given<'static> = Given {
    worlds: &[&[], &[], &[], &[]],
    links: &[(0, 0, 1), (0, 1, 2), (0, 2, 3)],
    ..THREE
};

// The chain of three, with its end twice.
const FORK: Given<'static> = Given {
    worlds: &[&[], &[], &[], &[]],
    links: &[(0, 0, 1), (0, 1, 2), (0, 1, 3)],
    ..THREE
};

#[test]
fn tells_how_long_a_chain_is(rt: HostRuntime) -> Result<(), Fail> {
    let shorter = Told {
        side: Side::First,
        lines: &[
            Wanted::True,
            Wanted::Not(0),
            Wanted::Knows(0, 1),
            Wanted::Not(2),
            Wanted::Knows(0, 3),
            Wanted::Knows(0, 4),
            Wanted::Not(5),
        ],
        here: 1,
        there: 0,
    };
    check(&rt, rt.alloc(), &THREE, &FOUR, Some(shorter))?;
    let longer = Told {
        lines: &[
            Wanted::True,
            Wanted::Not(0),
            Wanted::Knows(0, 1),
            Wanted::Knows(0, 2),
            Wanted::Knows(0, 3),
            Wanted::Not(4),
        ],
        ..shorter
    };
    check(&rt, rt.alloc(), &FOUR, &THREE, Some(longer))?;
    Ok(())
}

// Two worlds may be real that are not real in THREE: one that a longer chain tells, and one that the atom tells.
const EITHER: Given<'static> = Given {
    worlds: &[&[], &[], &[], &[], &[0]],
    links: &[(0, 0, 1), (0, 1, 2), (0, 2, 3)],
    designated: &[0, 4],
    ..THREE
};

#[test]
fn tells_by_the_formula_that_nests_least(rt: HostRuntime) -> Result<(), Fail> {
    let atom = Told {
        side: Side::First,
        lines: &[Wanted::Atom(0)],
        here: 1,
        there: 0,
    };
    check(&rt, rt.alloc(), &EITHER, &THREE, Some(atom))?;
    Ok(())
}

// Agent 0 has read the letter that says atom 0, agent 1 the one that says atom 1; and then each has read both.
const LETTERS: Given<'static> = Given {
    agents: 2,
    atoms: 2,
    worlds: &[&[0, 1], &[0], &[1], &[]],
    links: &[
        (0, 0, 0),
        (0, 0, 1),
        (0, 1, 0),
        (0, 1, 1),
        (1, 0, 0),
        (1, 0, 2),
        (1, 2, 0),
        (1, 2, 2),
    ],
    designated: &[0],
};

const READ: Given<'static> = Given {
    links: &[(0, 0, 0), (1, 0, 0)],
    ..LETTERS
};

#[test]
fn tells_who_read_which_letter(rt: HostRuntime) -> Result<(), Fail> {
    let unread = Told {
        side: Side::First,
        lines: &[Wanted::Atom(1), Wanted::Knows(0, 0), Wanted::Not(1)],
        here: 1,
        there: 0,
    };
    check(&rt, rt.alloc(), &LETTERS, &READ, Some(unread))?;
    let read = Told {
        lines: &[Wanted::Atom(1), Wanted::Knows(0, 0)],
        ..unread
    };
    check(&rt, rt.alloc(), &READ, &LETTERS, Some(read))?;
    Ok(())
}

#[test]
fn tells_no_bisimilar_states_apart(rt: HostRuntime) -> Result<(), Fail> {
    check(&rt, rt.alloc(), &THREE, &FORK, None)?;
    check(&rt, rt.alloc(), &FORK, &THREE, None)?;
    check(&rt, rt.alloc(), &COIN, &COIN, None)?;
    Ok(())
}
