// Products that are too large, and actions that do not apply.

use crate::made::{ALL, ANN, COIN, Given, HEADS, outcome, sense, state, two_events};
use ep_event::Action;
use ep_kripke::State;
use ep_logic::{Agents, Formula, OutOfMemory};
use ep_update::{Size, UpdateError, applicable, fits_action, stuck_at};
use std::alloc::Global;
use std::process::Abort;
use std::test::Fail;

fn check_refused(
    rt: &impl Abort,
    alloc: Global,
    s: &State,
    a: &Action,
    size: Size,
    error: UpdateError,
) {
    let found = outcome(rt, alloc, s, a, size).err();
    assert_eq!(rt; found, Some(error));
}

#[test]
fn worlds_are_counted_before_links(rt: HostRuntime) -> Result<(), Fail> {
    let twice = two_events(&rt, rt.alloc(), 2, ALL)?;
    let coin = state(&rt, rt.alloc(), COIN)?;
    for (worlds, links, error) in [
        (0, 0, UpdateError::TooManyWorlds { worlds: 4 }),
        (3, 32, UpdateError::TooManyWorlds { worlds: 4 }),
        (4, 31, UpdateError::TooManyLinks { links: 32 }),
    ] {
        let size = Size { worlds, links };
        check_refused(&rt, rt.alloc(), &coin, &twice, size, error);
    }
    Ok(())
}

// The action is stuck at this world, and nowhere before; or it is applicable.
fn check_stuck(
    rt: &impl Abort,
    alloc: Global,
    s: &State,
    a: &Action,
    world: Option<u32>,
) -> Result<(), OutOfMemory> {
    assert!(rt; fits_action(s, a));
    let found = stuck_at(alloc, s, a)?;
    assert_eq!(rt; found.map(|w| w.n), world);
    let applies = applicable(alloc, s, a)?;
    assert_eq!(rt; applies, world.is_none());
    Ok(())
}

// Ann may look whether heads is up or not. It may be announced only where it is up at each designated world.
#[test]
fn an_action_is_applicable_where_it_is_stuck_nowhere(rt: HostRuntime) -> Result<(), Fail> {
    let peek = sense(&rt, rt.alloc(), Agents::none().with(ANN))?;
    let say = Action::announce(rt.alloc(), 2, Formula::atom(HEADS))?;
    let rows: [(&[u32], &Action, Option<u32>); 4] = [
        (&[0], &peek, None),
        (&[0], &say, None),
        (&[0, 1], &peek, None),
        (&[0, 1], &say, Some(1)),
    ];
    for (designated, action, stuck) in rows {
        let coin = state(&rt, rt.alloc(), Given { designated, ..COIN })?;
        check_stuck(&rt, rt.alloc(), &coin, action, stuck)?;
    }
    Ok(())
}

// Heads is announced, but world 1, where it is false, is designated too. That comes before the size.
#[test]
fn an_announcement_is_refused_where_it_is_false(rt: HostRuntime) -> Result<(), Fail> {
    let say = Action::announce(rt.alloc(), 2, Formula::atom(HEADS))?;
    let designated: &[u32] = &[0, 1];
    let two = state(&rt, rt.alloc(), Given { designated, ..COIN })?;
    let none = Size {
        worlds: 0,
        links: 0,
    };
    let error = UpdateError::Inapplicable { world: 1 };
    check_refused(&rt, rt.alloc(), &two, &say, none, error);
    Ok(())
}
