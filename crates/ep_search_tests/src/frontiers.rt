//! The frontier.

use ep_guide::Frontier;
use ep_logic::{OutOfMemory, StateId};
use std::process::Abort;
use std::test::Fail;

fn push(frontier: &mut Frontier, score: u64, n: u32) -> Result<(), OutOfMemory> {
    frontier.push(score, StateId { n })
}

// The states leave in this order, and none is left.
fn check_pops(rt: &impl Abort, frontier: &mut Frontier, order: &[u32]) {
    for n in order {
        assert!(rt; !frontier.is_empty());
        assert_eq!(rt; frontier.pop().map(|id| id.n), Some(*n));
    }
    assert!(rt; frontier.is_empty());
    assert!(rt; frontier.pop().is_none());
}

// What is pushed: scores, with the places in this list as states; and the states in the order of the pops.
#[test]
fn states_leave_in_the_order_of_their_scores(rt: HostRuntime) -> Result<(), Fail> {
    let rows: [(&[u64], &[u32]); 4] = [
        (&[], &[]),
        (&[5, 3, 3], &[1, 2, 0]),
        (&[u64::MAX, 0, u64::MAX, 0], &[1, 3, 0, 2]),
        (&[7, 7, 7, 2, 9], &[3, 0, 1, 2, 4]),
    ];
    for (scores, order) in rows {
        let mut frontier = Frontier::new(rt.alloc());
        for (n, score) in scores.iter().enumerate() {
            push(&mut frontier, *score, n as u32)?;
        }
        check_pops(&rt, &mut frontier, order);
    }
    Ok(())
}

// Pushes between pops, at the score that leaves and below it.
#[test]
fn pushes_between_pops_keep_the_order(rt: HostRuntime) -> Result<(), Fail> {
    let mut frontier = Frontier::new(rt.alloc());
    push(&mut frontier, 4, 0)?;
    push(&mut frontier, 4, 1)?;
    assert_eq!(rt; frontier.pop().map(|id| id.n), Some(0));
    push(&mut frontier, 4, 2)?;
    push(&mut frontier, 3, 3)?;
    check_pops(&rt, &mut frontier, &[3, 1, 2]);
    Ok(())
}

#[test]
fn ten_thousand_states_leave_in_falling_order(rt: HostRuntime) -> Result<(), Fail> {
    let mut frontier = Frontier::new(rt.alloc());
    for n in (0..10_000u32).rev() {
        push(&mut frontier, u64::from(n), n)?;
    }
    for n in 0..10_000u32 {
        assert_eq!(rt; frontier.pop().map(|id| id.n), Some(n));
    }
    assert!(rt; frontier.is_empty());
    Ok(())
}
