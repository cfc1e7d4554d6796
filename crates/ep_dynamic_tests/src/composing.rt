//! Two actions composed, and what is refused.

use crate::problems::{ANN, BOB, HEADS, either, peek};
use ep_dynamic::compose::{ComposeError, compose};
use ep_event::Action;
use ep_logic::{Agents, EventId, Formula};
use std::alloc::Global;
use std::process::Abort;
use std::test::Fail;

fn compose_both(
    rt: &impl Abort,
    alloc: Global,
    a: &Action,
    b: &Action,
) -> Result<Action, ComposeError> {
    assert!(rt; a.agents() == b.agents());
    compose(alloc, a, b)
}

// Whether Ann and Bob link the first event to another one.
fn links_from_first(rt: &impl Abort, a: &Action, to: u32) -> [bool; 2] {
    assert!(rt; a.agents() == 2 && 0 < a.events() && to < a.events());
    let ann = a.linked(ANN, EventId { n: 0 }, EventId { n: to });
    let bob = a.linked(BOB, EventId { n: 0 }, EventId { n: to });
    [ann, bob]
}

#[test]
fn a_look_and_then_a_blur(rt: HostRuntime) -> Result<(), Fail> {
    let look = peek(&rt, rt.alloc())?;
    let blur = either(&rt, rt.alloc(), &[(0, 0), (0, 1), (1, 0), (1, 1)])?;
    let both = compose_both(&rt, rt.alloc(), &look, &blur)?;
    assert_eq!(rt; both.events(), 4);
    for (to, wanted) in [(1, [true, true]), (2, [false, true]), (3, [false, true])] {
        assert_eq!(rt; links_from_first(&rt, &both, to), wanted);
    }
    Ok(())
}

// The refusal, if it is one.
fn refusal(answer: Result<Action, ComposeError>) -> Option<ComposeError> {
    answer.err()
}

#[test]
fn too_many_events_are_refused(rt: HostRuntime) -> Result<(), Fail> {
    let wait = either(&rt, rt.alloc(), &[(0, 0), (1, 1)])?;
    let twice = compose_both(&rt, rt.alloc(), &wait, &wait)?;
    let often = compose_both(&rt, rt.alloc(), &twice, &twice)?;
    let more = refusal(compose_both(&rt, rt.alloc(), &often, &wait));
    assert_eq!(rt; more, Some(ComposeError::TooManyEvents { events: 32 }));
    Ok(())
}

#[test]
fn common_knowledge_behind_is_refused(rt: HostRuntime) -> Result<(), Fail> {
    let look = peek(&rt, rt.alloc())?;
    let known = Formula::common(rt.alloc(), Agents::first(2), Formula::atom(HEADS))?;
    let told = Action::announce(rt.alloc(), 2, known)?;
    let more = refusal(compose_both(&rt, rt.alloc(), &look, &told));
    assert_eq!(rt; more, Some(ComposeError::HasCommon { event: 0 }));
    Ok(())
}
