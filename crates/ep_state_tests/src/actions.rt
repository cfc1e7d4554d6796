// Actions from their parts, and those of the four kinds.

ghost use Rattle.std.specs.Prelude.{◌<◌, ◌^◌, length};

use crate::made::Triple;
use ep_event::{Action, ActionError, ActionParts, Assign, EventLink, EventParts};
use ep_logic::{AgentId, Agents, AtomId, EventId, Formula, List, Node, OutOfMemory};
use std::alloc::Global;
use std::process::Abort;
use std::test::Fail;

fn sets(alloc: Global, atoms: &[u32]) -> Result<List<Assign>, OutOfMemory> {
    let mut sets = List::new(alloc);
    for n in atoms {
        sets.push(Assign {
            atom: AtomId { n: *n },
            value: Formula::truth(true),
        })?;
    }
    Ok(sets)
}

// Events that need nothing and assign to these atoms.
fn events(alloc: Global, atoms: &[&[u32]]) -> Result<List<EventParts>, OutOfMemory> {
    let mut events = List::new(alloc);
    for atoms in atoms {
        events.push(EventParts {
            pre: Formula::truth(true),
            sets: sets(alloc, atoms)?,
        })?;
    }
    Ok(events)
}

fn links(alloc: Global, triples: &[Triple]) -> Result<List<EventLink>, OutOfMemory> {
    let mut links = List::new(alloc);
    for (agent, from, to) in triples {
        links.push(EventLink {
            agent: AgentId { n: *agent },
            from: EventId { n: *from },
            to: EventId { n: *to },
        })?;
    }
    Ok(links)
}

fn ids(alloc: Global, numbers: &[u32]) -> Result<List<EventId>, OutOfMemory> {
    let mut ids = List::new(alloc);
    for n in numbers {
        ids.push(EventId { n: *n })?;
    }
    Ok(ids)
}

// The numbers that `Action::build` requires.
fn check_parts(rt: &impl Abort, parts: &ActionParts)
    ensures events { length parts.now.events < 2 ^ 32 }
    ensures links { length parts.now.links < 2 ^ 32 }
    ensures designated { length parts.now.designated < 2 ^ 32 }
{
    assert!(rt; parts.events.as_slice().len() < 99);
    assert!(rt; parts.links.as_slice().len() < 99);
    assert!(rt; parts.designated.as_slice().len() < 99);
}

// An action of two agents.
fn build(
    rt: &impl Abort,
    alloc: Global,
    atoms: &[&[u32]],
    triples: &[Triple],
    designated: &[u32],
) -> Result<Action, ActionError> {
    let parts = ActionParts {
        agents: 2,
        events: events(alloc, atoms)?,
        links: links(alloc, triples)?,
        designated: ids(alloc, designated)?,
    };
    check_parts(rt, &parts);
    Action::build(alloc, parts)
}

// Asserts that no action has these parts, for this reason.
fn check_refused(
    rt: &impl Abort,
    alloc: Global,
    atoms: &[&[u32]],
    triples: &[Triple],
    designated: &[u32],
    refusal: ActionError,
) {
    let error = build(rt, alloc, atoms, triples, designated).err();
    assert_eq!(rt; error, Some(refusal));
}

#[test]
fn no_event_and_seventeen_are_refused(rt: HostRuntime) {
    let no: &[u32] = &[];
    check_refused(&rt, rt.alloc(), &[], &[(9, 9, 9)], no, ActionError::NoEvent);
    let many = ActionError::TooManyEvents { events: 17 };
    check_refused(&rt, rt.alloc(), &[no; 17], &[(9, 9, 9)], no, many);
}

#[test]
fn the_first_bad_link_is_told(rt: HostRuntime) {
    let no: &[u32] = &[];
    let agent = ActionError::AgentOutOfRange { link: 2 };
    check_refused(
        &rt,
        rt.alloc(),
        &[no],
        &[(1, 0, 0), (1, 0, 7), (2, 0, 0)],
        no,
        agent,
    );
    let event = ActionError::EventOutOfRange { link: 1 };
    check_refused(
        &rt,
        rt.alloc(),
        &[no],
        &[(1, 0, 0), (0, 1, 0), (0, 0, 9)],
        &[5],
        event,
    );
}

#[test]
fn the_first_bad_designated_place_is_told(rt: HostRuntime) {
    let place = ActionError::DesignatedOutOfRange { place: 1 };
    check_refused(&rt, rt.alloc(), &[&[7, 7]], &[], &[0, 1], place);
}

#[test]
fn an_atom_twice_is_refused_before_no_designated_event(rt: HostRuntime) {
    let twice = ActionError::AtomTwice { event: 1, atom: 4 };
    check_refused(
        &rt,
        rt.alloc(),
        &[&[1, 2], &[3, 4, 5, 4, 3]],
        &[],
        &[],
        twice,
    );
    check_refused(
        &rt,
        rt.alloc(),
        &[&[1, 2], &[1]],
        &[],
        &[],
        ActionError::NoDesignated,
    );
}

// One agent's links from one event.
fn add_links(action: &Action, a: u32, e: u32, links: &mut Vec<Triple>) -> Result<(), OutOfMemory> {
    if a < action.agents() && e < action.events() {
        for f in action.targets(AgentId { n: a }, EventId { n: e }) {
            links.push((a, e, *f))?;
        }
    }
    Ok(())
}

// Asserts which links and designated events the action has.
fn check_action(
    rt: &impl Abort,
    alloc: Global,
    action: &Action,
    links: &[Triple],
    designated: &[u32],
) -> Result<(), OutOfMemory> {
    let mut found = Vec::new(alloc);
    for place in 0..8 * 16 {
        add_links(action, place / 16, place % 16, &mut found)?;
    }
    assert_eq!(rt; found.as_slice(), links);
    assert_eq!(rt; action.designated(), designated);
    Ok(())
}

#[test]
fn repeated_links_and_events_count_once(rt: HostRuntime) -> Result<(), Fail> {
    let repeats = [(1, 2, 1), (0, 0, 2), (0, 0, 1), (1, 2, 1), (0, 0, 2)];
    let action = build(&rt, rt.alloc(), &[&[4], &[], &[5]], &repeats, &[2, 0, 2])?;
    let copy = action.copy(rt.alloc())?;
    check_action(
        &rt,
        rt.alloc(),
        &copy,
        &[(0, 0, 1), (0, 0, 2), (1, 2, 1)],
        &[0, 2],
    )?;
    Ok(())
}

#[test]
fn sixteen_events_are_built(rt: HostRuntime) -> Result<(), Fail> {
    let no: &[u32] = &[];
    let action = build(&rt, rt.alloc(), &[no; 16], &[(0, 15, 15)], &[15])?;
    check_action(&rt, rt.alloc(), &action, &[(0, 15, 15)], &[15])?;
    Ok(())
}

const LOOPS: [Triple; 6] = [
    (0, 0, 0),
    (0, 1, 1),
    (0, 2, 2),
    (1, 0, 0),
    (1, 1, 1),
    (1, 2, 2),
];

// Asserts of which of the two agents the relation is an equivalence, for three events with these links behind so many of
// the loops.
fn check_s5(
    rt: &impl Abort,
    alloc: Global,
    loops: usize,
    links: &[Triple],
    wanted: [bool; 2],
) -> Result<(), Fail> {
    let no: &[u32] = &[];
    let mut all = Vec::new(alloc);
    for link in LOOPS.iter().take(loops) {
        all.push(*link)?;
    }
    all.extend_from_slice(links)?;
    let action = build(rt, alloc, &[no; 3], all.as_slice(), &[0])?;
    assert!(rt; action.agents() == 2);
    let first = action.is_equivalence(AgentId { n: 0 });
    let second = action.is_equivalence(AgentId { n: 1 });
    assert_eq!(rt; [first, second], wanted);
    assert_eq!(rt; action.is_s5(), first && second);
    Ok(())
}

#[test]
fn equivalences_of_events(rt: HostRuntime) -> Result<(), Fail> {
    let one_way = [(1, 0, 1)];
    let both_ways = [(1, 0, 1), (1, 1, 0)];
    let open_chain = [(0, 0, 1), (0, 1, 0), (0, 1, 2), (0, 2, 1)];
    let all_pairs = [
        (0, 0, 1),
        (0, 1, 0),
        (0, 1, 2),
        (0, 2, 1),
        (0, 0, 2),
        (0, 2, 0),
    ];
    check_s5(&rt, rt.alloc(), 6, &[], [true, true])?;
    check_s5(&rt, rt.alloc(), 5, &[], [true, false])?;
    check_s5(&rt, rt.alloc(), 6, &one_way, [true, false])?;
    check_s5(&rt, rt.alloc(), 6, &both_ways, [true, true])?;
    check_s5(&rt, rt.alloc(), 6, &open_chain, [false, true])?;
    check_s5(&rt, rt.alloc(), 6, &all_pairs, [true, true])?;
    Ok(())
}

fn heads() -> Formula {
    Formula::atom(AtomId { n: 3 })
}

// The agents 0 and 2.
fn group() -> Agents {
    Agents::none().with(AgentId { n: 0 }).with(AgentId { n: 2 })
}

#[test]
fn links_of_an_announcement(rt: HostRuntime) -> Result<(), Fail> {
    let action = Action::announce(rt.alloc(), 3, heads())?;
    check_action(
        &rt,
        rt.alloc(),
        &action,
        &[(0, 0, 0), (1, 0, 0), (2, 0, 0)],
        &[0],
    )?;
    Ok(())
}

#[test]
fn links_of_a_private_message(rt: HostRuntime) -> Result<(), Fail> {
    let members = group();
    assert!(rt; !members.is_empty() && members.is_within(3));
    let action = Action::private(rt.alloc(), 3, heads(), members)?;
    let told = [
        (0, 0, 0),
        (0, 1, 1),
        (1, 0, 1),
        (1, 1, 1),
        (2, 0, 0),
        (2, 1, 1),
    ];
    check_action(&rt, rt.alloc(), &action, &told, &[0])?;
    Ok(())
}

#[test]
fn links_of_sensing(rt: HostRuntime) -> Result<(), Fail> {
    let (members, formula) = (group(), heads());
    assert!(rt; !members.is_empty() && members.is_within(3));
    assert!(rt; formula.depth() < 128 && formula.nodes() < 131_072);
    let action = Action::sense(rt.alloc(), 3, formula, members)?;
    let seen = [
        (0, 0, 0),
        (0, 1, 1),
        (1, 0, 0),
        (1, 0, 1),
        (1, 1, 0),
        (1, 1, 1),
        (2, 0, 0),
        (2, 1, 1),
    ];
    check_action(&rt, rt.alloc(), &action, &seen, &[0, 1])?;
    Ok(())
}

#[test]
fn links_of_an_assignment(rt: HostRuntime) -> Result<(), Fail> {
    let action = Action::assign(rt.alloc(), 3, heads(), sets(rt.alloc(), &[8, 9])?)?;
    check_action(
        &rt,
        rt.alloc(),
        &action,
        &[(0, 0, 0), (1, 0, 0), (2, 0, 0)],
        &[0],
    )?;
    Ok(())
}

#[test]
fn an_assignment_to_an_atom_twice_is_refused(rt: HostRuntime) -> Result<(), Fail> {
    let twice = Some(ActionError::AtomTwice { event: 0, atom: 7 });
    let sets = sets(rt.alloc(), &[6, 7, 7])?;
    let error = Action::assign(rt.alloc(), 3, heads(), sets).err();
    assert_eq!(rt; error, twice);
    Ok(())
}

#[test]
fn parts_of_an_event(rt: HostRuntime) -> Result<(), Fail> {
    let (ann, act) = (AgentId { n: 0 }, EventId { n: 0 });
    let action = Action::assign(rt.alloc(), 1, heads(), sets(rt.alloc(), &[8])?)?;
    assert!(rt; action.linked(ann, act, act) && action.is_designated(act));
    assert!(rt; matches!(action.pre(act).node(), Node::Atom(AtomId { n: 3 })));
    assert_eq!(rt; action.sets(act).as_slice().len(), 1);
    Ok(())
}

#[test]
fn texts_of_refused_actions(rt: HostRuntime) -> Result<(), Fail> {
    for (refusal, text) in [
        (ActionError::NoEvent, "no event"),
        (ActionError::TooManyEvents { events: 17 }, "17 events"),
        (
            ActionError::AgentOutOfRange { link: 2 },
            "no such agent at link 2",
        ),
        (
            ActionError::EventOutOfRange { link: 1 },
            "no such event at link 1",
        ),
        (
            ActionError::DesignatedOutOfRange { place: 1 },
            "no such event at designated place 1",
        ),
        (
            ActionError::AtomTwice { event: 1, atom: 4 },
            "event 1 assigns to atom 4 twice",
        ),
        (ActionError::NoDesignated, "no designated event"),
        (ActionError::OutOfMemory, "out of memory"),
    ] {
        assert_eq!(rt; format!(in rt.alloc(); "{refusal}")?.as_str(), text);
    }
    Ok(())
}
