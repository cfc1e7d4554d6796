//! Objects, ground atoms and names of typed tasks, and the limits on them.

use crate::reading::{discard, universe_of};
use ep_logic::Text;
use ep_universe::{Universe, UniverseError};
use std::alloc::Global;
use std::process::Abort;
use std::test::Fail;

const FAMILY: &str = "task family; types { child < agent; pet < object; ghost < object; } \
    objects { ann : agent; kid : child; rex : pet; } fluents { p; wet(child); likes(agent, object); } \
    init { world o { } designated { o } } action go(a : agent, c : child, x : object) { announce p; } goal true;";

fn check_candidates(rt: &impl Abort, alloc: Global, universe: &Universe) -> Result<(), Fail> {
    let schema = universe
        .tree()
        .schemas
        .as_slice()
        .first()
        .ok_or("no schema")?;
    let lists = universe.candidates(alloc, schema.params.as_slice())?;
    let rows: [&[u32]; 3] = [&[0, 1], &[1], &[0, 1, 2]];
    for (list, row) in lists.as_slice().iter().zip(rows) {
        assert_eq!(rt; list.as_slice(), row);
    }
    Ok(())
}

// A parameter takes the objects of its type and of those below it.
#[test]
fn objects_of_subtypes(rt: HostRuntime) -> Result<(), Fail> {
    let universe = universe_of(&rt, rt.alloc(), FAMILY)??;
    let held = check_candidates(&rt, rt.alloc(), &universe);
    discard(universe);
    held
}

fn check_texts(rt: &impl Abort, found: &[Text], wanted: &[&str]) {
    assert_eq!(rt; found.len(), wanted.len());
    for (name, text) in found.iter().zip(wanted) {
        assert_eq!(rt; name.as_slice(), text.as_bytes());
    }
}

fn check_names(rt: &impl Abort, universe: &Universe) {
    check_texts(rt, universe.object_names(), &["ann", "kid", "rex"]);
    check_texts(rt, universe.agent_names(), &["ann", "kid"]);
    let atoms = [
        "p",
        "wet(kid)",
        "likes(ann,ann)",
        "likes(ann,kid)",
        "likes(ann,rex)",
        "likes(kid,ann)",
        "likes(kid,kid)",
        "likes(kid,rex)",
    ];
    check_texts(rt, universe.atom_names(), &atoms);
}

#[test]
fn names_of_a_family(rt: HostRuntime) -> Result<(), Fail> {
    let universe = universe_of(&rt, rt.alloc(), FAMILY)??;
    check_names(&rt, &universe);
    discard(universe);
    Ok(())
}

const MANY: &str = " task many; objects { ann : agent; o1, o2, o3, o4, o5, o6, o7, o8, o9, o10, \
    o11, o12, o13, o14, o15, o16, o17, o18, o19, o20, o21, o22, o23, o24, o25, o26, o27, o28, \
    o29, o30, o31, o32, o33, o34, o35, o36, o37, o38, o39, o40, o41, o42, o43, o44, o45, o46, \
    o47, o48, o49, o50, o51, o52, o53, o54, o55, o56, o57, o58, o59, o60, o61, o62, o63 : \
    object; } fluents { p; q(object, object, object, object, object, object); } init { world o { \
    } designated { o } } goal true;";

const NINE: &str = "task nine; objects { a, b, c, d, e, f, g, h, i : agent; } fluents { } \
    init { world o { } designated { o } } goal true;";

// A task with so many objects, none of them an agent.
fn objects(alloc: Global, count: u32) -> Result<String, Fail> {
    let mut text = String::from_str(alloc, "task things; objects { o0")?;
    for number in 1..count {
        text.push_str(format!(in alloc; ", o{number}")?.as_str())?;
    }
    text.push_str(" : object; } fluents { } init { world o { } designated { o } } goal true;")?;
    Ok(text)
}

fn check_fault(
    rt: &impl Abort,
    alloc: Global,
    text: &str,
    wanted: UniverseError,
) -> Result<(), Fail> {
    match universe_of(rt, alloc, text)? {
        Ok(universe) => {
            discard(universe);
            Err("a universe".into())
        }
        Err(fault) => {
            assert_eq!(rt; fault, wanted);
            Ok(())
        }
    }
}

// Objects come before agents, and 64 of them at each of six places are told before any atom is made.
#[test]
fn first_limits_that_are_broken(rt: HostRuntime) -> Result<(), Fail> {
    let alloc = rt.alloc();
    let more = UniverseError::TooManyObjects { count: 65 };
    check_fault(&rt, alloc, objects(alloc, 65)?.as_str(), more)?;
    check_fault(
        &rt,
        alloc,
        objects(alloc, 64)?.as_str(),
        UniverseError::NoAgent,
    )?;
    let nine = UniverseError::TooManyAgents { count: 9 };
    check_fault(&rt, alloc, NINE, nine)?;
    let count = 68_719_476_737;
    check_fault(&rt, alloc, MANY, UniverseError::TooManyAtoms { count })
}
