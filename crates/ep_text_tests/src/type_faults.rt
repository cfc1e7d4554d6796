//! The fault of a task that is not typed, and the token that it stands at.

use crate::reading::{task_tree, tokens_of};
use crate::typed_tasks::HEAD;
use ep_types::{TypeError, TypeFault, check};
use std::alloc::Global;
use std::process::Abort;
use std::test::Fail;

// In each row `@` stands before the token at fault.
const DECLARATIONS: [&str; 11] = [
    "Duplicate types { a < object; @a < agent; } objects { } fluents { }",
    "Duplicate types { @agent < object; } objects { } fluents { }",
    "Duplicate objects { ann, @ann : agent; } fluents { }",
    "Duplicate objects { ann : agent; } fluents { p; q; @p; }",
    "Unknown types { a < @b; b < object; } objects { } fluents { }",
    "Unknown types { a < @a; } objects { } fluents { }",
    "Unknown objects { ann : @cat; } fluents { }",
    "Unknown objects { } fluents { p(agent, @cat); }",
    "Parameters objects { } fluents { p(agent, agent, agent, agent, agent, agent, @agent); }",
    "Parameters objects { } fluents { p(agent, agent, agent, agent, agent, agent, @cat); }",
    "Unknown objects { ann : @cat; } fluents { p; p; }",
];

const INITIAL: [&str; 12] = [
    "Duplicate world o { } world @o { } designated { o }",
    "Duplicate vary { wet(kid) } facts { p, @wet(kid) } law true; designated true;",
    "Unknown world o { @r } designated { o }",
    "Unknown world o { } designated { @u }",
    "Unknown world o { } designated { o } links all { o -> @u };",
    "Group world o { } designated { o } links @{ } same;",
    "Group vary { } law true; sees @{ } { } designated true;",
    "Agent world o { } designated { o } links { ann, @rex } all;",
    "Knowledge vary { p } law @knows ann p; designated true;",
    "Knowledge vary { p } law true; designated not @common all p;",
    "Knowledge vary { p } law @knows tim p; designated true;",
    "Arity vary { p } law true; sees { ann } { @wet } designated true;",
];

const ACTIONS: [&str; 12] = [
    "Parameters go(a : agent, b : agent, c : agent, d : agent, e : agent, f : agent, @ann : cat) { announce p; }",
    "Duplicate go { announce p; } action @go { announce p; }",
    "Duplicate go(@ann : agent) { announce p; }",
    "Duplicate go(a : agent) { announce forall (@a : agent) p; }",
    "Duplicate go { event e pre p { } event @e pre p { } designated { e } }",
    "Unknown go(a : @cat) { announce p; }",
    "Unknown go { event e pre p { } designated { e } links all { e -> @o }; }",
    "Type go(a : agent) { announce wet(@a); }",
    "Agent go { private p to { ann, @rex }; }",
    "Group go { private p to @{ }; }",
    "Group go { sense p by @{ }; }",
    "Arity go { assign when p { @likes(ann) := p; } }",
];

const GOALS: [&str; 14] = [
    "Parameters forall (a : pet, b : pet, c : pet, d : pet, e : pet, f : pet, @g : pet) p",
    "Duplicate forall (a : agent) exists (@a : child) p",
    "Unknown @r",
    "Unknown wet(@tim)",
    "Unknown knows @tim p",
    "Unknown (ann = @tim)",
    "Unknown (forall (a : child) wet(a) and wet(@a))",
    "Arity @p(ann)",
    "Arity (@wet and wet(tim))",
    "Type wet(@ann)",
    "Type likes(@rex, rex)",
    "Agent knows @rex p",
    "Agent common { ann, @rex } p",
    "Group common @{ } q",
];

fn named(name: &str) -> TypeFault {
    match name {
        "Parameters" => TypeFault::TooManyParameters,
        "Duplicate" => TypeFault::Duplicate,
        "Unknown" => TypeFault::Unknown,
        "Arity" => TypeFault::WrongArity,
        "Type" => TypeFault::WrongType,
        "Agent" => TypeFault::NotAgent,
        "Group" => TypeFault::EmptyGroup,
        _ => TypeFault::NotObjective,
    }
}

// The task whose text is the row between the two parts has the fault that the row names, at the token behind `@`.
fn check_fault(
    rt: &impl Abort,
    alloc: Global,
    head: &str,
    row: &str,
    tail: &str,
) -> Result<(), Fail> {
    let (name, text) = row.split_once(' ').ok_or("no name")?;
    let (before, after) = text.split_once('@').ok_or("no mark")?;
    let front = format!(in alloc; "{head} {before}")?;
    let token = tokens_of(rt, alloc, front.as_bytes())?.count();
    let whole = format!(in alloc; "{front}{after} {tail}")?;
    let error = check(alloc, task_tree(rt, alloc, whole.as_bytes())?).err();
    let fault = named(name);
    assert_eq!(rt; error, Some(TypeError::At { fault, token }), "{row}");
    Ok(())
}

#[test]
fn faults_of_declarations(rt: HostRuntime) -> Result<(), Fail> {
    for row in DECLARATIONS {
        let tail = "init { world o { } designated { o } } goal true;";
        check_fault(&rt, rt.alloc(), "task t;", row, tail)?;
    }
    Ok(())
}

#[test]
fn faults_of_initial_states(rt: HostRuntime) -> Result<(), Fail> {
    let head = format!(in rt.alloc(); "{HEAD} init {{")?;
    for row in INITIAL {
        check_fault(&rt, rt.alloc(), head.as_str(), row, "} goal true;")?;
    }
    Ok(())
}

#[test]
fn faults_of_actions(rt: HostRuntime) -> Result<(), Fail> {
    let head = format!(in rt.alloc(); "{HEAD} init {{ world o {{ }} designated {{ o }} }} action")?;
    for row in ACTIONS {
        check_fault(&rt, rt.alloc(), head.as_str(), row, "goal true;")?;
    }
    Ok(())
}

#[test]
fn faults_of_goals(rt: HostRuntime) -> Result<(), Fail> {
    let head = format!(in rt.alloc(); "{HEAD} init {{ world o {{ }} designated {{ o }} }} goal")?;
    for row in GOALS {
        check_fault(&rt, rt.alloc(), head.as_str(), row, ";")?;
    }
    Ok(())
}
