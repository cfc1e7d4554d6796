// Tasks at their limits and one past them.

use crate::memory::answers;
use ep_cli::Status;
use std::alloc::Global;
use std::test::Fail;

// So many names that begin with this letter, with commas between.
fn names(alloc: Global, letter: &str, count: u32) -> Result<String, Fail> {
    let mut all = String::new(alloc);
    for number in 0..count {
        let comma = if number == 0 { "" } else { ", " };
        all.push_str(format!(in alloc; "{comma}{letter}{number}")?.as_str())?;
    }
    Ok(all)
}

// So many copies of a text.
fn copies(alloc: Global, text: &str, count: u32) -> Result<String, Fail> {
    let mut all = String::new(alloc);
    for number in 0..count {
        all.push_str(format!(in alloc; "{text}{number}; ")?.as_str())?;
    }
    Ok(all)
}

// The task with these objects, fluents, actions and goal, and one world.
fn task(
    alloc: Global,
    objects: &str,
    fluents: &str,
    actions: &str,
    goal: &str,
) -> Result<String, Fail> {
    Ok(format!(in alloc;
        "task t; types {{ a < object; b < object; }} objects {{ {objects} }} fluents {{ p; {fluents} }}
init {{ world o {{ }} designated {{ o }} }} {actions}
goal {goal};\n"
    )?)
}

const TAKEN: &str = "plan 1\ntask t\n# shortest\nactions 0\nend\n";

// The task with so many agents and so many other objects.
fn peopled(alloc: Global, agents: u32, others: u32) -> Result<String, Fail> {
    let people = names(alloc, "g", agents)?;
    let things = names(alloc, "o", others)?;
    let kind = if agents == 0 { "" } else { " : agent;" };
    let objects = format!(in alloc; "{people}{kind} {things} : object;")?;
    task(alloc, objects.as_str(), "", "", "true")
}

#[test]
fn objects_and_agents(rt: HostRuntime) -> Result<(), Fail> {
    let rows = [
        (8, 56, Status::Ok, TAKEN),
        (
            8,
            57,
            Status::Refused,
            "refused: task: too many objects: 65\n",
        ),
        (
            9,
            55,
            Status::Refused,
            "refused: task: too many agents: 9\n",
        ),
        (0, 1, Status::Refused, "refused: task: no agent\n"),
    ];
    for (agents, others, status, text) in rows {
        let task = peopled(rt.alloc(), agents, others)?;
        answers(&rt, rt.alloc(), task.as_bytes(), status, text)?;
    }
    Ok(())
}

#[test]
fn atoms(rt: HostRuntime) -> Result<(), Fail> {
    let rows = [
        (255, Status::Ok, TAKEN),
        (256, Status::Refused, "refused: task: too many atoms: 257\n"),
    ];
    for (count, status, text) in rows {
        let fluents = copies(rt.alloc(), "f", count)?;
        let task = task(rt.alloc(), "ann : agent;", fluents.as_str(), "", "true")?;
        answers(&rt, rt.alloc(), task.as_bytes(), status, text)?;
    }
    Ok(())
}

const PAIRS: &str = "action two(x : object, y : object) { announce true; }";

const MORE: &str =
    "action two(x : object, y : object) { announce true; } action one { announce true; }";

const SIX: &str =
    "action six(u : object, v : object, w : object, x : object, y : object, z : object) { announce true; }";

// The task with so many objects beside an agent.
fn busy(alloc: Global, others: u32, actions: &str, fluents: &str) -> Result<String, Fail> {
    let things = names(alloc, "o", others)?;
    let objects = format!(in alloc; "ann : agent; {things} : object;")?;
    task(alloc, objects.as_str(), fluents, actions, "true")
}

// The exact number is told, however large, and the first of two counts.
#[test]
fn actions(rt: HostRuntime) -> Result<(), Fail> {
    let rows = [
        (31, PAIRS, "", Status::Ok, TAKEN),
        (
            31,
            MORE,
            "",
            Status::Refused,
            "refused: task: too many actions: 1025\n",
        ),
        (
            63,
            SIX,
            "",
            Status::Refused,
            "refused: task: too many actions: 68719476736\n",
        ),
        (
            63,
            SIX,
            "q(object, object);",
            Status::Refused,
            "refused: task: too many atoms: 4097\n",
        ),
    ];
    for (others, actions, fluents, status, text) in rows {
        let task = busy(rt.alloc(), others, actions, fluents)?;
        answers(&rt, rt.alloc(), task.as_bytes(), status, text)?;
    }
    Ok(())
}

// The task with an action of so many events.
fn eventful(alloc: Global, count: u32) -> Result<String, Fail> {
    let mut events = String::new(alloc);
    for number in 0..count {
        events.push_str(format!(in alloc; "event e{number} pre true {{ }} ")?.as_str())?;
    }
    let action = format!(in alloc; "action many {{ {events} designated {{ e0 }} }}")?;
    task(alloc, "ann : agent;", "", action.as_str(), "true")
}

#[test]
fn events(rt: HostRuntime) -> Result<(), Fail> {
    let rows = [
        (16, Status::Ok, TAKEN),
        (17, Status::Refused, "refused: task: too many events: 17\n"),
    ];
    for (count, status, text) in rows {
        let task = eventful(rt.alloc(), count)?;
        answers(&rt, rt.alloc(), task.as_bytes(), status, text)?;
    }
    Ok(())
}

const QUANTIFIED: &str = "forall (x : a) forall (y : b) forall (z : a) not not not not not p";

// The task with this in front of the quantified goal.
fn quantified(alloc: Global, not: &str) -> Result<String, Fail> {
    let firsts = names(alloc, "f", 15)?;
    let seconds = names(alloc, "s", 48)?;
    let objects = format!(in alloc; "ann : agent; {firsts} : a; {seconds} : b;")?;
    let goal = format!(in alloc; "{not}{QUANTIFIED}")?;
    task(alloc, objects.as_str(), "", "", goal.as_str())
}

// 1 + 15 * (1 + 48 * (1 + 15 * 6)) = 65,536 nodes, and one more. There are 168 tokens before the goal's formula.
#[test]
fn nodes(rt: HostRuntime) -> Result<(), Fail> {
    let rows = [
        ("", Status::Ok, TAKEN),
        (
            "not ",
            Status::Refused,
            "refused: task: formula too large at token 168, line 3\n",
        ),
    ];
    for (not, status, text) in rows {
        let task = quantified(rt.alloc(), not)?;
        answers(&rt, rt.alloc(), task.as_bytes(), status, text)?;
    }
    Ok(())
}

// The task whose worlds are the valuations of so many fluents that meet a law.
fn lawful(alloc: Global, count: u32, law: &str) -> Result<String, Fail> {
    let fluents = copies(alloc, "v", count)?;
    let varied = names(alloc, "v", count)?;
    Ok(format!(in alloc;
        "task t; objects {{ ann : agent; }} fluents {{ {fluents} }}
init {{ vary {{ {varied} }} law {law}; designated true; }} goal true;\n"
    )?)
}

#[test]
fn varied_atoms_and_worlds(rt: HostRuntime) -> Result<(), Fail> {
    let rows = [
        (8, "true", Status::Ok, TAKEN),
        (
            9,
            "true",
            Status::Refused,
            "refused: task: too many worlds: 512\n",
        ),
        (9, "v0", Status::Ok, TAKEN),
        (
            12,
            "true",
            Status::Refused,
            "refused: task: too many worlds: 4096\n",
        ),
        (
            13,
            "true",
            Status::Refused,
            "refused: task: too many varied atoms: 13\n",
        ),
        (
            2,
            "false",
            Status::Refused,
            "refused: task: no designated world\n",
        ),
    ];
    for (count, law, status, text) in rows {
        let task = lawful(rt.alloc(), count, law)?;
        answers(&rt, rt.alloc(), task.as_bytes(), status, text)?;
    }
    Ok(())
}
