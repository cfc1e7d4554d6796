//! The action of a body under a binding.

ghost use Rattle.std.specs.Prelude.{◌≡◌, false, All as Each, IfErr, IfOk, IsTrue, OnOk, map};
ghost use Rattle.ep_event.specs.Built.{event_of, set_of};
ghost use Rattle.ep_theory.specs.FourActions as four;
ghost use Rattle.ep_universe.specs.Formulas.{ground_of};
ghost use Rattle.ep_universe.specs.Links.{agent_count};
ghost use Rattle.ep_universe.specs.Objects.{group_of};
ghost use Rattle.ep_universe.specs.Sizes.{IsBuildable, has_member};
ghost use Rattle.ep_schema.specs.Actions as spec;
ghost use Rattle.ep_schema.specs.Actions.{assigns_twice};
ghost use Rattle.ep_schema.specs.Answers.{IsOfBody, Refuses, of_body};
ghost use Rattle.ep_schema.specs.Bodies.{AreBuildableEvents, AreBuildableSets, IsBuildableBody, IsBuildableEvent};
ghost use Rattle.ep_schema.specs.Parts.{AreParts};

use crate::body_error::BodyError;
use crate::links::{event_ids, event_links, event_table};
use ep_event::{Action, ActionError, ActionParts, Assign, EventParts};
use ep_logic::{List, OutOfMemory};
use ep_tree::{BodyTree, EventTree, FormulaTree, GroupTree, SetTree};
use ep_universe::formula::ground_form;
use ep_universe::links::Ends;
use ep_universe::objects::Bound;
use ep_universe::universe::Universe;
use std::alloc::Global;

/// The action of a body under a binding of the parameters, among the agents of the task.
pub fn action_of(
    alloc: Global,
    universe: &Universe,
    binding: &[Bound],
    body: &BodyTree,
) -> Result<Action, BodyError>
    requires { IsBuildableBody universe.now.names body.now }
    ensures value { IfOk result (λ action. action ≡ spec.action_of universe.now.names body.now binding.now) }
    ensures once { OnOk result (assigns_twice (spec.action_of universe.now.names body.now binding.now) ≡ false) }
    ensures err { IfErr result (Refuses (spec.action_of universe.now.names body.now binding.now)) }
{
    match body {
        BodyTree::Announce { what } => Ok(announce(alloc, universe, binding, what)?),
        BodyTree::Private { what, group } => {
            Ok(tell_privately(alloc, universe, binding, what, group)?)
        }
        BodyTree::Sense { what, group } => { Ok(sense(alloc, universe, binding, what, group)?) }
        BodyTree::Assign { guard, sets } => {
            assign(alloc, universe, binding, guard, sets.as_slice())
        }
        BodyTree::Events {
            events,
            designated,
            links,
        } => {
            let ends = Ends {
                designated: designated.as_slice(),
                links: links.as_slice(),
            };
            build_general(alloc, universe, binding, events.as_slice(), &ends)
        }
    }
}

fn announce(
    alloc: Global,
    universe: &Universe,
    binding: &[Bound],
    what: &FormulaTree,
) -> Result<Action, OutOfMemory>
    requires { IsBuildable universe.now.names what.now }
    ensures { IfOk result (λ action. action ≡ four.announce (agent_count universe.now.names) (ground_of universe.now.names what.now binding.now)) }
{
    let f = ground_form(alloc, universe, what, binding)?;
    Action::announce(alloc, universe.agents(), f)
}

fn tell_privately(
    alloc: Global,
    universe: &Universe,
    binding: &[Bound],
    what: &FormulaTree,
    group: &GroupTree,
) -> Result<Action, OutOfMemory>
    requires what { IsBuildable universe.now.names what.now }
    requires group { IsTrue (has_member group.now) }
    ensures { IfOk result (λ action. action ≡ four.private (agent_count universe.now.names) (ground_of universe.now.names what.now binding.now) (group_of universe.now.names binding.now group.now)) }
{
    let f = ground_form(alloc, universe, what, binding)?;
    Action::private(
        alloc,
        universe.agents(),
        f,
        universe.group_of(binding, group),
    )
}

fn sense(
    alloc: Global,
    universe: &Universe,
    binding: &[Bound],
    what: &FormulaTree,
    group: &GroupTree,
) -> Result<Action, OutOfMemory>
    requires what { IsBuildable universe.now.names what.now }
    requires group { IsTrue (has_member group.now) }
    ensures { IfOk result (λ action. action ≡ four.sense (agent_count universe.now.names) (ground_of universe.now.names what.now binding.now) (group_of universe.now.names binding.now group.now)) }
{
    let f = ground_form(alloc, universe, what, binding)?;
    Action::sense(
        alloc,
        universe.agents(),
        f,
        universe.group_of(binding, group),
    )
}

fn assignment(
    alloc: Global,
    universe: &Universe,
    binding: &[Bound],
    set: &SetTree,
) -> Result<Assign, OutOfMemory>
    requires { IsBuildable universe.now.names set.now.value }
    ensures { IfOk result (λ made. set_of made ≡ spec.set_of universe.now.names binding.now set.now) }
{
    Ok(Assign {
        atom: universe.atom_at(alloc, binding, &set.atom)?,
        value: ground_form(alloc, universe, &set.value, binding)?,
    })
}

fn assignments(
    alloc: Global,
    universe: &Universe,
    binding: &[Bound],
    sets: &[SetTree],
) -> Result<List<Assign>, OutOfMemory>
    requires { AreBuildableSets universe.now.names sets.now }
    ensures { IfOk result (λ made. map set_of made ≡ map (spec.set_of universe.now.names binding.now) sets.now) }
{
    let mut made = List::new(alloc);
    for set in sets {
        made.push(assignment(alloc, universe, binding, set)?)?;
    }
    Ok(made)
}

fn assign(
    alloc: Global,
    universe: &Universe,
    binding: &[Bound],
    guard: &FormulaTree,
    sets: &[SetTree],
) -> Result<Action, BodyError>
    requires guard { IsBuildable universe.now.names guard.now }
    requires sets { AreBuildableSets universe.now.names sets.now }
    ensures value { IfOk result (λ action. action ≡ four.assign (agent_count universe.now.names) (ground_of universe.now.names guard.now binding.now) (map (spec.set_of universe.now.names binding.now) sets.now)) }
    ensures once { OnOk result (assigns_twice (four.assign (agent_count universe.now.names) (ground_of universe.now.names guard.now binding.now) (map (spec.set_of universe.now.names binding.now) sets.now)) ≡ false) }
    ensures err { IfErr result (Refuses (four.assign (agent_count universe.now.names) (ground_of universe.now.names guard.now binding.now) (map (spec.set_of universe.now.names binding.now) sets.now))) }
{
    let f = ground_form(alloc, universe, guard, binding)?;
    let sets = assignments(alloc, universe, binding, sets)?;
    expect_action(Action::assign(alloc, universe.agents(), f, sets))
}

fn event(
    alloc: Global,
    universe: &Universe,
    binding: &[Bound],
    event: &EventTree,
) -> Result<EventParts, OutOfMemory>
    requires { IsBuildableEvent universe.now.names event.now }
    ensures { IfOk result (λ parts. event_of parts ≡ spec.event_of universe.now.names binding.now event.now) }
{
    Ok(EventParts {
        pre: ground_form(alloc, universe, &event.pre, binding)?,
        sets: assignments(alloc, universe, binding, event.sets.as_slice())?,
    })
}

fn all_events(
    alloc: Global,
    universe: &Universe,
    binding: &[Bound],
    events: &[EventTree],
) -> Result<List<EventParts>, OutOfMemory>
    requires { Each (IsBuildableEvent universe.now.names) events.now }
    ensures { IfOk result (λ parts. map event_of parts ≡ map (spec.event_of universe.now.names binding.now) events.now) }
{
    let mut parts = List::new(alloc);
    for tree in events {
        parts.push(event(alloc, universe, binding, tree)?)?;
    }
    Ok(parts)
}

/// The parts of a general action.
fn parts(
    alloc: Global,
    universe: &Universe,
    binding: &[Bound],
    events: &[EventTree],
    ends: &Ends,
) -> Result<ActionParts, OutOfMemory>
    requires { AreBuildableEvents universe.now.names events.now ends.now.designated.now ends.now.links.now }
    ensures { IfOk result (AreParts universe.now.names binding.now events.now ends.now.designated.now ends.now.links.now) }
{
    let names = event_table(alloc, events)?;
    Ok(ActionParts {
        agents: universe.agents(),
        events: all_events(alloc, universe, binding, events)?,
        links: event_links(alloc, universe, binding, &names, ends.links)?,
        designated: event_ids(alloc, &names, ends.designated)?,
    })
}

fn build_general(
    alloc: Global,
    universe: &Universe,
    binding: &[Bound],
    events: &[EventTree],
    ends: &Ends,
) -> Result<Action, BodyError>
    requires { AreBuildableEvents universe.now.names events.now ends.now.designated.now ends.now.links.now }
    ensures value { IfOk result (λ action. action ≡ spec.events_of universe.now.names binding.now events.now ends.now.designated.now ends.now.links.now) }
    ensures once { OnOk result (assigns_twice (spec.events_of universe.now.names binding.now events.now ends.now.designated.now ends.now.links.now) ≡ false) }
    ensures err { IfErr result (Refuses (spec.events_of universe.now.names binding.now events.now ends.now.designated.now ends.now.links.now)) }
{
    universe.known();
    let parts = parts(alloc, universe, binding, events, ends)?;
    expect_action(Action::build(alloc, parts))
}

/// The action, where an atom set twice is the only fault.
fn expect_action(answer: Result<Action, ActionError>) -> Result<Action, BodyError>
    requires { IfErr answer IsOfBody }
    ensures { result ≡ of_body answer }
{
    match answer {
        Ok(action) => Ok(action),
        Err(ActionError::AtomTwice { .. }) => Err(BodyError::AtomTwice),
        Err(ActionError::OutOfMemory) => Err(BodyError::OutOfMemory),
        Err(_) => unreachable!(),
    }
}
