ghost use Rattle.std.specs.Prelude.{◌≡◌, ◌<◌, ◌≤◌, ◌^◌, ◌↔◌, true, false, map, drop, length, IsTrue, IfOk, option_map};
ghost use Rattle.ep_logic.specs.AgentSets.{is_nobody};
ghost use Rattle.ep_logic.specs.Nodes.{IsFormula, node_count, depth_of};
ghost use Rattle.ep_logic.specs.declared.formula.TheConstants.{MOST_DEPTH, MOST_NODES};
ghost use Rattle.ep_theory.specs.Rising.{IsIn};
ghost use Rattle.ep_theory.specs.Kripke.{successors};
ghost use Rattle.ep_theory.specs.Events.{IsAction, event_at, event_links};
ghost use Rattle.ep_theory.specs.FourActions.{announce, private, sense, assign};
ghost use Rattle.ep_event.specs.Built.{set_of, built};
ghost use Rattle.ep_base.specs.Refusals.{Answers};
ghost use Rattle.ep_event.specs.Refusals.{refusal_of, repeated_atom};

use crate::marks::named;
use crate::numbers::Numbers;
use crate::parts::{ActionParts, Assign, EventParts};
use crate::refusal::{ActionError, check, first_repeat};
use crate::relations::{loops, relations, told_apart_by};
use ep_logic::{AgentId, Agents, EventId, Formula, List, OutOfMemory};
use std::alloc::Global;
use std::marker::Model;

/// An event model among at most 8 agents, with 1 to 16 events and a set of designated events that is not empty. Its
/// source is van Ditmarsch, van der Hoek and Kooi, *Dynamic Epistemic Logic*, chapter 6; several designated events are
/// after Bolander and Andersen, *Epistemic planning for single- and multi-agent systems* (2011), and the form of
/// assignments is this project's own.
#[derive(Debug)]
pub struct Action {
    events: List<EventParts>,
    relations: List<List<Numbers>>,
    designated: Numbers,
}

impl Drop for Action {
    fn drop(self) {
        let Action {
            events: _events,
            relations: _relations,
            designated: _designated,
        } = self;
    }
}

impl Model for Action {
    ghost use Rattle.ep_logic.specs.contracts.formula.Node as e;
    ghost use Rattle.std.specs.Coded.{codes};
    ghost use Rattle.ep_theory.specs.Events.{EventModel};

    ghost Value = { EventModel };

    ghost coded = { Prim.hlevel (codes, e.the_row.coded) };

    ghost use Rattle.ep_event.specs.Relations.{action_of, IsSound};

    ghost view = { λ a. action_of a.events a.relations a.designated };

    ghost invariant = { λ a. IsSound a.events a.relations a.designated };
}

impl Action {
    /// The action with these parts.
    pub fn build(alloc: Global, parts: ActionParts) -> Result<Action, ActionError>
        requires agents { parts.agents ≤ MOST_AGENTS }
        requires events { length parts.events < 2 ^ 32 }
        requires links { length parts.links < 2 ^ 32 }
        requires designated { length parts.designated < 2 ^ 32 }
        ensures { Answers ActionError.OutOfMemory (refusal_of parts) (λ action. action ≡ built parts) result }
    {
        check(&parts)?;
        let ActionParts {
            agents,
            events,
            links,
            designated,
        } = parts;
        let count = events.as_slice().len() as u32;
        let relations = relations(alloc, agents, count, links.as_slice())?;
        let designated = named(alloc, count, designated.as_slice())?;
        Ok(Action {
            events,
            relations,
            designated,
        })
    }

    /// Everyone sees that `f` is true.
    pub fn announce(alloc: Global, agents: u32, f: Formula) -> Result<Action, OutOfMemory>
        requires { agents ≤ MOST_AGENTS }
        ensures { IfOk result (λ a. a ≡ announce agents f) }
    {
        Ok(Action {
            events: one_event(alloc, f, List::new(alloc))?,
            relations: loops(alloc, agents)?,
            designated: Numbers::from_slice(alloc, &[0])?,
        })
    }

    /// The members of the group are told that `f` is true, and the others take it that nothing happens.
    pub fn private(
        alloc: Global,
        agents: u32,
        f: Formula,
        group: Agents,
    ) -> Result<Action, OutOfMemory>
        requires agents { agents ≤ MOST_AGENTS }
        requires some_member { is_nobody group ≡ false }
        requires members { is_nobody (drop agents group) ≡ true }
        ensures { IfOk result (λ a. a ≡ private agents f group) }
    {
        Ok(Action {
            events: two_events(alloc, f, Formula::truth(true))?,
            relations: told_apart_by(alloc, agents, &group, &[1])?,
            designated: Numbers::from_slice(alloc, &[0])?,
        })
    }

    /// The members of the group learn whether `f` is true, and the others see that they do.
    pub fn sense(
        alloc: Global,
        agents: u32,
        f: Formula,
        group: Agents,
    ) -> Result<Action, OutOfMemory>
        requires agents { agents ≤ MOST_AGENTS }
        requires some_member { is_nobody group ≡ false }
        requires members { is_nobody (drop agents group) ≡ true }
        requires shallow { depth_of f < MOST_DEPTH }
        requires small { node_count f < MOST_NODES }
        ensures { IfOk result (λ a. a ≡ sense agents f group) }
    {
        let no = negation(alloc, &f)?;
        Ok(Action {
            events: two_events(alloc, f, no)?,
            relations: told_apart_by(alloc, agents, &group, &[0, 1])?,
            designated: Numbers::from_slice(alloc, &[0, 1])?,
        })
    }

    /// Everyone sees that `f` is true and that these assignments are made.
    pub fn assign(
        alloc: Global,
        agents: u32,
        f: Formula,
        sets: List<Assign>,
    ) -> Result<Action, ActionError>
        requires { agents ≤ MOST_AGENTS }
        ensures { Answers ActionError.OutOfMemory (option_map (ActionError.AtomTwice 0) (repeated_atom sets)) (λ action. action ≡ assign agents f (map set_of sets)) result }
    {
        if let Some(atom) = first_repeat(sets.as_slice()) {
            return Err(ActionError::AtomTwice { event: 0, atom });
        }
        Ok(Action {
            events: one_event(alloc, f, sets)?,
            relations: loops(alloc, agents)?,
            designated: Numbers::from_slice(alloc, &[0])?,
        })
    }

    /// What is known of every action. It does nothing: a proof calls it where the code asks nothing of the action.
    pub fn known(&self)
        ensures valid { IsAction self.now }
        ensures few_agents { length self.now.links ≤ MOST_AGENTS }
    {
        let _relations = &self.relations;
    }

    /// The number of agents.
    pub fn agents(&self) -> u32
        ensures value { result ≡ length self.now.links }
        ensures valid { IsAction self.now }
        ensures few_agents { length self.now.links ≤ MOST_AGENTS }
    {
        self.relations.as_slice().len() as u32
    }

    /// The number of events.
    pub fn events(&self) -> u32
        ensures value { result ≡ length self.now.events }
        ensures valid { IsAction self.now }
        ensures few_agents { length self.now.links ≤ MOST_AGENTS }
    {
        self.events.as_slice().len() as u32
    }

    /// The precondition of an event.
    pub fn pre(&self, e: EventId) -> &Formula
        requires { e.n < length self.now.events }
        ensures value { result.now ≡ (event_at self.now e.n).pre }
        ensures formed { IsFormula (event_at self.now e.n).pre }
        ensures valid { IsAction self.now }
    {
        let event = &self.events.as_slice()[e.n as usize];
        event.pre.known();
        &event.pre
    }

    /// The assignments of an event, as they were given.
    pub fn sets(&self, e: EventId) -> &List<Assign>
        requires { e.n < length self.now.events }
        ensures value { map set_of result.now ≡ (event_at self.now e.n).sets }
        ensures valid { IsAction self.now }
    {
        let event = &self.events.as_slice()[e.n as usize];
        &event.sets
    }

    /// The events to which an agent's links lead from an event, in rising order. That it takes no memory is this
    /// project's own addition.
    pub fn targets(&self, a: AgentId, e: EventId) -> &[u32]
        requires agent { a.n < length self.now.links }
        requires event { e.n < length self.now.events }
        ensures value { result.now ≡ successors (event_links self.now a.n) e.n }
        ensures valid { IsAction self.now }
    {
        let rows = &self.relations.as_slice()[a.n as usize];
        let row = &rows.as_slice()[e.n as usize];
        row.as_slice()
    }

    /// Whether an agent links an event to another.
    pub fn linked(&self, a: AgentId, e: EventId, f: EventId) -> bool
        requires agent { a.n < length self.now.links }
        requires from { e.n < length self.now.events }
        requires to { f.n < length self.now.events }
        ensures value { IsTrue result ↔ IsIn (e.n, f.n) (event_links self.now a.n) }
        ensures valid { IsAction self.now }
    {
        contains(self.targets(a, e), f.n)
    }

    /// The designated events in rising order.
    pub fn designated(&self) -> &[u32]
        ensures value { result.now ≡ self.now.designated }
        ensures valid { IsAction self.now }
    {
        self.designated.as_slice()
    }

    /// Whether an event is designated.
    pub fn is_designated(&self, e: EventId) -> bool
        requires { e.n < length self.now.events }
        ensures value { IsTrue result ↔ IsIn e.n self.now.designated }
        ensures valid { IsAction self.now }
    {
        contains(self.designated(), e.n)
    }

    /// A second action that is equal to this one.
    pub fn copy(&self, alloc: Global) -> Result<Action, OutOfMemory>
        ensures { IfOk result (λ a. a ≡ self.now) }
    {
        Ok(Action {
            events: copy_events(alloc, self.events.as_slice())?,
            relations: copy_relations(alloc, self.relations.as_slice())?,
            designated: Numbers::from_slice(alloc, self.designated.as_slice())?,
        })
    }
}

ghost use Rattle.std.specs.Prelude.{[], ◌∷◌};
ghost use Rattle.ep_logic.specs.declared.limits.TheConstants.{MOST_AGENTS};
ghost use Rattle.ep_logic.specs.declared.formula.Node.TheVariants.{Not};

fn contains(numbers: &[u32], number: u32) -> bool
    ensures { IsTrue result ↔ IsIn number numbers.now }
{
    numbers.contains(&number)
}

// The negation of a formula whose negation is one.
fn negation(alloc: Global, f: &Formula) -> Result<Formula, OutOfMemory>
    requires shallow { depth_of f.now < MOST_DEPTH }
    requires small { node_count f.now < MOST_NODES }
    ensures { IfOk result (λ no. no ≡ Not f.now) }
{
    match Formula::not(alloc, f.copy(alloc)?) {
        Ok(no) => Ok(no),
        Err(_) => Err(OutOfMemory {}),
    }
}

fn one_event(
    alloc: Global,
    pre: Formula,
    sets: List<Assign>,
) -> Result<List<EventParts>, OutOfMemory>
    ensures { IfOk result (λ events. events ≡ record { pre = pre; sets = sets } ∷ []) }
{
    let mut events = List::new(alloc);
    events.push(EventParts { pre, sets })?;
    Ok(events)
}

fn two_events(
    alloc: Global,
    first: Formula,
    second: Formula,
) -> Result<List<EventParts>, OutOfMemory>
    ensures { IfOk result (λ events. events ≡ record { pre = first; sets = [] } ∷ record { pre = second; sets = [] } ∷ []) }
{
    let mut events = one_event(alloc, first, List::new(alloc))?;
    events.push(EventParts {
        pre: second,
        sets: List::new(alloc),
    })?;
    Ok(events)
}

fn copy_sets(alloc: Global, sets: &[Assign]) -> Result<List<Assign>, OutOfMemory>
    ensures { IfOk result (λ copies. copies ≡ sets.now) }
{
    let mut copies = List::new(alloc);
    for set in sets {
        copies.push(Assign {
            atom: set.atom,
            value: set.value.copy(alloc)?,
        })?;
    }
    Ok(copies)
}

fn copy_events(alloc: Global, events: &[EventParts]) -> Result<List<EventParts>, OutOfMemory>
    ensures { IfOk result (λ copies. copies ≡ events.now) }
{
    let mut copies = List::new(alloc);
    for event in events {
        copies.push(EventParts {
            pre: event.pre.copy(alloc)?,
            sets: copy_sets(alloc, event.sets.as_slice())?,
        })?;
    }
    Ok(copies)
}

fn copy_rows(alloc: Global, rows: &[Numbers]) -> Result<List<Numbers>, OutOfMemory>
    ensures { IfOk result (λ copies. copies ≡ rows.now) }
{
    let mut copies = List::new(alloc);
    for row in rows {
        copies.push(Numbers::from_slice(alloc, row.as_slice())?)?;
    }
    Ok(copies)
}

fn copy_relations(
    alloc: Global,
    relations: &[List<Numbers>],
) -> Result<List<List<Numbers>>, OutOfMemory>
    ensures { IfOk result (λ copies. copies ≡ relations.now) }
{
    let mut copies = List::new(alloc);
    for rows in relations {
        copies.push(copy_rows(alloc, rows.as_slice())?)?;
    }
    Ok(copies)
}
