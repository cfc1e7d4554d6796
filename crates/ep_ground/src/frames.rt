//! Whether the relations of a task are equivalences, where they are to be.

ghost use Rattle.std.specs.Prelude.{◌≡◌, map, length, zip};
ghost use Rattle.std.specs.Option.{option_map};
ghost use Rattle.ep_base.specs.Refusals.{IsJudged, first_some};
ghost use Rattle.ep_schema.specs.ActionNames.{action_names};
ghost use Rattle.ep_universe.specs.PrintedNames.{agent_names};
ghost use Rattle.ep_ground.specs.Frames as spec;
ghost use Rattle.ep_ground.specs.Grounding.{problem_from};

use crate::fault::{GroundError, S5Place};
use crate::task::Parts;
use ep_event::Action;
use ep_kripke::State;
use ep_logic::{ActionId, AgentId, Text};
use ep_universe::names::copy_text;
use ep_universe::universe::Universe;
use std::alloc::Global;

/// The name of the first agent whose relation in a state is no equivalence.
fn unequal_in_state<'a>(agents: &'a [Text], state: &State) -> Option<&'a Text>
    requires { length agents.now ≡ state.now.agents }
    ensures { option_map (λ agent. agent.now) result ≡ spec.unequal_agent agents.now state.now.worlds state.now.links }
{
    for n in 0..state.agents() {
        if !state.is_equivalence(AgentId { n }) {
            return Some(&agents[n as usize]);
        }
    }
    None
}

/// The name of the first agent whose relation in an action is no equivalence.
fn unequal_in_action<'a>(agents: &'a [Text], action: &Action) -> Option<&'a Text>
    requires { length agents.now ≡ length action.now.links }
    ensures { option_map (λ agent. agent.now) result ≡ spec.unequal_agent agents.now (length action.now.events) action.now.links }
{
    for n in 0..action.agents() {
        if !action.is_equivalence(AgentId { n }) {
            return Some(&agents[n as usize]);
        }
    }
    None
}

fn check_state(alloc: Global, agents: &[Text], state: &State) -> Result<(), GroundError>
    requires { length agents.now ≡ state.now.agents }
    ensures { IsJudged GroundError.OutOfMemory (spec.unequal_state agents.now state.now) result }
{
    match unequal_in_state(agents, state) {
        None => Ok(()),
        Some(agent) => Err(GroundError::NotS5 {
            place: S5Place::Initial,
            agent: copy_text(alloc, agent)?,
        }),
    }
}

fn check_action(
    alloc: Global,
    agents: &[Text],
    name: &Text,
    action: &Action,
) -> Result<(), GroundError>
    requires { length agents.now ≡ length action.now.links }
    ensures { IsJudged GroundError.OutOfMemory (spec.unequal_action agents.now (name.now, action.now)) result }
{
    match unequal_in_action(agents, action) {
        None => Ok(()),
        Some(agent) => {
            let name = copy_text(alloc, name)?;
            let agent = copy_text(alloc, agent)?;
            Err(GroundError::NotS5 {
                place: S5Place::Action { name },
                agent,
            })
        }
    }
}

fn check_actions(alloc: Global, agents: &[Text], parts: &Parts) -> Result<(), GroundError>
    requires agents { length agents.now ≡ parts.now.problem.initial.agents }
    requires names { length parts.now.actions ≡ length parts.now.problem.actions }
    ensures { IsJudged GroundError.OutOfMemory
        (first_some (map (spec.unequal_action agents.now) (zip parts.now.actions parts.now.problem.actions))) result }
{
    for n in 0..parts.problem.actions() {
        let action = parts.problem.action(ActionId { n });
        check_action(alloc, agents, parts.actions.text(n), action)?;
    }
    Ok(())
}

fn check_relations(alloc: Global, agents: &[Text], parts: &Parts) -> Result<(), GroundError>
    requires agents { length agents.now ≡ parts.now.problem.initial.agents }
    requires names { length parts.now.actions ≡ length parts.now.problem.actions }
    ensures { IsJudged GroundError.OutOfMemory
        (spec.first_unequal agents.now parts.now.actions parts.now.problem.initial parts.now.problem.actions) result }
{
    check_state(alloc, agents, parts.problem.initial())?;
    check_actions(alloc, agents, parts)
}

/// Whether the relations of a task are equivalences, where it says that they are. The parts are those of the task.
pub(crate) fn check_frames(
    alloc: Global,
    universe: &Universe,
    parts: &Parts,
) -> Result<(), GroundError>
    requires actions { parts.now.actions ≡ action_names universe.now.names universe.now.tree.schemas }
    requires problem { parts.now.problem ≡ problem_from universe.now.names universe.now.tree }
    ensures { IsJudged GroundError.OutOfMemory (spec.not_s5 universe.now.names universe.now.tree) result }
{
    if universe.tree().s5 {
        check_relations(alloc, universe.agent_names(), parts)
    } else {
        Ok(())
    }
}
