//! The text of a state.

ghost use Rattle.std.specs.Prelude.{◌≡◌, ◌<◌, ◌++◌, IfOk, IsTrue, OnOk, length, map, slice_index_or};
ghost use Rattle.std.specs.Char.{is_ascii};
ghost use Rattle.std.specs.List.{flat_map, list_all};
ghost use Rattle.ep_base.specs.Texts.{line, lines};
ghost use Rattle.ep_theory.specs.Kripke.{links_of, successors};
ghost use Rattle.ep_logic.specs.Numbers.{table};
ghost use Rattle.ep_ground.specs.StateText as spec;

use crate::task::Task;
use ep_base::{OutOfMemory, Text, TextBuilder};
use ep_kripke::State;
use ep_logic::{AgentId, AtomId, WorldId};
use std::alloc::Global;

fn push_digits(text: &mut TextBuilder, state: &State, world: WorldId) -> Result<(), OutOfMemory>
    requires { world.n < state.now.worlds }
    ensures { OnOk result (text.new ≡ text.old ++ spec.digits state.now world.n) }
{
    for atom in 0..state.atoms() {
        text.push(match state.holds_atom(world, AtomId { n: atom }) {
            true => "1",
            false => "0",
        })?;
    }
    Ok(())
}

fn push_bits(text: &mut TextBuilder, state: &State, world: WorldId) -> Result<(), OutOfMemory>
    requires { world.n < state.now.worlds }
    ensures { OnOk result (text.new ≡ text.old ++ spec.bits state.now world.n) }
{
    match state.atoms() {
        0 => text.push("-"),
        _ => push_digits(text, state, world),
    }
}

fn designation(state: &State, world: WorldId) -> &'static str
    ensures value { result.now ≡ spec.designation state.now world.n }
    ensures ascii { IsTrue (list_all is_ascii result.now) }
{
    match state.is_designated(world) {
        true => " designated",
        false => "",
    }
}

fn push_atom_lines(text: &mut TextBuilder, atoms: &[Text]) -> Result<(), OutOfMemory>
    ensures { OnOk result (text.new ≡ text.old ++ lines (map spec.atom_line atoms.now)) }
{
    for atom in atoms {
        text.push("atom ")?;
        text.push_text(atom)?;
        text.push("\n")?;
    }
    Ok(())
}

fn push_world_line(text: &mut TextBuilder, state: &State, world: WorldId) -> Result<(), OutOfMemory>
    requires { world.n < state.now.worlds }
    ensures { OnOk result (text.new ≡ text.old ++ line (spec.world_line state.now world.n)) }
{
    text.push("world ")?;
    text.push_number(world.n)?;
    text.push(" ")?;
    push_bits(text, state, world)?;
    text.push(designation(state, world))?;
    text.push("\n")
}

fn push_world_lines(text: &mut TextBuilder, state: &State) -> Result<(), OutOfMemory>
    ensures { OnOk result (text.new ≡ text.old ++ lines (table (spec.world_line state.now) state.now.worlds)) }
{
    for world in 0..state.worlds() {
        push_world_line(text, state, WorldId { n: world })?;
    }
    Ok(())
}

fn push_numbers(text: &mut TextBuilder, numbers: &[u32]) -> Result<(), OutOfMemory>
    ensures { OnOk result (text.new ≡ text.old ++ flat_map spec.next_number numbers.now) }
{
    for number in numbers {
        text.push(" ")?;
        text.push_number(*number)?;
    }
    Ok(())
}

fn push_link_line(
    text: &mut TextBuilder,
    name: &Text,
    world: u32,
    targets: &[u32],
) -> Result<(), OutOfMemory>
    ensures { OnOk result (text.new ≡ text.old ++ line (spec.targets_line name.now world targets.now)) }
{
    text.push("links ")?;
    text.push_text(name)?;
    text.push(" ")?;
    text.push_number(world)?;
    text.push(":")?;
    push_numbers(text, targets)?;
    text.push("\n")
}

fn push_agent_lines(
    alloc: Global,
    text: &mut TextBuilder,
    state: &State,
    agent: AgentId,
    name: &Text,
) -> Result<(), OutOfMemory>
    requires agent { agent.n < state.now.agents }
    ensures { OnOk result (text.new ≡ text.old ++ lines (table (spec.link_line state.now agent.n name.now) state.now.worlds)) }
{
    let mut targets = Vec::new(alloc);
    for world in 0..state.worlds() {
        state.read_targets(agent, WorldId { n: world }, &mut targets)?;
        push_link_line(text, name, world, &targets)?;
    }
    Ok(())
}

fn push_link_lines(
    alloc: Global,
    text: &mut TextBuilder,
    state: &State,
    agents: &[Text],
) -> Result<(), OutOfMemory>
    requires agents { length agents.now ≡ state.now.agents }
    ensures { OnOk result (text.new ≡ text.old ++ lines (flat_map (spec.agent_lines state.now agents.now) (table (λ a. a) state.now.agents))) }
{
    for agent in 0..state.agents() {
        push_agent_lines(
            alloc,
            text,
            state,
            AgentId { n: agent },
            &agents[agent as usize],
        )?;
    }
    Ok(())
}

/// The text of a state of a ground task, one line for each world count, atom, world, and agent's links from a world.
pub fn print_state(alloc: Global, task: &Task, state: &State) -> Result<Text, OutOfMemory>
    requires agents { state.now.agents ≡ length task.now.agents }
    requires atoms { state.now.atoms ≡ length task.now.atoms }
    ensures { IfOk result (λ text. text ≡ spec.state_text task.now state.now) }
{
    let mut text = TextBuilder::new(alloc);
    text.push("worlds ")?;
    text.push_number(state.worlds())?;
    text.push("\n")?;
    push_atom_lines(&mut text, task.atom_names())?;
    push_world_lines(&mut text, state)?;
    push_link_lines(alloc, &mut text, state, task.agent_names())?;
    Ok(text.finish())
}
