// The disjoint union of two states.

ghost use Rattle.std.specs.Prelude.{◌≡◌, ◌+◌, ◌*◌, ◌<◌, ◌≤◌, ◌^◌, ◌++◌, Ok, All, length, map, IfErr, IfOk, OnOk};
ghost use Rattle.ep_theory.specs.Kripke.{IsState, truth_of};
ghost use Rattle.ep_kripke.specs.Parts.{link};
ghost use Rattle.ep_kripke.specs.States.{IsBounded};
ghost use Rattle.ep_apart.specs.declared.limits.TheConstants.{MOST_TOLD};
ghost use Rattle.ep_apart.specs.Union.{AreBoth, IsPart, agent_links, all_links, moved_worlds};

use ep_kripke::{Link, State, StateError, StateParts};
use ep_logic::{AgentId, AtomId, Bits, List, OutOfMemory, WorldId};
use std::alloc::Global;

// The truth list of a world.
fn truth_at(alloc: Global, s: &State, w: WorldId) -> Result<Bits, OutOfMemory>
    requires { w.n < s.now.worlds }
    ensures { IfOk result (λ row. row ≡ truth_of s.now w.n) }
{
    let mut row = Bits::zeros(alloc, s.atoms())?;
    for p in 0..s.atoms() {
        row.set(p, s.holds_atom(w, AtomId { n: p }));
    }
    Ok(row)
}

fn add_truth(alloc: Global, s: &State, rows: &mut List<Bits>) -> Result<(), OutOfMemory>
    ensures rows { OnOk result (rows.new ≡ rows.old ++ s.now.truth) }
    ensures valid { IsState s.now }
    ensures bounded { IsBounded s.now }
{
    for w in 0..s.worlds() {
        rows.push(truth_at(alloc, s, WorldId { n: w })?)?;
    }
    Ok(())
}

// Adds a link to each of these worlds, whose numbers become greater by the shift.
fn add_targets(
    links: &mut List<Link>,
    agent: AgentId,
    from: WorldId,
    shift: u32,
    targets: &[u32],
) -> Result<(), OutOfMemory>
    requires { All (λ v. shift + v < 2 ^ 32) targets.now }
    ensures { OnOk result (links.new ≡ links.old ++ map (λ v. link agent.n from.n (shift + v)) targets.now) }
{
    for v in targets {
        let to = WorldId { n: shift + *v };
        links.push(Link { agent, from, to })?;
    }
    Ok(())
}

fn add_agent(
    alloc: Global,
    s: &State,
    shift: u32,
    agent: AgentId,
    links: &mut List<Link>,
) -> Result<(), OutOfMemory>
    requires agent { agent.n < s.now.agents }
    requires room { shift + s.now.worlds ≤ 2 ^ 32 }
    ensures { OnOk result (links.new ≡ links.old ++ agent_links s.now shift agent.n s.now.worlds) }
{
    let mut targets = Vec::new(alloc);
    for w in 0..s.worlds() {
        s.read_targets(agent, WorldId { n: w }, &mut targets)?;
        add_targets(links, agent, WorldId { n: shift + w }, shift, &targets)?;
    }
    Ok(())
}

fn add_links(
    alloc: Global,
    s: &State,
    shift: u32,
    links: &mut List<Link>,
) -> Result<(), OutOfMemory>
    requires { shift + s.now.worlds ≤ 2 ^ 32 }
    ensures { OnOk result (links.new ≡ links.old ++ all_links s.now shift s.now.agents) }
{
    for a in 0..s.agents() {
        add_agent(alloc, s, shift, AgentId { n: a }, links)?;
    }
    Ok(())
}

fn add_worlds(worlds: &[u32], shift: u32, all: &mut List<WorldId>) -> Result<(), OutOfMemory>
    requires { All (λ w. shift + w < 2 ^ 32) worlds.now }
    ensures { OnOk result (all.new ≡ all.old ++ moved_worlds shift worlds.now) }
{
    for w in worlds {
        all.push(WorldId { n: shift + *w })?;
    }
    Ok(())
}

// The parts of both states, where the worlds of the second come behind those of the first.
fn both(alloc: Global, s: &State, t: &State) -> Result<StateParts, OutOfMemory>
    requires first { s.now.worlds ≤ MOST_TOLD }
    requires second { t.now.worlds ≤ MOST_TOLD }
    ensures parts { IfOk result (AreBoth s.now t.now) }
    ensures first { OnOk result (IsState s.now) }
    ensures second { OnOk result (IsState t.now) }
    ensures bounded { OnOk result (IsBounded s.now × IsBounded t.now) }
{
    let mut truth = List::new(alloc);
    add_truth(alloc, s, &mut truth)?;
    add_truth(alloc, t, &mut truth)?;
    let mut links = List::new(alloc);
    add_links(alloc, s, 0, &mut links)?;
    add_links(alloc, t, s.worlds(), &mut links)?;
    let mut designated = List::new(alloc);
    add_worlds(s.designated(), 0, &mut designated)?;
    add_worlds(t.designated(), s.worlds(), &mut designated)?;
    Ok(StateParts {
        agents: s.agents(),
        atoms: s.atoms(),
        truth,
        links,
        designated,
    })
}

// The state, where memory alone can be wanting.
fn made(answer: Result<State, StateError>) -> Result<State, OutOfMemory>
    requires { IfErr answer (λ e. e ≡ StateError.OutOfMemory) }
    ensures { IfOk result (λ state. answer ≡ Ok state) }
{
    match answer {
        Ok(state) => Ok(state),
        Err(StateError::OutOfMemory) => Err(OutOfMemory {}),
        Err(_) => unreachable!(),
    }
}

/// The disjoint union, where the worlds of the second state come behind those of the first.
pub fn union(alloc: Global, s: &State, t: &State) -> Result<State, OutOfMemory>
    requires agents { s.now.agents ≡ t.now.agents }
    requires atoms { s.now.atoms ≡ t.now.atoms }
    requires first { s.now.worlds ≤ MOST_TOLD }
    requires second { t.now.worlds ≤ MOST_TOLD }
    ensures first { IfOk result (λ u. IsPart s.now u 0) }
    ensures second { IfOk result (λ u. IsPart t.now u s.now.worlds) }
    ensures worlds { IfOk result (λ u. u.worlds ≡ s.now.worlds + t.now.worlds) }
    ensures valid { IfOk result IsState }
    ensures valid_first { OnOk result (IsState s.now) }
    ensures valid_second { OnOk result (IsState t.now) }
{
    let parts = both(alloc, s, t)?;
    made(State::build(alloc, parts))
}
