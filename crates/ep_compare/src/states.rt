// Two states compared.
ghost use Rattle.std.specs.Prelude.{◌≡◌, ◌≤◌, IfOk, MatchResult, length};
ghost use Rattle.ep_apart.specs.declared.limits.TheConstants.{MOST_TOLD};
ghost use Rattle.ep_canon.specs.declared.limits.TheConstants.{MOST_CONTRACTED_WORLDS};
ghost use Rattle.ep_compare.specs.Comparing.{Compared, Compares, Contracted, IsComparable, IsSmallContraction, TellsStates, ToldContractions};
ghost use Rattle.ep_reading.specs.Served.{answers};
ghost use Rattle.ep_reading.specs.Steps.{StopsBy, EndsBy, nothing_behind};

use crate::apart_text::print_apart;
use crate::comparison::Comparison;
use ep_answer::{Answer, Stop, Whose};
use ep_apart::{MOST_TOLD, tell_apart};
use ep_base::OutOfMemory;
use ep_canon::{Canon, contract};
use ep_ground::Task;
use ep_kripke::State;
use std::alloc::Global;

/// What is asked of the states.
pub fn compare_states(
    alloc: Global,
    task: &Task,
    first: &State,
    second: &State,
    comparison: Comparison,
) -> Result<Answer, Stop>
    requires first { IsComparable task.now first.now }
    requires second { IsComparable task.now second.now }
    ensures { EndsBy (Compared comparison task.now first.now second.now) result }
{
    match comparison {
        Comparison::Same => Ok(ask_same(alloc, first, second)?),
        Comparison::Apart => tell_states(alloc, task, first, second),
    }
}

// Whether the states are bisimilar.
fn ask_same(alloc: Global, first: &State, second: &State) -> Result<Answer, OutOfMemory>
    requires first { first.now.worlds ≤ MOST_CONTRACTED_WORLDS }
    requires second { second.now.worlds ≤ MOST_CONTRACTED_WORLDS }
    ensures { IfOk result (λ answer. Compares first.now second.now (answers answer)) }
{
    if ep_canon::same(alloc, first, second)? {
        Ok(Answer::Bisimilar)
    } else {
        Ok(Answer::Different)
    }
}

// A formula that tells the states apart, by their contractions.
fn tell_states(alloc: Global, task: &Task, first: &State, second: &State) -> Result<Answer, Stop>
    requires first { IsComparable task.now first.now }
    requires second { IsComparable task.now second.now }
    ensures { EndsBy (TellsStates task.now first.now second.now) result }
{
    let one = contract_small(alloc, Whose::First, first)?;
    let two = contract_small(alloc, Whose::Second, second)?;
    let answer = tell_contractions(alloc, task, one.state(), two.state())?;
    Ok(answer)
}

// The contraction of what a plan leaves, if it has few enough worlds.
fn contract_small(alloc: Global, whose: Whose, state: &State) -> Result<Canon, Stop>
    requires { state.now.worlds ≤ MOST_CONTRACTED_WORLDS }
    ensures { MatchResult result (IsSmallContraction state.now) (StopsBy (Contracted whose state.now nothing_behind)) }
{
    let canon = contract(alloc, state)?;
    let worlds = canon.state().worlds();
    if worlds > MOST_TOLD {
        return Err(Stop::Told(Answer::WideContraction { whose, worlds }));
    }
    Ok(canon)
}

// A formula that tells two contractions apart.
fn tell_contractions(
    alloc: Global,
    task: &Task,
    one: &State,
    two: &State,
) -> Result<Answer, OutOfMemory>
    requires first { one.now.worlds ≤ MOST_TOLD }
    requires second { two.now.worlds ≤ MOST_TOLD }
    requires agents { one.now.agents ≡ length task.now.agents }
    requires atoms { one.now.atoms ≡ length task.now.atoms }
    requires same_agents { one.now.agents ≡ two.now.agents }
    requires same_atoms { one.now.atoms ≡ two.now.atoms }
    ensures { IfOk result (λ answer. ToldContractions task.now one.now two.now (answers answer)) }
{
    match tell_apart(alloc, one, two)? {
        None => Ok(Answer::Bisimilar),
        Some(apart) => Ok(Answer::ToldApart(print_apart(alloc, task, &apart)?)),
    }
}
