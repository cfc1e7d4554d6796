//! From words to a command.

ghost use Rattle.std.specs.Prelude.{◌≡◌, ◌↔◌, ℕ, ◌∷◌, IsTrue, IsFalse, IfOk, IfErr, MatchOption, map, string_bytes};
ghost use Rattle.ep_words.specs.Words.{IsFileWord, IsPlanWord, IsPlanned, IsTask, IsTaskAndPlan, IsTaskAndPlans, IsTaskPlanAndFormula, AreArguments, IsCommand};
ghost use Rattle.ep_words.specs.declared.command.Command.{Command};
ghost use Rattle.ep_words.specs.declared.command.Command.TheVariants.{Trial};

use crate::command::{Command, Usage};
use crate::number::read_number;
use crate::options::{Options, read_options};

/// Whether a word can name a file: it is not empty, and does not begin with `-`.
pub fn is_file_word(word: &str) -> bool
    ensures { IsTrue result ↔ IsFileWord word.now }
{
    match word.as_bytes() {
        [] => false,
        [first, ..] => *first != b'-',
    }
}

fn is_plan(word: &str) -> bool
    ensures { IsTrue result ↔ IsPlanWord word.now }
{
    word == "-" || is_file_word(word)
}

fn is_task(words: &[String]) -> bool
    ensures { IsTrue result ↔ IsTask (map string_bytes words.now) }
{
    match words {
        [file] => is_file_word(file.as_str()),
        _ => false,
    }
}

fn is_task_and_plan(words: &[String]) -> bool
    ensures { IsTrue result ↔ IsTaskAndPlan (map string_bytes words.now) }
{
    match words {
        [file, plan] => is_file_word(file.as_str()) && is_plan(plan.as_str()),
        _ => false,
    }
}

fn is_task_and_plans(words: &[String]) -> bool
    ensures { IsTrue result ↔ IsTaskAndPlans (map string_bytes words.now) }
{
    match words {
        [file, one, two] => {
            is_file_word(file.as_str()) && is_plan(one.as_str()) && is_plan(two.as_str())
        }
        _ => false,
    }
}

fn is_task_plan_and_formula(words: &[String]) -> bool
    ensures { IsTrue result ↔ IsTaskPlanAndFormula (map string_bytes words.now) }
{
    match words {
        [file, plan, _] => is_file_word(file.as_str()) && is_plan(plan.as_str()),
        _ => false,
    }
}

fn read_children(words: &[String]) -> Option<u32>
    ensures { MatchOption result
        ((n : ℕ) → AreArguments (Trial n) (map string_bytes words.now) → ⊥)
        (λ n. AreArguments (Trial n) (map string_bytes words.now)) }
{
    match words {
        [children] => read_number(children.as_str(), 1, 8),
        _ => None,
    }
}

fn read_plan(words: &[String]) -> Option<Command>
    ensures { MatchOption result
        ((c : Command) → IsPlanned (map string_bytes words.now) c → ⊥)
        (IsPlanned (map string_bytes words.now)) }
{
    let [file, options @ ..] = words else {
        return None;
    };
    if !is_file_word(file.as_str()) {
        return None;
    }
    let all = read_options(options, Options::none())?;
    Some(all.to_command())
}

fn only_if(holds: bool, command: Command) -> Option<Command>
    ensures { MatchOption result (IsFalse holds) (λ c. (c ≡ command) × IsTrue holds) }
{
    if holds { Some(command) } else { None }
}

// The command with this verb and these words behind it.
fn read_command(verb: &str, words: &[String]) -> Option<Command>
    ensures { MatchOption result
        ((c : Command) → IsCommand (verb.now ∷ map string_bytes words.now) c → ⊥)
        (IsCommand (verb.now ∷ map string_bytes words.now)) }
{
    if verb == "plan" {
        read_plan(words)
    } else if verb == "validate" {
        only_if(is_task_and_plan(words), Command::Validate)
    } else if verb == "eval" {
        only_if(is_task_plan_and_formula(words), Command::Eval)
    } else if verb == "state" {
        only_if(is_task_and_plan(words), Command::State)
    } else if verb == "contract" {
        only_if(is_task_and_plan(words), Command::Contract)
    } else if verb == "same" {
        only_if(is_task_and_plans(words), Command::Same)
    } else if verb == "check" {
        only_if(is_task(words), Command::Check)
    } else if verb == "trial" {
        Some(Command::Trial {
            children: read_children(words)?,
        })
    } else if verb == "apart" {
        only_if(is_task_and_plans(words), Command::Apart)
    } else {
        None
    }
}

/// The command of the words after the program's name. It takes no memory.
pub fn read_words(words: &[String]) -> Result<Command, Usage>
    ensures command { IfOk result (IsCommand (map string_bytes words.now)) }
    ensures only { IfOk result (λ c. (d : Command) → IsCommand (map string_bytes words.now) d → d ≡ c) }
    ensures usage { IfErr result (λ _. (c : Command) → IsCommand (map string_bytes words.now) c → ⊥) }
{
    let [verb, rest @ ..] = words else {
        return Err(Usage {});
    };
    read_command(verb.as_str(), rest).ok_or(Usage {})
}
