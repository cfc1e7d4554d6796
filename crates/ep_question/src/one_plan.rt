// The commands with a task and one plan.
ghost use Rattle.std.specs.Prelude.{◌≡◌, ◌<◌, ◌≤◌, ◌∷◌, All, count_by, length, string_bytes, IfOk};
ghost use Rattle.ep_canon.specs.declared.limits.TheConstants.{MOST_CONTRACTED_WORLDS};
ghost use Rattle.hex.specs.Hex.{encode_lower};
ghost use Rattle.ep_lex.specs.declared.limits.TheConstants.{MOST_TOKENS};
ghost use Rattle.ep_bytes.specs.Bytes.{bytes_of};
ghost use Rattle.ep_plan.specs.Runs.{AreOf};
ghost use Rattle.ep_plan.specs.Verdicts.{IsVerdict};
ghost use Rattle.ep_theory.specs.Fits.{Fits};
ghost use Rattle.ep_logic.specs.Rows.{value_at};
ghost use Rattle.ep_question.specs.Questions.{PlanWork};
ghost use Rattle.ep_reading.specs.PlanFile.{PlanFile};
ghost use Rattle.ep_reading.specs.PlanFile.{AreItsActions};
ghost use Rattle.ep_question.specs.Questions.{Asks, Contractions, Evals, Evaluates, Shows, ShowsContraction, States, Validates};
ghost use Rattle.ep_reading.specs.Fetches.{Fetches, plan_files};
ghost use Rattle.ep_reading.specs.Run.{GoesOn};
ghost use Rattle.ep_reading.specs.Served.{answers};
ghost use Rattle.ep_reading.specs.Steps.{OnlyPlan, Serves, EndsBy};
ghost use Rattle.ep_question.specs.Questions.{TaskAndPlan};
ghost use Rattle.ep_answer.specs.declared.cause.Subject.TheVariants.{Plan as OfPlan};

use crate::question::Question;
use ep_answer::{Answer, Stop, Subject, Whose};
use ep_canon::{Canon, contract};
use ep_ground::{Plan, Task, print_state};
use ep_io::Library;
use ep_kripke::State;
use ep_logic::{Bits, Formula, OutOfMemory};
use ep_reading::{judge, read_formula_word, read_plan_file, read_task_file, run_to_end};
use ep_truth::label;
use std::alloc::Global;

// ---- eval

// At how many of the places the value is true.
fn count_true_places(row: &Bits, places: &[u32]) -> u64
    requires { All (λ w. w < length row.now) places.now }
    ensures { result ≡ count_by (value_at row.now) places.now }
{
    let mut count = 0;
    for place in places {
        if row.get(*place) {
            count += 1;
        }
    }
    count
}

fn evaluate(alloc: Global, state: &State, formula: &Formula) -> Result<Answer, OutOfMemory>
    requires { Fits state.now formula.now }
    ensures { IfOk result (λ answer. Evaluates formula.now state.now (answers answer)) }
{
    let row = label(alloc, state, formula)?;
    let designated = state.designated();
    Ok(Answer::TrueAt {
        count: count_true_places(&row, designated),
        designated: designated.len() as u64,
    })
}

fn answer_eval(alloc: Global, task: &Task, plan: &Plan, word: &str) -> Result<Answer, Stop>
    requires length { length plan.now ≤ MOST_TOKENS }
    requires actions { AreItsActions task.now plan.now }
    ensures { EndsBy (Evals word.now task.now plan.now) result }
{
    let formula = read_formula_word(alloc, task, word)?;
    let state = run_to_end(alloc, task, Whose::Only, plan)?;
    let answer = evaluate(alloc, &state, &formula)?;
    Ok(answer)
}

// ---- state

fn answer_state(alloc: Global, task: &Task, plan: &Plan) -> Result<Answer, Stop>
    requires length { length plan.now ≤ MOST_TOKENS }
    requires actions { AreItsActions task.now plan.now }
    ensures { EndsBy (States task.now plan.now) result }
{
    let state = run_to_end(alloc, task, Whose::Only, plan)?;
    let text = print_state(alloc, task, &state)?;
    Ok(Answer::Shown(text))
}

// ---- contract

// Bytes in hexadecimal.
fn print_hexadecimal(alloc: Global, bytes: &[u8]) -> Result<String, OutOfMemory>
    ensures { IfOk result (λ text. string_bytes text ≡ encode_lower bytes.now) }
{
    Ok(hex::encode(alloc, bytes)?)
}

// The canonical bytes in hexadecimal.
fn print_bytes(alloc: Global, canon: &Canon) -> Result<String, OutOfMemory>
    ensures { IfOk result (λ text. string_bytes text ≡ encode_lower (bytes_of canon.now)) }
{
    let bytes = canon.bytes(alloc)?;
    print_hexadecimal(alloc, bytes.as_slice())
}

fn print_contraction(alloc: Global, task: &Task, state: &State) -> Result<Answer, OutOfMemory>
    requires worlds { state.now.worlds ≤ MOST_CONTRACTED_WORLDS }
    requires agents { state.now.agents ≡ length task.now.agents }
    requires atoms { state.now.atoms ≡ length task.now.atoms }
    ensures { IfOk result (λ answer. ShowsContraction task.now state.now (answers answer)) }
{
    let canon = contract(alloc, state)?;
    let bytes = print_bytes(alloc, &canon)?;
    let state = print_state(alloc, task, canon.state())?;
    Ok(Answer::Contraction { state, bytes })
}

fn answer_contract(alloc: Global, task: &Task, plan: &Plan) -> Result<Answer, Stop>
    requires length { length plan.now ≤ MOST_TOKENS }
    requires actions { AreItsActions task.now plan.now }
    ensures { EndsBy (Contractions task.now plan.now) result }
{
    let state = run_to_end(alloc, task, Whose::Only, plan)?;
    let answer = print_contraction(alloc, task, &state)?;
    Ok(answer)
}

// ---- all of them

fn answer_on_plan(
    alloc: Global,
    task: &Task,
    plan: &Plan,
    question: Question,
) -> Result<Answer, Stop>
    requires length { length plan.now ≤ MOST_TOKENS }
    requires actions { AreItsActions task.now plan.now }
    ensures { EndsBy (Asks question.entry task.now plan.now) result }
{
    match question {
        Question::Validate => Ok(Answer::Judged(judge(alloc, task, plan)?)),
        Question::Eval(word) => answer_eval(alloc, task, plan, word),
        Question::State => answer_state(alloc, task, plan),
        Question::Contract => answer_contract(alloc, task, plan),
    }
}

// What is asked of the task and the plan of a word.
fn answer_on_task<L: Library>(
    alloc: Global,
    files: &mut L,
    task: &Task,
    word: &str,
    question: Question,
) -> Result<Answer, Stop>
    ensures goes_on { GoesOn (L.library files.old) (L.library files.new) }
    ensures fetches { Fetches (plan_files word.now) (L.library files.old) (L.library files.new) }
    ensures answer { Serves (λ held. PlanFile held OfPlan word.now task.now (Asks question.entry task.now)) (OnlyPlan OfPlan word.now) ⊥ (L.library files.old) (L.library files.new) result }
{
    let plan = read_plan_file(alloc, files, Subject::Plan, task, word)?;
    answer_on_plan(alloc, task, &plan, question)
}

/// What is asked of the task of a file and the plan of a word.
pub fn answer_question<L: Library>(
    alloc: Global,
    files: &mut L,
    file: &str,
    word: &str,
    question: Question,
) -> Result<Answer, Stop>
    ensures goes_on { GoesOn (L.library files.old) (L.library files.new) }
    ensures fetches { Fetches (file.now ∷ plan_files word.now) (L.library files.old) (L.library files.new) }
    ensures answer { Serves (λ held. PlanWork held file.now word.now (Asks question.entry)) (TaskAndPlan file.now word.now) ⊥ (L.library files.old) (L.library files.new) result }
{
    let task = read_task_file(alloc, files, file)?;
    answer_on_task(alloc, files, &task, word, question)
}
