//! The texts of plans.

ghost use Rattle.std.specs.Prelude.{◌≡◌, ◌<◌, ◌≤◌, ◌++◌, All, IfOk, IsTrue, OnOk, length, map};
ghost use Rattle.std.specs.Fmt.{decimal};
ghost use Rattle.std.specs.Char.{is_ascii};
ghost use Rattle.std.specs.List.{list_all};
ghost use Rattle.ep_plan_text.specs.PlanText as spec;
ghost use Rattle.ep_base.specs.Texts.{line, lines};
ghost use Rattle.ep_bounds.specs.declared.bounds.Measure.TheVariants.{Cost};
ghost use Rattle.ep_bounds.specs.declared.bounds.TheConstants.{MOST_PLAN_ACTIONS};
ghost use Rattle.ep_theory.specs.Plans.{weight};
ghost use Rattle.ep_plan_text.specs.PlanText.{cost_lines, mark_lines, plan_text, version_line};

use crate::costs::sum_costs;
use ep_base::{OutOfMemory, Text, TextBuilder};
use ep_bounds::Measure;
use ep_ground::{Plan, Task};
use std::alloc::Global;

/// What the text of a plan tells of it.
#[derive(Clone, Copy, Debug, PartialEq, Eq)]
pub enum Mark {
    Plain,
    /// No plan measures less.
    Least,
    /// A plan was found.
    Found,
}

/// Adds the line of a word and what stands behind it.
fn push_line(text: &mut TextBuilder, word: &str, rest: &[u8]) -> Result<(), OutOfMemory>
    requires word { IsTrue (list_all is_ascii word.now) }
    requires rest { All (λ b. b < 128) rest.now }
    ensures { OnOk result (text.new ≡ text.old ++ line (word.now ++ rest.now)) }
{
    text.push(word)?;
    text.push_bytes(rest)?;
    text.push("\n")
}

fn push_version(text: &mut TextBuilder, measure: Measure) -> Result<(), OutOfMemory>
    ensures { OnOk result (text.new ≡ text.old ++ line (version_line measure)) }
{
    match measure {
        Measure::Length => push_line(text, "plan 1", &[]),
        Measure::Cost => push_line(text, "plan 2", &[]),
    }
}

fn push_mark(text: &mut TextBuilder, measure: Measure, mark: Mark) -> Result<(), OutOfMemory>
    ensures { OnOk result (text.new ≡ text.old ++ lines (mark_lines measure mark)) }
{
    match (mark, measure) {
        (Mark::Plain, _) => Ok(()),
        (Mark::Least, Measure::Length) => push_line(text, "# shortest", &[]),
        (Mark::Least, Measure::Cost) => push_line(text, "# cheapest", &[]),
        (Mark::Found, _) => push_line(text, "# found", &[]),
    }
}

/// Adds the line of a word and a number in decimal.
fn push_number(
    alloc: Global,
    text: &mut TextBuilder,
    word: &str,
    number: u32,
) -> Result<(), OutOfMemory>
    requires { IsTrue (list_all is_ascii word.now) }
    ensures { OnOk result (text.new ≡ text.old ++ line (word.now ++ decimal number)) }
{
    let digits = format!(in alloc; "{number}")?;
    push_line(text, word, digits.as_bytes())
}

fn push_cost(
    alloc: Global,
    text: &mut TextBuilder,
    task: &Task,
    plan: &Plan,
    measure: Measure,
) -> Result<(), OutOfMemory>
    requires actions { All (λ a. a.n < length task.now.actions) plan.now }
    requires few { length plan.now ≤ MOST_PLAN_ACTIONS }
    ensures { OnOk result (text.new ≡ text.old ++ lines (cost_lines measure (weight task.now.problem Cost plan.now))) }
{
    match measure {
        Measure::Length => Ok(()),
        Measure::Cost => push_number(alloc, text, "cost ", sum_costs(task, plan)),
    }
}

fn push_names(text: &mut TextBuilder, task: &Task, plan: &Plan) -> Result<(), OutOfMemory>
    requires { All (λ a. a.n < length task.now.actions) plan.now }
    ensures { OnOk result (text.new ≡ text.old ++ lines (map (spec.action_name task.now) plan.now)) }
{
    for action in plan.as_slice() {
        push_line(text, "", task.action_name(*action).as_slice())?;
    }
    Ok(())
}

/// The text of a plan, as a plan file: the version, the task, the mark as a comment, under `Measure::Cost` the plan's cost,
/// the number of actions, their printed names and `end`, a line each. The version is 1 under `Measure::Length` and 2 under
/// `Measure::Cost`. Each action is the task's.
pub fn print_plan(
    alloc: Global,
    task: &Task,
    plan: &Plan,
    mark: Mark,
    measure: Measure,
) -> Result<Text, OutOfMemory>
    requires actions { All (λ a. a.n < length task.now.actions) plan.now }
    requires few { length plan.now ≤ MOST_PLAN_ACTIONS }
    ensures text { IfOk result (λ text. text ≡ plan_text task.now measure mark plan.now) }
{
    let mut text = TextBuilder::new(alloc);
    push_version(&mut text, measure)?;
    push_line(&mut text, "task ", task.name().as_slice())?;
    push_mark(&mut text, measure, mark)?;
    push_cost(alloc, &mut text, task, plan, measure)?;
    push_number(alloc, &mut text, "actions ", plan.as_slice().len() as u32)?;
    push_names(&mut text, task, plan)?;
    push_line(&mut text, "end", &[])?;
    Ok(text.finish())
}

/// The printed names of the actions of a plan, a line each. Each action is the task's.
pub fn print_actions(alloc: Global, task: &Task, plan: &Plan) -> Result<Text, OutOfMemory>
    requires { All (λ a. a.n < length task.now.actions) plan.now }
    ensures { IfOk result (λ text. text ≡ lines (map (spec.action_name task.now) plan.now)) }
{
    let mut text = TextBuilder::new(alloc);
    push_names(&mut text, task, plan)?;
    Ok(text.finish())
}
