//! The reader of plan files.

ghost use Rattle.std.specs.Prelude.{◌≡◌, ℕ, ◌<◌, ◌≤◌, ◌⊎◌, List, All, IfErr, IfOk, OnOk, Ok, Err, length};
ghost use Rattle.ep_base.specs.Refusals.{OrWant};
ghost use Rattle.ep_lex.specs.Tokens.{line_at};
ghost use Rattle.ep_lex.specs.declared.limits.TheConstants.{MOST_BYTES, MOST_TOKENS};
ghost use Rattle.ep_tree.specs.Grammar.{plans};
ghost use Rattle.ep_reader.specs.Texts.{IsTextOf};
ghost use Rattle.ep_logic.specs.declared.ids.ActionId.{ActionId};
ghost use Rattle.ep_plan_text.specs.Calls.{NameActions, name_of};
ghost use Rattle.ep_plan_text.specs.PlanFiles.{IsFault, IsFileFault, IsOfTask, IsPlan, IsPlanOf, IsTreeFault, IsUnknownAt};
ghost use Rattle.ep_plan_text.specs.declared.read.PlanError.{PlanError};
ghost use Rattle.ep_plan_text.specs.declared.read.PlanError.TheVariants.{OutOfMemory, UnknownAction};
ghost use Rattle.ep_name.specs.Names.{mark_before};

use crate::costs::sum_costs;
use ep_ground::{Plan, Task};
use ep_lex::TokenList;
use ep_logic::{List, OutOfMemory as NoMemory};
use ep_reader::{ParsedText, TextError};
use ep_syntax::read_plan_text;
use ep_tree::{CallTree, PlanTree};
use std::alloc::Global;
use std::fmt;

/// Why bytes are no plan of a task.
#[derive(Clone, Copy, Debug, PartialEq, Eq)]
pub enum PlanError {
    /// `at` is the number of bytes before the first that can stand in no token, blank or comment.
    Stray { at: u32 },
    /// There are more tokens than a list may hold.
    TooManyTokens,
    /// No plan file goes on with this token, or ends where it is the number of tokens; `line` is its line.
    Syntax { token: u32, line: u32 },
    /// The plan is one of a task with another name.
    OtherTask,
    /// The line of the name of the first call that names no ground action.
    UnknownAction { line: u32 },
    /// The plan states another number of calls than it lists.
    WrongCount { stated: u32, listed: u32 },
    /// The plan states another cost than the sum of its actions' costs.
    WrongCost { stated: u32, summed: u32 },
    OutOfMemory,
}

impl fmt::Display for PlanError {
    fn fmt<W: fmt::Write>(&self, f: &mut fmt::Formatter<W>) -> fmt::Result {
        match self {
            PlanError::Stray { at } => write!(f, "stray byte at {at}"),
            PlanError::TooManyTokens => write!(f, "too many tokens"),
            PlanError::Syntax { token, line } => {
                write!(f, "syntax at token {token}, line {line}")
            }
            PlanError::OtherTask => write!(f, "other task"),
            PlanError::UnknownAction { line } => write!(f, "unknown action at line {line}"),
            PlanError::WrongCount { stated, listed } => {
                write!(f, "{stated} actions are stated and {listed} listed")
            }
            PlanError::WrongCost { stated, summed } => {
                write!(
                    f,
                    "the cost {stated} is stated and the actions cost {summed}"
                )
            }
            PlanError::OutOfMemory => write!(f, "out of memory"),
        }
    }
}

impl std::error::Error for PlanError {}

impl From<NoMemory> for PlanError {
    ghost use Rattle.std.specs.Prelude.{◌≡◌};
    ghost use Rattle.ep_plan_text.specs.declared.read.PlanError.TheVariants.{OutOfMemory};

    ghost from_gives = { λ _ e. e ≡ OutOfMemory };

    fn from(_error: NoMemory) -> PlanError {
        PlanError::OutOfMemory
    }
}

/// The tokens and the tree of a plan file.
fn read_file(alloc: Global, bytes: &[u8]) -> Result<ParsedText<PlanTree>, PlanError>
    requires { length bytes.now ≤ MOST_BYTES }
    ensures file { IfOk result (λ file. IsTextOf plans bytes.now file.tokens file.tree) }
    ensures fault { IfErr result (OrWant OutOfMemory (IsFileFault bytes.now)) }
{
    match read_plan_text(alloc, bytes) {
        Ok(file) => Ok(file),
        Err(TextError::Stray { at }) => Err(PlanError::Stray { at }),
        Err(TextError::TooManyTokens) => Err(PlanError::TooManyTokens),
        Err(TextError::Syntax { token, line }) => Err(PlanError::Syntax { token, line }),
        Err(TextError::TooDeep { .. }) => unreachable!(),
        Err(TextError::OutOfMemory) => Err(PlanError::OutOfMemory),
    }
}

fn mark_before(place: usize) -> u8
    ensures { result ≡ mark_before place }
{
    match place {
        0 => b'(',
        _ => b',',
    }
}

/// The printed name that a call writes.
fn name_of(alloc: Global, call: &CallTree) -> Result<Vec<u8>, NoMemory>
    ensures { IfOk result (λ name. name.items ≡ name_of call.now) }
{
    let mut name = Vec::from_slice(alloc, call.name.text.as_slice())?;
    let objects = call.args.as_slice();
    for (place, object) in objects.iter().enumerate() {
        name.push(mark_before(place))?;
        name.extend_from_slice(object.text.as_slice())?;
    }
    if !objects.is_empty() {
        name.push(b')')?;
    }
    Ok(name)
}

/// The actions that the calls name.
fn find_actions(
    alloc: Global,
    task: &Task,
    tokens: &TokenList,
    calls: &[CallTree],
) -> Result<Plan, PlanError>
    requires { All (λ call. call.name.token < length tokens.now.tokens) calls.now }
    ensures named { IfOk result (NameActions task.now calls.now) }
    ensures only { IfOk result (λ plan. (other : List ActionId) → NameActions task.now calls.now other → other ≡ plan) }
    ensures unknown { IfErr result (OrWant OutOfMemory
        (λ e. (line : ℕ) × (e ≡ UnknownAction line) × IsUnknownAt task.now (line_at tokens.now) calls.now line)) }
{
    let mut plan = List::new(alloc);
    for call in calls {
        let name = name_of(alloc, call)?;
        let Some(action) = task.action_by_name(name.as_slice()) else {
            return Err(PlanError::UnknownAction {
                line: tokens.line(call.name.token),
            });
        };
        plan.push(action)?;
    }
    Ok(plan)
}

/// Compares the stated number of calls and the stated cost with the plan's.
fn check_numbers(task: &Task, tree: &PlanTree, plan: &Plan) -> Result<(), PlanError>
    requires few { length tree.now.calls ≤ MOST_TOKENS }
    requires task { IsOfTask task.now tree.now }
    requires named { NameActions task.now tree.now.calls plan.now }
    requires only { (other : List ActionId) → NameActions task.now tree.now.calls other → other ≡ plan.now }
    ensures plan { OnOk result (IsPlanOf task.now tree.now plan.now) }
    ensures fault { (line_of_token : ℕ → ℕ) → IfErr result (IsTreeFault task.now line_of_token tree.now) }
{
    let listed = tree.calls.as_slice().len() as u32;
    if tree.count != listed {
        return Err(PlanError::WrongCount {
            stated: tree.count,
            listed,
        });
    }
    let Some(stated) = tree.cost else {
        return Ok(());
    };
    let summed = sum_costs(task, plan);
    if stated != summed {
        return Err(PlanError::WrongCost { stated, summed });
    }
    Ok(())
}

/// The plan of a file that is read.
fn find_plan(alloc: Global, task: &Task, file: &ParsedText<PlanTree>) -> Result<Plan, PlanError>
    requires places { All (λ call. call.name.token < length file.now.tokens.tokens) file.now.tree.calls }
    requires few { length file.now.tree.calls ≤ MOST_TOKENS }
    ensures plan { IfOk result (IsPlanOf task.now file.now.tree) }
    ensures only { IfOk result (λ plan. (other : List ActionId) → NameActions task.now file.now.tree.calls other → other ≡ plan) }
    ensures fault { IfErr result (OrWant OutOfMemory (IsTreeFault task.now (line_at file.now.tokens) file.now.tree)) }
{
    let tree = &file.tree;
    if tree.task.text.as_slice() != task.name().as_slice() {
        return Err(PlanError::OtherTask);
    }
    let plan = find_actions(alloc, task, &file.tokens, tree.calls.as_slice())?;
    check_numbers(task, tree, &plan)?;
    Ok(plan)
}

/// The plan that bytes are as a plan file of a task, or the first of its faults in the order of `PlanError`. Comments
/// and the layout mean nothing but for the lines that are told.
pub fn read_plan(alloc: Global, task: &Task, bytes: &[u8]) -> Result<Plan, PlanError>
    requires { length bytes.now ≤ MOST_BYTES }
    ensures plan { IfOk result (IsPlan task.now bytes.now) }
    ensures fault { IfErr result (OrWant OutOfMemory (IsFault task.now bytes.now)) }

    // Each of these is told, unless memory is wanting.
    ensures plan_is_told { (plan : List ActionId) → IsPlan task.now bytes.now plan →
        (result ≡ Ok plan) ⊎ (result ≡ Err OutOfMemory) }
    ensures fault_is_told { (e : PlanError) → IsFault task.now bytes.now e → (result ≡ Err e) ⊎ (result ≡ Err OutOfMemory) }

    ensures few { IfOk result (λ plan. length plan ≤ MOST_TOKENS) }
    ensures of_task { IfOk result (All (λ a. a.n < length task.now.actions)) }
{
    let file = read_file(alloc, bytes)?;
    find_plan(alloc, task, &file)
}
