// The reading of texts: tokens, trees, types, and ground tasks.
ghost use Rattle.std.specs.Prelude.{◌≡◌, ◌≤◌, length, MatchOption, MatchResult};
ghost use Rattle.ep_lex.specs.Tokens.{Lexed};
ghost use Rattle.ep_lex.specs.declared.limits.TheConstants.{MOST_BYTES};
ghost use Rattle.ep_reader.specs.Texts.{IsTextOf};
ghost use Rattle.ep_reader.specs.declared.text.TextError.TheVariants as text_fault;
ghost use Rattle.ep_tree.specs.Grammar.{tasks, IsRead};
ghost use Rattle.ep_types.specs.Tasks.{HasNoFault, task_uses};
ghost use Rattle.ep_ground.specs.declared.fault.GroundError.TheVariants as fault;
ghost use Rattle.ep_answer.specs.declared.cause.Subject.TheVariants.{Task as OfTask};
ghost use Rattle.ep_reading.specs.Served.{IsCauseOf, IsTextCause, TellsCause, Parsed, WellTyped, Grounded, TaskRead, place_at};
ghost use Rattle.ep_reading.specs.Steps.{IsGroundOf, IsTaskOf, StopsAtText, StopsBy, nothing_behind};

use ep_answer::{Answer, Cause, Place, Stop, Subject};
use ep_base::Text;
use ep_ground::{GroundError, S5Place, Task, ground};
use ep_lex::TokenList;
use ep_reader::{ParsedText, TextError};
use ep_syntax::read_task_text;
use ep_tree::TaskTree;
use ep_types::{TypeError, Typed};
use std::alloc::Global;

/// A token with its line. Behind the last token stands the end.
pub fn place(tokens: &TokenList, token: u32) -> Place
    ensures { result ≡ place_at tokens.now token }
{
    let line = tokens.line(token.min(tokens.count()));
    Place { token, line }
}

// The cause that tells the fault of a text; there is none for want of memory.
fn text_cause(error: TextError) -> Option<Cause>
    ensures { MatchOption result (error ≡ text_fault.OutOfMemory) (IsTextCause error) }
{
    match error {
        TextError::Stray { at } => Some(Cause::StrayByte { at }),
        TextError::TooManyTokens => Some(Cause::TooManyTokens),
        TextError::Syntax { token, line } => Some(Cause::Syntax(Place { token, line })),
        TextError::TooDeep { token, line } => Some(Cause::TooDeep(Place { token, line })),
        TextError::OutOfMemory => None,
    }
}

/// How the work ends at a text that is not read.
pub fn text_stop(subject: Subject, error: TextError) -> Stop
    ensures { StopsAtText error subject result }
{
    match text_cause(error) {
        Some(cause) => Stop::Told(Answer::Refused(subject, cause)),
        None => Stop::OutOfMemory,
    }
}

fn task_text(alloc: Global, bytes: &[u8]) -> Result<ParsedText<TaskTree>, Stop>
    requires { length bytes.now ≤ MOST_BYTES }
    ensures { MatchResult result (λ text. IsTextOf tasks bytes.now text.tokens text.tree)
        (StopsBy (Parsed tasks OfTask bytes.now (λ _. nothing_behind))) }
{
    match read_task_text(alloc, bytes) {
        Ok(text) => Ok(text),
        Err(error) => Err(text_stop(Subject::Task, error)),
    }
}

fn typed_task(alloc: Global, found: &TokenList, tree: TaskTree) -> Result<Typed, Stop>
    requires { IsRead tree }
    ensures { MatchResult result (λ typed. (typed ≡ tree) × HasNoFault tree)
        (StopsBy (WellTyped OfTask found.now (task_uses tree) (nothing_behind tree))) }
{
    match ep_types::check(alloc, tree) {
        Ok(typed) => Ok(typed),
        Err(TypeError::At { fault, token }) => {
            let cause = Cause::Mistyped(fault, place(found, token));
            Err(Stop::Told(Answer::Refused(Subject::Task, cause)))
        }
        Err(TypeError::OutOfMemory) => Err(Stop::OutOfMemory),
    }
}

// The cause that tells of a relation that is no equivalence.
fn not_s5(place: S5Place, agent: Text) -> Cause
    ensures { (found : Lexed) → IsCauseOf found (fault.NotS5 place agent) result }
{
    match place {
        S5Place::Initial => Cause::NotS5Initial { agent },
        S5Place::Action { name } => Cause::NotS5Action {
            action: name,
            agent,
        },
    }
}

// The cause that tells a ground fault; there is none for want of memory.
fn cause_of(found: &TokenList, error: GroundError) -> Option<Cause>
    ensures { MatchOption result (error ≡ fault.OutOfMemory) (IsCauseOf found.now error) }
{
    match error {
        GroundError::TooManyObjects { count } => Some(Cause::TooManyObjects { count }),
        GroundError::NoAgent => Some(Cause::NoAgent),
        GroundError::TooManyAgents { count } => Some(Cause::TooManyAgents { count }),
        GroundError::TooManyAtoms { count } => Some(Cause::TooManyAtoms { count }),
        GroundError::TooManyActions { count } => Some(Cause::TooManyActions { count }),
        GroundError::TooManyEvents { count, .. } => Some(Cause::TooManyEvents { count }),
        GroundError::TooLargeFormula { token } => Some(Cause::TooLarge(place(found, token))),
        GroundError::TooLargeTask { count } => Some(Cause::TooLargeTask { count }),
        GroundError::AtomTwice { name } => Some(Cause::AtomTwice { name }),
        GroundError::TooManyVaried { count } => Some(Cause::TooManyVaried { count }),
        GroundError::TooManyWorlds { count } => Some(Cause::TooManyWorlds { count }),
        GroundError::NoDesignated => Some(Cause::NoDesignated),
        GroundError::NotS5 { place, agent } => Some(not_s5(place, agent)),
        GroundError::OutOfMemory => None,
    }
}

fn stop_of(found: &TokenList, error: GroundError) -> Stop
    ensures { StopsBy (TellsCause found.now error) result }
{
    match cause_of(found, error) {
        Some(cause) => Stop::Told(Answer::Refused(Subject::Task, cause)),
        None => Stop::OutOfMemory,
    }
}

fn ground_task(alloc: Global, found: &TokenList, typed: Typed) -> Result<Task, Stop>
    ensures { MatchResult result (IsGroundOf typed) (StopsBy (Grounded found.now typed nothing_behind)) }
{
    match ground(alloc, typed) {
        Ok(task) => Ok(task),
        Err(error) => Err(stop_of(found, error)),
    }
}

/// The ground task of the bytes, by its tokens, its tree and its types.
pub fn read_task(alloc: Global, bytes: &[u8]) -> Result<Task, Stop>
    requires { length bytes.now ≤ MOST_BYTES }
    ensures { MatchResult result (IsTaskOf bytes.now) (StopsBy (TaskRead bytes.now nothing_behind)) }
{
    let text = task_text(alloc, bytes)?;
    let ParsedText { tokens, tree } = text;
    let typed = typed_task(alloc, &tokens, tree)?;
    ground_task(alloc, &tokens, typed)
}
