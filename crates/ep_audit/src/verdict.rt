//! The audit of a certificate.

ghost use Rattle.std.specs.Prelude.{◌≡◌, ◌≤◌, ◌↔◌, ℕ, length, IsTrue, IfOk};
ghost use Rattle.ep_theory.specs.Closed.{HasNoPlan};
ghost use Rattle.ep_audit.specs.declared.verdict.TheConstants.{MOST_CERTIFICATE_BYTES};
ghost use Rattle.ep_audit.specs.Certificates.{Certifies, IsWrongLine};
ghost use Rattle.ep_audit.specs.Answers.{IsAudited};

use crate::laws::a_certificate_excludes_plans;
use crate::lines::cut_at;
use crate::named_task::NamedTask;
use crate::progress::{DueLine, Progress};
use crate::take::take;
use ep_logic::{List, OutOfMemory};
use std::alloc::Global;

/// The most bytes of a certificate.
pub const MOST_CERTIFICATE_BYTES: usize = 67_108_864;

/// What an audit answers.
#[derive(Clone, Copy, Debug, PartialEq, Eq)]
pub enum Audited {
    /// No plan within the bound reaches the goal.
    Proves { bound: u32 },
    /// The first line that breaks its rule, counted from 1.
    Wrong { line: u32 },
}

/// Judges each line of a certificate by what the lines before it tell. It looks for no plan and contracts no state.
pub fn audit(alloc: Global, task: &NamedTask, bytes: &[u8]) -> Result<Audited, OutOfMemory>
    requires { length bytes.now ≤ MOST_CERTIFICATE_BYTES }
    ensures proves { IfOk result (λ answer. (c : ℕ) → (answer ≡ Audited.Proves c) ↔ Certifies task.now bytes.now c) }
    ensures wrong { IfOk result (λ answer. (l : ℕ) → (answer ≡ Audited.Wrong l) ↔ IsWrongLine task.now bytes.now l) }
    ensures no_plan { IfOk result (λ answer. (c : ℕ) → answer ≡ Audited.Proves c → HasNoPlan task.now.problem c) }
{
    task.known();
    a_certificate_excludes_plans();
    judge(alloc, task, bytes)
}

// Judges each line in turn.
fn judge(alloc: Global, task: &NamedTask, bytes: &[u8]) -> Result<Audited, OutOfMemory>
    requires { length bytes.now ≤ MOST_CERTIFICATE_BYTES }
    ensures { IfOk result (IsAudited task.now bytes.now) }
{
    let mut told = Progress {
        bound: 0,
        count: 0,
        entries: List::new(alloc),
        due: DueLine::Version,
    };
    let mut rest = bytes;
    let mut line = 1;
    'lines: loop {
        if is_done(&told) {
            return Ok(Audited::Proves { bound: told.bound });
        }
        let Some((text, behind)) = cut_at(rest, b'\n') else {
            return Ok(Audited::Wrong { line });
        };
        if !take(alloc, task, &mut told, text, behind)? {
            return Ok(Audited::Wrong { line });
        }
        rest = behind;
        line += 1;
    }
}

// Whether the last line was taken.
fn is_done(told: &Progress) -> bool
    ensures { IsTrue result ↔ (told.now.due ≡ DueLine.Nothing) }
{
    match told.due {
        DueLine::Nothing => true,
        DueLine::Version | DueLine::Task | DueLine::Bound | DueLine::Count => false,
        DueLine::Entry | DueLine::Start | DueLine::Step { .. } | DueLine::End => false,
    }
}
