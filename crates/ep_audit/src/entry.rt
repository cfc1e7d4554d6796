//! The line of an entry.

ghost use Rattle.std.specs.Prelude.{◌≡◌, ◌≢◌, ◌≤◌, ◌↔◌, ℕ, List, IsTrue, IfOk, MatchOption};
ghost use Rattle.hex.specs.Hex.{IsBytes, decode_of, encode_lower};
ghost use Rattle.ep_theory.specs.Kripke.{Kripke, IsState};
ghost use Rattle.ep_bounds.specs.declared.bounds.TheConstants.{MOST_BOUND, MOST_WORLDS};
ghost use Rattle.ep_bytes.specs.Bytes.{IsWithin, bytes_of};
ghost use Rattle.ep_theory.specs.Closed.{MayStand};
ghost use Rattle.ep_audit.specs.Shown.{IsEntryLine};

use crate::lines::{behind, cut_at};
use crate::named_task::NamedTask;
use crate::number::number;
use ep_bounds::MOST_WORLDS;
use ep_bytes::{ReadError, read_state};
use ep_kripke::State;
use ep_logic::OutOfMemory;
use ep_truth::holds_all;
use hex::FromHexError;
use std::alloc::Global;

/// The state and the weight in the line of an entry at this place, within the bound.
pub fn read_entry(
    alloc: Global,
    line: &[u8],
    place: u32,
    bound: u32,
) -> Result<Option<(State, u32)>, OutOfMemory>
    requires { bound ≤ MOST_BOUND }
    ensures { IfOk result (λ found. MatchOption found
        ((e : Kripke × ℕ) → IsEntryLine place bound line.now e → ⊥)
        (IsEntryLine place bound line.now)) }
{
    let head = format!(in alloc; "state {place} cost ")?;
    let Some(rest) = behind(line, head.as_bytes()) else {
        return Ok(None);
    };
    let Some((digits, text)) = cut_at(rest, b' ') else {
        return Ok(None);
    };
    let Some(weight) = number(digits, bound) else {
        return Ok(None);
    };
    let Some(state) = read_hex_state(alloc, text)? else {
        return Ok(None);
    };
    Ok(Some((state, weight)))
}

// The state of at most 256 worlds whose bytes have this hexadecimal text.
fn read_hex_state(alloc: Global, text: &[u8]) -> Result<Option<State>, OutOfMemory>
    ensures { IfOk result (λ found. MatchOption found
        ((S : Kripke) → IsState S → IsWithin MOST_WORLDS S → text.now ≢ encode_lower (bytes_of S))
        (λ S. IsState S × IsWithin MOST_WORLDS S × (text.now ≡ encode_lower (bytes_of S)))) }
{
    let Some(bytes) = read_hex(alloc, text)? else {
        return Ok(None);
    };
    match read_state(alloc, &bytes, MOST_WORLDS) {
        Ok(state) => Ok(Some(state)),
        Err(ReadError::NoState) => Ok(None),
        Err(ReadError::OutOfMemory) => Err(OutOfMemory {}),
    }
}

// The bytes that have this hexadecimal text, in lower case.
fn read_hex(alloc: Global, text: &[u8]) -> Result<Option<Vec<u8>>, OutOfMemory>
    ensures { IfOk result (λ found. MatchOption found
        ((bytes : List ℕ) → IsBytes bytes → text.now ≢ encode_lower bytes)
        (λ bytes. (text.now ≡ encode_lower bytes.items) × (decode_of text.now ≡ Ok bytes.items))) }
{
    match hex::decode(alloc, text) {
        Ok(bytes) => {
            let again = hex::encode(alloc, bytes.as_slice())?;
            if again.as_bytes() == text {
                Ok(Some(bytes))
            } else {
                Ok(None)
            }
        }
        Err(FromHexError::InvalidHexCharacter { .. }) => Ok(None),
        Err(FromHexError::OddLength) => Ok(None),
        Err(FromHexError::InvalidStringLength) => Ok(None),
        Err(FromHexError::OutOfMemory) => Err(OutOfMemory {}),
    }
}

/// Whether a state may stand in a list of entries of the task.
pub fn may_stand(alloc: Global, task: &NamedTask, state: &State) -> Result<bool, OutOfMemory>
    requires { state.now.worlds ≤ MOST_WORLDS }
    ensures { IfOk result (λ b. (bound weight : ℕ) → weight ≤ bound → IsTrue b ↔ MayStand task.now.problem bound (state.now, weight)) }
{
    let problem = task.problem();
    let initial = problem.initial();
    if state.agents() != initial.agents() || state.atoms() != initial.atoms() {
        return Ok(false);
    }
    Ok(!holds_all(alloc, state, problem.goal())?)
}
