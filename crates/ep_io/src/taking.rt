// Reading to the end.
ghost use Rattle.std.specs.Prelude.{◌≡◌, ◌≢◌, ◌+◌, ◌-◌, ◌^◌, ◌≤◌, ◌<◌, ℕ, List, ◌++◌, min, length, take, drop, vec_len, IfOk, IfErr, IfSome, OnOk, OnErr};
ghost use Rattle.std.specs.Io.KnownBytes.{Consumes, IsAtEnd};
ghost use Rattle.ep_base.specs.Counts.{RoseBeyond, last_count, one_more};
ghost use Rattle.ep_io.specs.Tally.{HasTaken};

use crate::vectors::append;
use crate::{FetchError, Tally};
use std::io::Read;

const PIECE: usize = 4096;

// Takes bytes until the end, or until it has `most`. Each turn takes at least one, and every byte that is taken is
// appended.
fn read_up_to<R: Read>(
    reader: &mut R,
    most: usize,
    into: &mut Vec<u8>,
    tally: &mut Tally,
) -> Result<usize, FetchError>
    requires { most < 2 ^ 33 }
    ensures front { take (vec_len into.old) into.new.items ≡ into.old.items }
    ensures bytes { Consumes (R.remaining reader.old) (R.remaining reader.new) (drop (vec_len into.old) into.new.items) }
    ensures taken { tally.new.taken ≡ min (tally.old.taken + (vec_len into.new - vec_len into.old)) last_count }
    ensures ok { IfOk result (λ n. (vec_len into.new ≡ vec_len into.old + n) × (n ≤ most)) }
    ensures whole { IfOk result (λ n. n < most → IsAtEnd (R.remaining reader.new)) }
    ensures err { IfErr result (λ e. (e ≢ FetchError.Missing) × (e ≢ FetchError.TooLong)) }
    ensures failed { result ≡ Err FetchError.Failed → tally.new.faults ≡ one_more tally.old.faults }
    ensures no_fault { result ≢ Err FetchError.Failed → tally.new.faults ≡ tally.old.faults }
    ensures grows { (tally.old.faults ≤ tally.new.faults) × (tally.old.taken ≤ tally.new.taken) }
{
    let mut buf = [0u8; PIECE];
    let mut got = 0;
    while got < most {
        let room = PIECE.min(most - got);
        into.try_reserve(room)?;
        let n = match reader.read(&mut buf[..room]) {
            Ok(0) => return Ok(got),
            Ok(n) => n,
            Err(_) => {
                tally.count_fault();
                return Err(FetchError::Failed);
            }
        };
        tally.count_taken(n);
        append(into, &buf[..n]);
        got += n;
    }
    Ok(got)
}

/// Appends the bytes up to the reader's end, at most `limit`. It reads until a read gives none, or `limit + 1` bytes were
/// taken. After an `Err` the buffer is as before; a fault is counted at a read's error and nowhere else.
pub fn take_all<R: Read>(
    reader: &mut R,
    limit: u32,
    into: &mut Vec<u8>,
    tally: &mut Tally,
) -> Result<(), FetchError>
    requires { limit < u32.MAX }
    ensures ok { OnOk result ((bytes : List ℕ) × (into.new.items ≡ into.old.items ++ bytes) × (length bytes ≤ limit)
        × IfSome (R.remaining reader.old) (λ all. bytes ≡ all)) }
    ensures end { OnOk result (IsAtEnd (R.remaining reader.new)) }
    ensures err { OnErr result (into.new.items ≡ into.old.items) }
    ensures missing { result ≢ Err FetchError.Missing }
    ensures too_long { result ≡ Err FetchError.TooLong → IfSome (R.remaining reader.old) (λ all. limit < length all) }
    ensures took_more { result ≡ Err FetchError.TooLong → RoseBeyond limit tally.old.taken tally.new.taken }
    ensures failed { result ≡ Err FetchError.Failed → tally.new.faults ≡ one_more tally.old.faults }
    ensures no_fault { result ≢ Err FetchError.Failed → tally.new.faults ≡ tally.old.faults }
    ensures grows { (tally.old.faults ≤ tally.new.faults) × (tally.old.taken ≤ tally.new.taken) }
    ensures taken { HasTaken (R.remaining reader.old) (R.remaining reader.new) tally.old.taken tally.new.taken }
{
    let start = into.len();
    let most = limit as usize + 1;
    match read_up_to(reader, most, into, tally) {
        Ok(n) if n < most => Ok(()),
        Ok(_) => {
            into.truncate(start);
            Err(FetchError::TooLong)
        }
        Err(e) => {
            into.truncate(start);
            Err(e)
        }
    }
}
