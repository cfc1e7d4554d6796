// The bytes of a state, row by row, a byte of a word at a time.

ghost use Rattle.std.specs.Prelude.{◌≡◌, ◌≤◌, ◌<◌, ◌/◌, ◌%◌, ◌+◌, ◌*◌, ◌^◌, ◌++◌, length, slice_index, IfOk, OnOk};
ghost use Rattle.std.specs.List.{flat_map, slice_range};
ghost use Rattle.ep_logic.specs.Packed.{unpacked, IsPacked};
ghost use Rattle.ep_theory.specs.Kripke.{IsState, links_of};
ghost use Rattle.ep_kripke.specs.States.{IsBounded};
ghost use Rattle.ep_bytes.specs.declared.limits.TheConstants.{MOST_WRITTEN_WORLDS};
ghost use Rattle.ep_bytes.specs.Bytes.{row_bytes, header, bytes_of};
ghost use Rattle.ep_kripke.specs.Interning.{row_of, successor_rows};

use ep_kripke::{RowSet, State};
use ep_logic::{AgentId, Bits, List, OutOfMemory, WorldId};
use std::alloc::Global;

/// The bytes of the state: the number of worlds, two bytes, the high one first; of agents, one byte; of atoms, two
/// bytes; then rows, a bit for each thing, the first as the least bit of the first byte and the last byte filled with
/// 0: for each world its truth row, for each agent and each world the row of its successors, and the row of the
/// designated worlds. This project's own.
pub fn write_state(alloc: Global, s: &State) -> Result<List<u8>, OutOfMemory>
    requires { s.now.worlds ≤ MOST_WRITTEN_WORLDS }
    ensures value { IfOk result (λ bytes. bytes ≡ bytes_of s.now) }
    ensures valid { IsState s.now }
    ensures bounded { IsBounded s.now }
{
    let mut bytes = header_bytes(alloc, s)?;
    put_truths(s, &mut bytes)?;
    put_links(alloc, s, &mut bytes)?;
    put_numbers(alloc, s.designated(), s.worlds(), &mut bytes)?;
    Ok(List::from_vec(bytes))
}

fn header_bytes(alloc: Global, s: &State) -> Result<Vec<u8>, OutOfMemory>
    requires { s.now.worlds ≤ MOST_WRITTEN_WORLDS }
    ensures value { IfOk result (λ bytes. bytes.items ≡ header s.now) }
    ensures valid { IsState s.now }
    ensures bounded { IsBounded s.now }
{
    let (worlds, atoms) = (s.worlds(), s.atoms());
    let mut bytes = Vec::new(alloc);
    bytes.push((worlds / 256) as u8)?;
    bytes.push((worlds % 256) as u8)?;
    bytes.push(s.agents() as u8)?;
    bytes.push((atoms / 256) as u8)?;
    bytes.push((atoms % 256) as u8)?;
    Ok(bytes)
}

// The truth rows of all worlds.
fn put_truths(s: &State, bytes: &mut Vec<u8>) -> Result<(), OutOfMemory>
    ensures { OnOk result (bytes.new.items ≡ bytes.old.items ++ flat_map row_bytes s.now.truth) }
{
    for w in 0..s.worlds() {
        put_words(s.truth_words(WorldId { n: w }), s.atoms(), bytes)?;
    }
    Ok(())
}

// The rows of successors, agent by agent.
fn put_links(alloc: Global, s: &State, bytes: &mut Vec<u8>) -> Result<(), OutOfMemory>
    ensures { OnOk result (bytes.new.items ≡
        bytes.old.items ++ flat_map (λ pairs. flat_map row_bytes (successor_rows s.now.worlds pairs)) s.now.links) }
{
    for a in 0..s.agents() {
        put_successors(alloc, s, AgentId { n: a }, bytes)?;
    }
    Ok(())
}

// The rows of successors by one agent. Worlds with one row share its bytes, which are made once.
fn put_successors(
    alloc: Global,
    s: &State,
    a: AgentId,
    bytes: &mut Vec<u8>,
) -> Result<(), OutOfMemory>
    requires { a.n < s.now.agents }
    ensures { OnOk result (bytes.new.items ≡
        bytes.old.items ++ flat_map row_bytes (successor_rows s.now.worlds (links_of s.now a.n))) }
{
    let (names, rows) = s.relation(a).names();
    let made = bytes_of_rows(alloc, rows, s.worlds())?;
    let size = (s.worlds() as usize + 7) / 8;
    for w in 0..names.len() {
        bytes.extend_from_slice(piece(&made, size, names[w]))?;
    }
    Ok(())
}

// A piece of pieces of one size.
fn piece(pieces: &[u8], size: usize, at: u32) -> &[u8]
    requires { at * size + size ≤ length pieces.now }
    ensures { result.now ≡ slice_range pieces.now (at * size) (at * size + size) }
{
    let start = at as usize * size;
    &pieces[start..start + size]
}

// The bytes of all rows of a set, one row after another.
fn bytes_of_rows(alloc: Global, rows: &RowSet, count: u32) -> Result<Vec<u8>, OutOfMemory>
    requires few { length rows.now ≤ 65536 }
    requires small { count ≤ 65536 }
    ensures { IfOk result (λ bytes. bytes.items ≡ flat_map (λ numbers. row_bytes (row_of count numbers)) rows.now) }
{
    let mut bytes = Vec::new(alloc);
    let mut numbers = Vec::new(alloc);
    for r in 0..rows.len() as u32 {
        numbers.clear();
        rows.put_row(r, &mut numbers)?;
        put_numbers(alloc, &numbers, count, &mut bytes)?;
    }
    Ok(bytes)
}

// The row of the numbers below `count`, true at these.
fn put_numbers(
    alloc: Global,
    numbers: &[u32],
    count: u32,
    bytes: &mut Vec<u8>,
) -> Result<(), OutOfMemory>
    requires { count ≤ 65536 }
    ensures { OnOk result (bytes.new.items ≡ bytes.old.items ++ row_bytes (row_of count numbers.now)) }
{
    let row = Bits::from_places(alloc, count, numbers)?;
    put_words(row.words(), count, bytes)
}

// A row of so many values, which stands in words.
fn put_words(words: &[u64], count: u32, bytes: &mut Vec<u8>) -> Result<(), OutOfMemory>
    requires small { count ≤ 65536 }
    requires packed { IsPacked words.now count }
    ensures { OnOk result (bytes.new.items ≡ bytes.old.items ++ row_bytes (unpacked words.now count)) }
{
    for k in 0..(count + 7) / 8 {
        bytes.push(byte_of(words, k))?;
    }
    Ok(())
}

// Byte `k` of the words, each with its low bytes first.
fn byte_of(words: &[u64], k: u32) -> u8
    requires { k / 8 < length words.now }
    ensures { result ≡ slice_index words.now (k / 8) / 2 ^ (8 * (k % 8)) % 256 }
{
    ((words[(k / 8) as usize] >> (8 * (k % 8))) & 255) as u8
}
