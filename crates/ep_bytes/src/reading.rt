// The state that bytes tell, bit by bit.

ghost use Rattle.std.specs.Prelude.{◌≡◌, ℕ, ◌+◌, ◌*◌, ◌/◌, ◌<◌, ◌≤◌, ◌↔◌, length, IsTrue, IfErr, IfOk};
ghost use Rattle.ep_bytes.specs.declared.limits.TheConstants.{MOST_WRITTEN_WORLDS};
ghost use Rattle.ep_theory.specs.Kripke.{Kripke, IsState};
ghost use Rattle.ep_bytes.specs.Bytes.{row_size};
ghost use Rattle.ep_bytes.specs.Reading.{AreSizes, AreSmall, HasBytes, IsRefused, agent_size, bit_from, designated_begin, links_begin, told, told_numbers, told_relations, told_row, told_rows, told_truth, whole_length};

use crate::writing::write_state;
use ep_kripke::{Rows, State};
use ep_logic::{Bits, List, OutOfMemory};
use std::alloc::Global;
use std::fmt;

/// Why bytes were not read.
#[derive(Clone, Copy, Debug, PartialEq, Eq)]
pub enum ReadError {
    /// No state of at most so many worlds, 8 agents and 256 atoms has these bytes.
    NoState,
    OutOfMemory,
}

impl fmt::Display for ReadError {
    fn fmt<W: fmt::Write>(&self, f: &mut fmt::Formatter<W>) -> fmt::Result {
        match self {
            ReadError::NoState => write!(f, "no state"),
            ReadError::OutOfMemory => write!(f, "out of memory"),
        }
    }
}

impl std::error::Error for ReadError {}

impl From<OutOfMemory> for ReadError {
    ghost use Rattle.std.specs.Prelude.{◌≡◌};
    ghost use Rattle.ep_bytes.specs.declared.reading.ReadError.TheVariants.{OutOfMemory};

    ghost from_gives = { λ _ e. e ≡ OutOfMemory };

    fn from(_error: OutOfMemory) -> ReadError {
        ReadError::OutOfMemory
    }
}

// How many worlds, agents and atoms a state has.
#[derive(Clone, Copy, Debug)]
struct Sizes {
    pub worlds: u32,
    pub agents: u32,
    pub atoms: u32,
}

/// The state that has these bytes, if it has at most `most_worlds` worlds. Bytes from anywhere may be given: the memory
/// that is taken is a small multiple of their number and of the number of worlds.
pub fn read_state(alloc: Global, bytes: &[u8], most_worlds: u32) -> Result<State, ReadError>
    requires { most_worlds ≤ MOST_WRITTEN_WORLDS }
    ensures ok { IfOk result (HasBytes most_worlds bytes.now) }
    ensures only { IfOk result (λ s. (D : Kripke) → HasBytes most_worlds bytes.now D → D ≡ s) }
    ensures refused { IfErr result (IsRefused most_worlds bytes.now) }
{
    let sizes = read_sizes(bytes, most_worlds)?;
    let state = read_rows(alloc, bytes, &sizes)?;
    if write_state(alloc, &state)?.as_slice() != bytes {
        return Err(ReadError::NoState);
    }
    Ok(state)
}

// The sizes that the bytes tell. No memory is taken before they are compared with the number of bytes.
fn read_sizes(bytes: &[u8], most_worlds: u32) -> Result<Sizes, ReadError>
    requires { most_worlds ≤ MOST_WRITTEN_WORLDS }
    ensures ok { IfOk result (AreSizes bytes.now) }
    ensures few { IfOk result (λ sizes. sizes.worlds ≤ most_worlds) }
    ensures refused { IfErr result (IsRefused most_worlds bytes.now) }
{
    if bytes.len() < 5 {
        return Err(ReadError::NoState);
    }
    let sizes = Sizes {
        worlds: u32::from(bytes[0]) * 256 + u32::from(bytes[1]),
        agents: u32::from(bytes[2]),
        atoms: u32::from(bytes[3]) * 256 + u32::from(bytes[4]),
    };
    if !are_small(&sizes) {
        return Err(ReadError::NoState);
    }
    if sizes.worlds > most_worlds {
        return Err(ReadError::NoState);
    }
    if bytes.len() != length_of(&sizes) {
        return Err(ReadError::NoState);
    }
    Ok(sizes)
}

fn are_small(sizes: &Sizes) -> bool
    ensures { IsTrue result ↔ AreSmall sizes.now }
{
    0 < sizes.worlds && sizes.worlds <= 4096 && sizes.agents <= 8 && sizes.atoms <= 256
}

// How many bytes a row of so many values has.
fn size_of_row(count: u32) -> usize
    ensures { result ≡ row_size count }
{
    (count as usize + 7) / 8
}

fn size_of_agent(sizes: &Sizes) -> usize
    requires { AreSmall sizes.now }
    ensures value { result ≡ agent_size sizes.now }
    ensures small { result ≤ 4194304 }
{
    sizes.worlds as usize * size_of_row(sizes.worlds)
}

fn links_start(sizes: &Sizes) -> usize
    requires { AreSmall sizes.now }
    ensures value { result ≡ links_begin sizes.now }
    ensures small { result ≤ 4194304 }
{
    5 + sizes.worlds as usize * size_of_row(sizes.atoms)
}

fn designated_start(sizes: &Sizes) -> usize
    requires { AreSmall sizes.now }
    ensures value { result ≡ designated_begin sizes.now }
    ensures small { result ≤ 67108864 }
{
    links_start(sizes) + sizes.agents as usize * size_of_agent(sizes)
}

fn length_of(sizes: &Sizes) -> usize
    requires { AreSmall sizes.now }
    ensures { result ≡ whole_length sizes.now }
{
    designated_start(sizes) + size_of_row(sizes.worlds)
}

// The state that the bytes tell, unless they tell no designated world.
fn read_rows(alloc: Global, bytes: &[u8], sizes: &Sizes) -> Result<State, ReadError>
    requires { AreSizes bytes.now sizes.now }
    ensures ok { IfOk result (λ s. s ≡ told bytes.now sizes.now) }
    ensures valid { IfOk result IsState }
    ensures refused { IfErr result (IsRefused MOST_WRITTEN_WORLDS bytes.now) }
{
    let designated = numbers(alloc, bytes, designated_start(sizes), sizes.worlds)?;
    if designated.is_empty() {
        return Err(ReadError::NoState);
    }
    let truth = truths(alloc, bytes, sizes)?;
    let relations = relations(alloc, bytes, sizes)?;
    let designated = List::from_vec(designated);
    let state = State::from_rows(
        alloc,
        sizes.agents,
        sizes.atoms,
        truth,
        relations,
        designated,
    )?;
    Ok(state)
}

fn truths(alloc: Global, bytes: &[u8], sizes: &Sizes) -> Result<List<Bits>, OutOfMemory>
    requires { AreSizes bytes.now sizes.now }
    ensures { IfOk result (λ rows. rows ≡ told_truth bytes.now sizes.now) }
{
    let size = size_of_row(sizes.atoms);
    let mut rows = List::new(alloc);
    for w in 0..sizes.worlds {
        rows.push(row(alloc, bytes, 5 + w as usize * size, sizes.atoms)?)?;
    }
    Ok(rows)
}

fn relations(alloc: Global, bytes: &[u8], sizes: &Sizes) -> Result<List<Rows>, OutOfMemory>
    requires { AreSizes bytes.now sizes.now }
    ensures { IfOk result (λ relations. relations ≡ told_relations bytes.now sizes.now) }
{
    let start = links_start(sizes);
    let size = size_of_agent(sizes);
    let mut relations = List::new(alloc);
    for a in 0..sizes.agents {
        relations.push(rows(alloc, bytes, start + a as usize * size, sizes.worlds)?)?;
    }
    Ok(relations)
}

// The successors of each world, by rows that begin at a byte.
fn rows(alloc: Global, bytes: &[u8], at: usize, worlds: u32) -> Result<Rows, OutOfMemory>
    requires small { worlds ≤ MOST_WRITTEN_WORLDS }
    requires inside { at + worlds * row_size worlds ≤ length bytes.now }
    ensures { IfOk result (λ rows. rows ≡ told_rows bytes.now at worlds) }
{
    let size = size_of_row(worlds);
    let mut rows = Rows::new(alloc);
    for w in 0..worlds {
        rows.push(&numbers(alloc, bytes, at + w as usize * size, worlds)?)?;
    }
    Ok(rows)
}

// The values of the row that begins at a byte.
fn row(alloc: Global, bytes: &[u8], at: usize, count: u32) -> Result<Bits, OutOfMemory>
    requires { at + row_size count ≤ length bytes.now }
    ensures { IfOk result (λ row. row ≡ told_row bytes.now at count) }
{
    let mut row = Bits::zeros(alloc, count)?;
    for i in 0..count {
        row.set(i, bit(bytes, at, i));
    }
    Ok(row)
}

// The places of the row that begins at a byte where it is true.
fn numbers(alloc: Global, bytes: &[u8], at: usize, count: u32) -> Result<Vec<u32>, OutOfMemory>
    requires { at + row_size count ≤ length bytes.now }
    ensures { IfOk result (λ numbers. numbers.items ≡ told_numbers bytes.now at count) }
{
    let mut numbers = Vec::new(alloc);
    for i in 0..count {
        if bit(bytes, at, i) {
            numbers.push(i)?;
        }
    }
    Ok(numbers)
}

fn bit(bytes: &[u8], at: usize, i: u32) -> bool
    requires { at + i / 8 < length bytes.now }
    ensures { result ≡ bit_from bytes.now at i }
{
    (bytes[at + (i / 8) as usize] >> (i % 8)) & 1 == 1
}
