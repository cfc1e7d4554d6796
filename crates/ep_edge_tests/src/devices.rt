//! Readers and writers of std that work in pieces and fail at a call.

use ep_io::{FetchError, Tally, give_all, take_all};
use std::alloc::{AllocError, Global};
use std::io;
use std::io::{Read, Write};
use std::process::Abort;
use std::test::Fail;

// Gives its bytes in pieces of at most so many. The call with this number fails.
#[derive(Drop)]
struct PieceReader<'a> {
    bytes: &'a [u8],
    piece: usize,
    failing: Option<u32>,
    calls: u32,
}

impl<'a> Read for PieceReader<'a> {
    fn read(&mut self, buf: &mut [u8]) -> io::Result<usize> {
        let call = self.calls;
        self.calls = self.calls.saturating_add(1);
        if self.failing == Some(call) {
            return Err(io::Error::from(io::ErrorKind::BrokenPipe));
        }
        let count = self.bytes.len().min(self.piece).min(buf.len());
        let (piece, rest) = self.bytes.split_at(count);
        buf[..count].copy_from_slice(piece);
        self.bytes = rest;
        Ok(count)
    }
}

// Takes its bytes in pieces of at most so many. The call with this number fails.
#[derive(Drop)]
struct PieceWriter {
    written: Vec<u8>,
    piece: usize,
    failing: Option<u32>,
    calls: u32,
}

impl Write for PieceWriter {
    fn write(&mut self, bytes: &[u8]) -> io::Result<usize> {
        let call = self.calls;
        self.calls = self.calls.saturating_add(1);
        if self.failing == Some(call) {
            return Err(io::Error::from(io::ErrorKind::BrokenPipe));
        }
        let count = bytes.len().min(self.piece);
        self.written.extend_from_slice(&bytes[..count])?;
        Ok(count)
    }

    fn flush(&mut self) -> io::Result<()> {
        Ok(())
    }
}

fn name(answer: Result<(), FetchError>) -> &'static str {
    match answer {
        Ok(()) => "ok",
        Err(FetchError::Missing) => "missing",
        Err(FetchError::TooLong) => "too long",
        Err(FetchError::Failed) => "failed",
        Err(FetchError::OutOfMemory) => "out of memory",
    }
}

// The bytes, the piece, the call that fails, the faults before, the answer within 4 bytes, what is there after the call,
// and the faults and the bytes that were counted.
type Taken = (
    &'static [u8],
    usize,
    Option<u32>,
    u64,
    &'static str,
    &'static [u8],
    u64,
    u64,
);

fn check_taken(rt: &impl Abort, alloc: Global, row: &Taken) -> Result<(), AllocError> {
    let (bytes, piece, failing, before, answer, wanted, faults, taken) = *row;
    let mut reader = PieceReader {
        bytes,
        piece,
        failing,
        calls: 0,
    };
    let mut into = b"x".to_vec(alloc)?;
    let mut tally = Tally {
        faults: before,
        taken: 0,
    };
    let found = name(take_all(&mut reader, 4, &mut into, &mut tally));
    assert_eq!(rt; found, answer);
    assert_eq!(rt; into.as_slice(), wanted);
    assert!(rt; tally.faults == faults && tally.taken == taken);
    Ok(())
}

#[test]
fn a_fault_is_counted_at_a_failing_read_alone(rt: HostRuntime) -> Result<(), Fail> {
    let rows: [Taken; 8] = [
        (b"abcde", 2, None, 0, "too long", b"x", 0, 5),
        (b"abcd", 2, None, 0, "ok", b"xabcd", 0, 4),
        (b"abcd", 9, None, 0, "ok", b"xabcd", 0, 4),
        (b"", 2, None, 0, "ok", b"x", 0, 0),
        (b"abcd", 2, Some(0), 0, "failed", b"x", 1, 0),
        (b"abcd", 2, Some(1), 0, "failed", b"x", 1, 2),
        (b"abcd", 4, Some(1), 3, "failed", b"x", 4, 4),
        (b"abcd", 2, Some(1), u64::MAX, "failed", b"x", u64::MAX, 2),
    ];
    for row in rows {
        check_taken(&rt, rt.alloc(), &row)?;
    }
    Ok(())
}

// The piece, the call that fails, the faults before, whether all of `abcde` is taken, what is written, and the faults.
type Given = (usize, Option<u32>, u64, bool, &'static [u8], u64);

fn check_given(rt: &impl Abort, alloc: Global, row: &Given) {
    let (piece, failing, before, whole, wanted, faults) = *row;
    let mut writer = PieceWriter {
        written: Vec::new(alloc),
        piece,
        failing,
        calls: 0,
    };
    let mut tally = Tally {
        faults: before,
        taken: 0,
    };
    let given = give_all(&mut writer, b"abcde", &mut tally);
    assert_eq!(rt; given.is_ok(), whole);
    assert_eq!(rt; writer.written.as_slice(), wanted);
    assert_eq!(rt; tally.faults, faults);
}

#[test]
fn a_fault_is_counted_at_a_write_that_fails_or_takes_nothing(rt: HostRuntime) {
    let rows: [Given; 6] = [
        (2, None, 0, true, b"abcde", 0),
        (9, None, 0, true, b"abcde", 0),
        (2, Some(0), 0, false, b"", 1),
        (2, Some(2), 0, false, b"abcd", 1),
        (0, None, 0, false, b"", 1),
        (0, None, u64::MAX, false, b"", u64::MAX),
    ];
    for row in rows {
        check_given(&rt, rt.alloc(), &row);
    }
}
