//! Libraries of named files, in memory and on disk.

use ep_base::{List, Text};
use ep_io::{ClearLibrary, DiskLibrary, FetchError, Library, MemoryLibrary, Tally, take_all};
use std::alloc::{AllocError, Global};
use std::fs;
use std::process::Abort;
use std::test::Fail;

// A library with the file `coin` of three bytes. Its call 1 fails.
fn coin(alloc: Global) -> Result<MemoryLibrary, AllocError> {
    let name = Text::from_vec(vec![in alloc; b'c', b'o', b'i', b'n']?);
    let bytes = List::from_vec(b"abc".to_vec(alloc)?);
    let files = List::from_vec(vec![in alloc; (name, bytes)]?);
    Ok(MemoryLibrary::new(alloc, files, List::from_vec(vec![in alloc; 1]?)))
}

fn name(answer: Result<(), FetchError>) -> &'static str {
    match answer {
        Ok(()) => "ok",
        Err(FetchError::Missing) => "missing",
        Err(FetchError::TooLong) => "too long",
        Err(FetchError::Failed) => "failed",
        Err(FetchError::OutOfMemory) => "out of memory",
    }
}

// A name and a limit, the name of the answer, and what is there after the call.
type MemoryRow = (&'static str, u32, &'static str, &'static [u8]);

fn check_memory(rt: &impl Abort, files: &mut MemoryLibrary, into: &mut Vec<u8>, row: &MemoryRow) {
    let (file, limit, answer, bytes) = *row;
    assert!(rt; limit < 100);
    let found = name(files.fetch(file, limit, into));
    assert_eq!(rt; found, answer, "{file} within {limit}");
    assert_eq!(rt; into.as_slice(), bytes, "{file} within {limit}");
}

#[test]
fn a_library_in_memory_answers_each_call(rt: HostRuntime) -> Result<(), Fail> {
    let mut files = coin(rt.alloc())?;
    let mut into = b"x".to_vec(rt.alloc())?;
    let rows: [MemoryRow; 5] = [
        ("coin", 3, "ok", b"xabc"),
        ("coin", 3, "failed", b"xabc"),
        ("coin", 2, "too long", b"xabc"),
        ("coins", 3, "missing", b"xabc"),
        ("coin", 3, "ok", b"xabcabc"),
    ];
    for row in rows {
        check_memory(&rt, &mut files, &mut into, &row);
    }
    Ok(())
}

// A name and a limit, the name of the answer, and how many bytes are there after the call.
type DiskRow = (&'static str, u32, &'static str, usize);

fn check_disk<L: Library>(rt: &impl Abort, files: &mut L, into: &mut Vec<u8>, row: &DiskRow) {
    let (file, limit, answer, len) = *row;
    assert!(rt; limit < 20_000);
    let found = name(files.fetch(file, limit, into));
    assert_eq!(rt; found, answer, "{file} within {limit}");
    assert_eq!(rt; into.len(), len, "{file} within {limit}");
}

#[test]
fn a_library_on_disk_reads_whole_files(rt: HostRuntime) -> Result<(), Fail> {
    let long = vec![in rt.alloc(); 7u8; 10_000]?;
    fs::write(&rt, "ep_io_test", long.as_slice())?;
    let mut files = DiskLibrary::new(&rt, rt.alloc());
    let mut into = Vec::new(rt.alloc());
    let rows: [DiskRow; 4] = [
        ("ep_io_test", 10_000, "ok", 10_000),
        ("ep_io_test", 9_999, "too long", 10_000),
        ("ep_io_none", 10_000, "failed", 10_000),
        (".", 10_000, "failed", 10_000),
    ];
    for row in rows {
        check_disk(&rt, &mut files, &mut into, &row);
    }
    assert_eq!(rt; into, long);
    fs::remove_file(&rt, "ep_io_test")?;
    Ok(())
}

// What a reader has, the name of the answer within 4 bytes, what is there after the call, and how many bytes were taken.
type ReaderRow = (&'static [u8], &'static str, &'static [u8], u64);

fn check_reader(rt: &impl Abort, alloc: Global, row: &ReaderRow) -> Result<(), AllocError> {
    let (bytes, answer, wanted, taken) = *row;
    let mut reader = bytes;
    let mut into = b"x".to_vec(alloc)?;
    let mut tally = Tally::new();
    let found = name(take_all(&mut reader, 4, &mut into, &mut tally));
    assert_eq!(rt; found, answer);
    assert_eq!(rt; into.as_slice(), wanted);
    assert!(rt; tally.faults == 0 && tally.taken == taken);
    Ok(())
}

#[test]
fn a_reader_is_read_to_its_end_or_past_the_limit(rt: HostRuntime) -> Result<(), Fail> {
    let rows: [ReaderRow; 3] = [
        (b"", "ok", b"x", 0),
        (b"abcd", "ok", b"xabcd", 4),
        (b"abcde", "too long", b"x", 5),
    ];
    for row in rows {
        check_reader(&rt, rt.alloc(), &row)?;
    }
    Ok(())
}

#[test]
fn a_clear_library_tells_its_files(rt: HostRuntime) -> Result<(), Fail> {
    let name_of_coin = Text::from_vec(b"coin".to_vec(rt.alloc())?);
    let bytes = List::from_vec(b"abc".to_vec(rt.alloc())?);
    let files = List::from_vec(vec![in rt.alloc(); (name_of_coin, bytes)]?);
    let mut files = ClearLibrary::new(rt.alloc(), files);
    let mut into = b"x".to_vec(rt.alloc())?;
    assert_eq!(rt; name(files.fetch("coin", 3, &mut into)), "ok");
    assert_eq!(rt; name(files.fetch("coin", 2, &mut into)), "too long");
    assert_eq!(rt; name(files.fetch("coins", 3, &mut into)), "missing");
    assert_eq!(rt; into.as_slice(), b"xabc".as_slice());
    Ok(())
}
