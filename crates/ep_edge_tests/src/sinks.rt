//! Sinks of bytes, in memory and over a writer.

use ep_base::List;
use ep_io::{ClearSink, MemorySink, Sink, SinkFault, StdSink};
use std::process::Abort;
use std::test::Fail;

// What is put, whether it is taken, and what is written then.
type Row = (&'static [u8], bool, &'static [u8]);

fn check(rt: &impl Abort, out: &mut MemorySink, row: &Row) {
    let (bytes, taken, written) = *row;
    assert_eq!(rt; out.put(bytes).is_ok(), taken);
    assert_eq!(rt; out.bytes(), written);
}

#[test]
fn a_sink_in_memory_keeps_what_it_is_told_to(rt: HostRuntime) -> Result<(), Fail> {
    let alloc = rt.alloc();
    let failing = List::from_vec(vec![in alloc; SinkFault { call: 1, kept: 2 }]?);
    let mut out = MemorySink::new(alloc, 8, failing)?;
    let rows: [Row; 4] = [
        (b"abc", true, b"abc"),
        (b"defg", false, b"abcde"),
        (b"fgh", true, b"abcdefgh"),
        (b"i", false, b"abcdefgh"),
    ];
    for row in rows {
        check(&rt, &mut out, &row);
    }
    Ok(())
}

// A slice takes what fits of a piece, and then nothing.
#[test]
fn a_sink_over_a_writer_writes_to_the_end(rt: HostRuntime) {
    let mut room = [0u8; 5];
    let mut out = StdSink::new(room.as_mut_slice());
    assert!(rt; out.put(b"abc").is_ok());
    assert!(rt; out.put(b"def").is_err());
    assert_eq!(rt; room, *b"abcde");
}

#[test]
fn a_clear_sink_counts_its_bytes(rt: HostRuntime) {
    let mut out = ClearSink::new();
    assert!(rt; out.put(b"abc").is_ok());
    assert!(rt; out.put(b"de").is_ok());
    assert_eq!(rt; out.bytes(), 5);
}
