//! Sources and sinks that fail at one of their calls.

use super::first_block::{ROOM, RUN, TRACE, words_of};
use mz_io::{FixedSink, MemSink, MemSource, OpenGate, SureSource};
use mz_run::{Status, mzone_main};
use std::alloc::{AllocError, Global};
use std::sync::Wait;
use std::test::Fail;
use std::thread::Threads;

// Whether the program, over a source that gives at most so many bytes at a time and fails at the call with this number,
// counted from 0, tells that a read failed and writes nothing.
fn stops_reading<R: Threads + Wait + Sync>(
    rt: &R,
    alloc: Global,
    word: &str,
    most: usize,
    at: u64,
) -> Result<bool, AllocError> {
    let words = words_of(alloc, word)?;
    let bytes = TRACE.as_bytes().to_vec(alloc)?;
    let mut source = MemSource::new(bytes, most.max(1), [at].to_vec(alloc)?);
    let mut sink = FixedSink::<ROOM>::new();
    let status = mzone_main(rt, alloc, &words, &mut source, &mut sink, &OpenGate);
    Ok(status == Status::ReadFault && source.faults() == 1 && sink.bytes().is_empty())
}

// Whether the program, over a sink that takes at most so many bytes at a time and fails at the call with this number,
// tells that a write failed, and has written just this.
fn stops_writing<R: Threads + Wait + Sync>(
    rt: &R,
    alloc: Global,
    word: &str,
    input: &str,
    most: usize,
    at: u64,
    written: &[u8],
) -> Result<bool, AllocError> {
    let words = words_of(alloc, word)?;
    let mut source = SureSource::new(input.as_bytes().to_vec(alloc)?);
    let mut sink = MemSink::new(alloc, ROOM, most.max(1), [at].to_vec(alloc)?)?;
    let status = mzone_main(rt, alloc, &words, &mut source, &mut sink, &OpenGate);
    Ok(status == Status::WriteFault && sink.bytes() == written)
}

#[test]
fn a_read_that_fails(rt: HostRuntime) -> Result<(), Fail> {
    for word in ["run", "check"] {
        let stops = stops_reading(&rt, rt.alloc(), word, 10, 1)?;
        assert!(rt; stops);
    }
    Ok(())
}

// The last call is the one that tells the end of the input.
#[test]
fn a_read_that_fails_at_each_call(rt: HostRuntime) -> Result<(), Fail> {
    let mut each = true;
    for at in 0..=TRACE.len() {
        each &= stops_reading(&rt, rt.alloc(), "run", 1, at as u64)?;
    }
    assert!(rt; each);
    Ok(())
}

// The front of each output that was taken before the second write failed.
#[test]
fn a_write_that_fails(rt: HostRuntime) -> Result<(), Fail> {
    let rows = [
        ("run", TRACE, "mzone-run "),
        ("run", "", "bad"),
        ("check", "", "bad"),
        ("check", TRACE, "o"),
        ("runs", TRACE, "usage:"),
    ];
    for (word, input, front) in rows {
        let front = front.as_bytes();
        let stops = stops_writing(&rt, rt.alloc(), word, input, front.len(), 1, front)?;
        assert!(rt; stops);
    }
    Ok(())
}

#[test]
fn a_write_that_fails_at_each_call(rt: HostRuntime) -> Result<(), Fail> {
    let run = RUN.as_bytes();
    let mut each = true;
    for at in 0..run.len() {
        each &= stops_writing(&rt, rt.alloc(), "run", TRACE, 1, at as u64, &run[..at])?;
    }
    assert!(rt; each);
    Ok(())
}
