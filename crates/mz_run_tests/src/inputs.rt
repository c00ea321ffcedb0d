//! The longest input, and one with a byte more.

use super::first_block::{ROOM, words_of};
use mz_io::{FixedSink, OpenGate, Source, SureSource};
use mz_run::{Status, Tool, mzone_main, tool_call};
use std::alloc::{AllocError, Global};
use std::sync::Wait;
use std::test::Fail;
use std::thread::Threads;

const MOST_BYTES: usize = 16_777_216;

// Whether the program ends so over so many line feeds, and writes this.
fn ends<R: Threads + Wait + Sync>(
    rt: &R,
    alloc: Global,
    word: &str,
    lines: usize,
    status: Status,
    written: &[u8],
) -> Result<bool, AllocError> {
    let words = words_of(alloc, word)?;
    let mut source = SureSource::new(vec![in alloc; b'\n'; lines]?);
    let mut sink = FixedSink::<ROOM>::new();
    let ended = mzone_main(rt, alloc, &words, &mut source, &mut sink, &OpenGate);
    Ok(ended == status && sink.bytes() == written)
}

// The longest input is looked at, and one with a byte more isn't.
#[test]
fn the_longest_input(rt: HostRuntime) -> Result<(), Fail> {
    let refused: &[u8] = b"bad trace: line 1, why 2\n";
    let too_long: &[u8] = b"too long\n";
    let rows = [
        ("check", MOST_BYTES, Status::No, refused),
        ("run", MOST_BYTES, Status::BadInput, refused),
        ("check", MOST_BYTES + 1, Status::TooLong, too_long),
        ("run", MOST_BYTES + 1, Status::TooLong, too_long),
    ];
    for (word, lines, status, written) in rows {
        let ends = ends(&rt, rt.alloc(), word, lines, status, written)?;
        assert!(rt; ends);
    }
    Ok(())
}

// Behind the first byte that is too many nothing is read.
#[test]
fn a_longer_input_keeps_its_rest(rt: HostRuntime) -> Result<(), Fail> {
    let alloc = rt.alloc();
    let mut source = SureSource::new(vec![in alloc; b'a'; MOST_BYTES + 11]?);
    let mut sink = FixedSink::<ROOM>::new();
    let status = tool_call(alloc, &Tool::Check, &mut source, &mut sink);
    assert_eq!(rt; status, Status::TooLong);
    let mut rest = [0; 20];
    assert_eq!(rt; source.read(&mut rest), Ok(10));
    Ok(())
}
