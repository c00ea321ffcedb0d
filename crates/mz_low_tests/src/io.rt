//! Sources and sinks in memory and over std, and the faults that they count.
ghost use Rattle.std.specs.Prelude.{◌≤◌};

use mz_io::{
    Failed, FixedSink, Gate, MemSink, MemSource, OpenGate, Sink, Source, StdSink, StdSource,
    SureSource, write_all,
};
use std::io;
use std::io::{Read, Write};
use std::test::Fail;

const UNTOUCHED: u8 = b'.';

// Reads once into the first of four bytes and says what came, through the trait alone.
fn read_once<S: Source>(source: &mut S, room: usize) -> (Option<usize>, [u8; 4])
    requires { room ≤ 4 }
{
    let mut buf = [UNTOUCHED; 4];
    let count = source.read(&mut buf[..room]).ok();
    (count, buf)
}

// Writes once and says how much was taken, through the trait alone.
fn write_once<K: Sink>(sink: &mut K, piece: &[u8]) -> Option<usize> {
    sink.write(piece).ok()
}

// Writes a piece and then none, and says each time how much was taken and how many calls have failed.
fn write_twice<W: Write + Drop>(writer: W, piece: &[u8]) -> [(Option<usize>, u64); 2] {
    let mut sink = StdSink::new(writer);
    let first = write_once(&mut sink, piece);
    let faults = sink.faults();
    let second = write_once(&mut sink, b"");
    [(first, faults), (second, sink.faults())]
}

// A reader that always fails, and a writer whose writes do.
#[derive(Drop)]
struct Broken;

impl Read for Broken {
    fn read(&mut self, _buf: &mut [u8]) -> io::Result<usize> {
        Err(io::Error::from(io::ErrorKind::Other))
    }
}

impl Write for Broken {
    fn write(&mut self, _bytes: &[u8]) -> io::Result<usize> {
        Err(io::Error::from(io::ErrorKind::Other))
    }

    fn flush(&mut self) -> io::Result<()> {
        Ok(())
    }
}

// A writer that takes two bytes of a piece and no more.
#[derive(Drop)]
struct Slow;

impl Write for Slow {
    fn write(&mut self, bytes: &[u8]) -> io::Result<usize> {
        Ok(bytes.len().min(2))
    }

    fn flush(&mut self) -> io::Result<()> {
        Ok(())
    }
}

// A writer that takes everything, and whose flushes fail.
#[derive(Drop)]
struct Stuck;

impl Write for Stuck {
    fn write(&mut self, bytes: &[u8]) -> io::Result<usize> {
        Ok(bytes.len())
    }

    fn flush(&mut self) -> io::Result<()> {
        Err(io::Error::from(io::ErrorKind::Other))
    }
}

#[test]
fn a_mem_source_gives_little_and_fails_where_it_is_told_to(rt: HostRuntime) -> Result<(), Fail> {
    let alloc = rt.alloc();
    let mut source = MemSource::new(b"hello".to_vec(alloc)?, 2, [1].to_vec(alloc)?);
    let rows = [
        (Some(2), *b"he.."),
        (None, *b"...."),
        (Some(2), *b"ll.."),
        (Some(1), *b"o..."),
        (Some(0), *b"...."),
    ];
    for row in rows {
        assert_eq!(rt; read_once(&mut source, 4), row);
    }
    assert_eq!(rt; source.faults(), 1);
    Ok(())
}

#[test]
fn a_mem_sink_keeps_what_it_has_room_for(rt: HostRuntime) -> Result<(), Fail> {
    let alloc = rt.alloc();
    let mut sink = MemSink::new(alloc, 4, 3, [1].to_vec(alloc)?)?;
    // The piece, how much is taken of it, the bytes that are kept then, and how many were dropped.
    let rows = [
        ("abcdef", Some(3), "abc", 0),
        ("def", None, "abc", 0),
        ("def", Some(3), "abcd", 2),
        ("", Some(0), "abcd", 2),
    ];
    for (piece, count, kept, dropped) in rows {
        let taken = write_once(&mut sink, piece.as_bytes());
        let same = sink.bytes() == kept.as_bytes();
        assert_eq!(rt; (taken, same, sink.dropped()), (count, true, dropped));
    }
    assert_eq!(rt; sink.faults(), 1);
    Ok(())
}

#[test]
fn a_sure_source_gives_all_that_there_is_room_for(rt: HostRuntime) -> Result<(), Fail> {
    let mut source = SureSource::new(b"hello".to_vec(rt.alloc())?);
    for row in [
        (Some(3), *b"hel."),
        (Some(2), *b"lo.."),
        (Some(0), *b"...."),
    ] {
        assert_eq!(rt; read_once(&mut source, 3), row);
    }
    Ok(())
}

#[test]
fn a_fixed_sink_takes_all_and_keeps_the_first(rt: HostRuntime) {
    let mut sink = FixedSink::<4>::new();
    for (piece, kept, dropped) in [("abc", "abc", 0), ("def", "abcd", 2)] {
        let taken = write_once(&mut sink, piece.as_bytes());
        let same = sink.bytes() == kept.as_bytes();
        assert_eq!(rt; (taken, same, sink.dropped()), (Some(3), true, dropped));
    }
}

#[test]
fn a_std_source_gives_what_its_reader_gives(rt: HostRuntime) {
    let mut source = StdSource::new(b"hi".as_slice());
    for row in [(Some(2), *b"hi.."), (Some(0), *b"....")] {
        assert_eq!(rt; (read_once(&mut source, 3), source.faults()), (row, 0));
    }
    let mut broken = StdSource::new(Broken);
    assert_eq!(rt;
        (read_once(&mut broken, 3), broken.faults()),
        ((None, *b"...."), 1)
    );
}

#[test]
fn a_std_sink_hands_its_bytes_to_the_writer(rt: HostRuntime) {
    let mut written = Vec::new(rt.alloc());
    let mut sink = StdSink::new(&mut written);
    assert_eq!(rt; (write_once(&mut sink, b"hi"), sink.faults()), (Some(2), 0));
    assert_eq!(rt; written.as_slice(), b"hi".as_slice());
}

#[test]
fn an_output_is_written_whole_or_cut_short_at_a_fault(rt: HostRuntime) -> Result<(), Fail> {
    let alloc = rt.alloc();
    let mut sink = MemSink::new(alloc, 8, 3, [2].to_vec(alloc)?)?;
    for (piece, answer) in [("hello", Ok(())), ("abc", Err(Failed))] {
        let got = write_all(&mut sink, piece.as_bytes());
        let same = sink.bytes() == b"hello".as_slice();
        assert_eq!(rt; (got, same), (answer, true));
    }
    Ok(())
}

#[test]
fn a_short_write_takes_what_its_writer_took(rt: HostRuntime) {
    assert_eq!(rt; write_twice(Slow, b"abc"), [(Some(2), 0), (Some(0), 0)]);
}

#[test]
fn a_write_or_a_flush_that_fails_is_a_fault(rt: HostRuntime) {
    assert_eq!(rt; write_twice(Broken, b"hi"), [(None, 1), (None, 2)]);
    assert_eq!(rt; write_twice(Stuck, b"hi"), [(None, 1), (None, 2)]);
}

#[test]
fn a_writer_that_takes_nothing_is_a_fault(rt: HostRuntime) {
    let mut nothing = [];
    let got = write_twice(nothing.as_mut_slice(), b"hi");
    assert_eq!(rt; got, [(None, 1), (Some(0), 1)]);
}

#[test]
fn the_open_gate_lets_everybody_pass(rt: HostRuntime) {
    OpenGate.pass(&rt, 3, 0);
}
