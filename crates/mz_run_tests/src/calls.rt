//! What a caller of the calls knows of how they end, and the words and statuses of the program.

ghost use Rattle.std.specs.Prelude.{◌≡◌, ◌≤◌, ◌⊎◌, ℕ, None, length};
ghost use Rattle.mz_run.specs.Built.{HasUnbuilt};
ghost use Rattle.mz_run.specs.Top.{most_bytes};
ghost use Rattle.mz_trace.specs.Faults.{bad_line_of};

use super::first_block::{ROOM, TRACE};
use mz_io::{FixedSink, OpenGate, SureSource};
use mz_run::laws::completeness;
use mz_run::{RunJob, Status, Tool, mzone_main, run_call, tool_call};
use std::alloc::Global;
use std::sync::Wait;
use std::test::Fail;
use std::thread::Threads;

const USAGE: &[u8] =
    b"usage: mzone run | stress SEED COUNT | check | audit | gen SEED COUNT | image | heap | regions\n";

// Over a source that tells its bytes and a sink, neither of which ever fails, a check says whether
// the bytes are a trace. This is proved, for every input.
fn check_surely(alloc: Global, source: &mut SureSource, sink: &mut FixedSink<ROOM>) -> Status
    requires { length source.old ≤ most_bytes }
    ensures { (result ≡ Status.Done) ⊎ ((result ≡ Status.No) ⊎ (result ≡ Status.NoMemory)) }
{
    tool_call(alloc, &Tool::Check, source, sink)
}

// And a run of a trace, each of whose lines is built, is done.
fn run_surely<R: Threads + Wait + Sync>(
    rt: &R,
    alloc: Global,
    source: &mut SureSource,
    sink: &mut FixedSink<ROOM>,
) -> Status
    requires few { length source.old ≤ most_bytes }
    requires good { bad_line_of source.old ≡ None }
    requires built { (line : ℕ) → ¬ HasUnbuilt source.old line }
    ensures { (result ≡ Status.Done) ⊎ (result ≡ Status.NoMemory) }
{
    completeness();
    run_call(rt, alloc, &RunJob::Trace, source, sink, &OpenGate)
}

#[test]
fn a_check_that_never_fails(rt: HostRuntime) -> Result<(), Fail> {
    let alloc = rt.alloc();
    let mut source = SureSource::new(TRACE.as_bytes().to_vec(alloc)?);
    let mut sink = FixedSink::<ROOM>::new();
    assert_eq!(rt; check_surely(alloc, &mut source, &mut sink), Status::Done);
    assert_eq!(rt; sink.bytes(), b"ok\n".as_slice());
    Ok(())
}

#[test]
fn no_words(rt: HostRuntime) -> Result<(), Fail> {
    let alloc = rt.alloc();
    let mut source = SureSource::new(TRACE.as_bytes().to_vec(alloc)?);
    let mut sink = FixedSink::<ROOM>::new();
    let status = mzone_main(&rt, alloc, &[], &mut source, &mut sink, &OpenGate);
    assert_eq!(rt; status, Status::Usage);
    assert_eq!(rt; sink.bytes(), USAGE);
    Ok(())
}

#[test]
fn numbers_of_statuses(rt: HostRuntime) {
    let statuses = [
        Status::Done,
        Status::No,
        Status::Usage,
        Status::BadInput,
        Status::ReadFault,
        Status::WriteFault,
        Status::NoMemory,
        Status::TooLong,
    ];
    for (status, number) in statuses.iter().zip(0u8..) {
        assert_eq!(rt; status.number(), number);
    }
}
