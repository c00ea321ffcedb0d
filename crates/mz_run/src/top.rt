//! The whole of a call, from its words, its source and its sink to its status.

ghost use Rattle.std.specs.Prelude.{◌≡◌, ◌≤◌, ◌++◌, IfOk, IfErr, OnErr, length, map, string_bytes};
ghost use Rattle.mz_io.specs.Count.{Rose};
ghost use Rattle.mz_run.specs.Replies.{IsSaid, EndsWith};
ghost use Rattle.mz_trace.specs.RunTexts.{run_text};
ghost use Rattle.mz_trace.specs.TailTexts.{tail_text};
ghost use Rattle.mz_run.specs.Top.{seen, most_bytes, CountsKept, IsBounded, RunSays, CheckSays, Says, CallEnds, JobEnds, MainEnds};

use crate::built::unbuilt_line;
use crate::input::{Input, InputError};
use crate::job::{Job, RunJob, Tool, job_of};
use crate::reply::Reply;
use crate::status::Status;
use crate::{allocator, input};
use mz_io::{Failed, Gate, Sink, Source, write_all};
use mz_trace::{Figures, Run, Tail, TraceFault, parse, print_run};
use std::alloc::{AllocError, Global};
use std::sync::Wait;
use std::thread::Threads;

/// The number of the why of a line that isn't built. Those of faults of a trace are below.
const UNBUILT: u8 = 13;

/// The output for a good trace.
const GOOD_TRACE: &[u8] = b"ok\n";

/// The output for an input with more bytes than it may have.
const TOO_LONG: &[u8] = b"too long\n";

/// The output for words that name no job.
const USAGE: &[u8] =
    b"usage: mzone run | stress SEED COUNT | check | audit | gen SEED COUNT | image | heap | regions\n";

/// The text of a run, and of what stands behind it.
fn print_whole(alloc: Global, run: &Run, figures: Figures) -> Result<Vec<u8>, AllocError>
    ensures { IfOk result (λ output. output.items ≡ run_text run.now ++ tail_text figures) }
{
    let mut output = print_run(alloc, run)?;
    let tail = Tail::new(alloc, figures)?;
    output.extend_from_slice(tail.bytes())?;
    Ok(output)
}

/// Runs the trace that the bytes are, and makes the whole output.
fn run_bytes<R: Wait + Sync, G: Gate>(
    rt: &R,
    alloc: Global,
    bytes: &[u8],
    gate: &G,
) -> Result<Reply, AllocError>
    requires { length bytes.now ≤ most_bytes }
    ensures { IfOk result (λ reply. RunSays bytes.now reply.status reply.output.items) }
{
    let trace = match parse(alloc, bytes) {
        Ok(trace) => trace,
        Err(TraceFault::Bad { line, why }) => {
            return Reply::bad_trace(alloc, Status::BadInput, line, why);
        }
        Err(TraceFault::NoMemory) => return Err(AllocError),
    };
    if let Some(line) = unbuilt_line(&trace) {
        return Reply::bad_trace(alloc, Status::BadInput, line, UNBUILT);
    }
    let (run, figures) = allocator::serve(rt, alloc, &trace, gate)?;
    let output = print_whole(alloc, &run, figures)?;
    Ok(Reply {
        status: Status::Done,
        output,
    })
}

/// Reads the whole input, and runs it.
fn run_reply<R: Wait + Sync, S: Source, G: Gate>(
    rt: &R,
    alloc: Global,
    source: &mut S,
    gate: &G,
) -> Result<Reply, InputError>
    ensures says { IfOk result (λ reply. Says RunSays (S.left source.old) (S.left source.new) reply.status reply.output.items) }
    ensures failed { IfErr result (λ e. e ≡ InputError.Failed
        → Rose (S.faults source.old) (S.faults source.new)) }
    ensures bounded { OnErr result (IsBounded (S.left source.old) (S.left source.new)) }
    ensures kept { S.faults source.old ≤ S.faults source.new }
{
    let reply = match input::read_input(alloc, source)? {
        Input::Whole(bytes) => run_bytes(rt, alloc, &bytes, gate)?,
        Input::TooLong => Reply::new(alloc, Status::TooLong, TOO_LONG)?,
    };
    Ok(reply)
}

/// Tells whether the bytes are the text of a trace.
fn check_bytes(alloc: Global, bytes: &[u8]) -> Result<Reply, AllocError>
    ensures { IfOk result (λ reply. CheckSays bytes.now reply.status reply.output.items) }
{
    match parse(alloc, bytes) {
        Ok(_trace) => Reply::new(alloc, Status::Done, GOOD_TRACE),
        Err(TraceFault::Bad { line, why }) => { Reply::bad_trace(alloc, Status::No, line, why) }
        Err(TraceFault::NoMemory) => Err(AllocError),
    }
}

/// Reads the whole input, and checks it.
fn check_reply<S: Source>(alloc: Global, source: &mut S) -> Result<Reply, InputError>
    ensures says { IfOk result (λ reply. Says CheckSays (S.left source.old) (S.left source.new) reply.status reply.output.items) }
    ensures failed { IfErr result (λ e. e ≡ InputError.Failed
        → Rose (S.faults source.old) (S.faults source.new)) }
    ensures bounded { OnErr result (IsBounded (S.left source.old) (S.left source.new)) }
    ensures kept { S.faults source.old ≤ S.faults source.new }
{
    let reply = match input::read_input(alloc, source)? {
        Input::Whole(bytes) => check_bytes(alloc, &bytes)?,
        Input::TooLong => Reply::new(alloc, Status::TooLong, TOO_LONG)?,
    };
    Ok(reply)
}

/// Writes an output, and then ends by a status.
fn tell<K: Sink>(sink: &mut K, output: &[u8], status: Status) -> Status
    ensures said { IsSaid (K.taken sink.old) (K.taken sink.new) (K.faults sink.old) (K.faults sink.new) status output.now result }
    ensures kept { K.faults sink.old ≤ K.faults sink.new }
{
    match write_all(sink, output) {
        Ok(()) => status,
        Err(Failed) => Status::WriteFault,
    }
}

/// Says what there is to say. Nothing is written before the whole output is made.
fn end<K: Sink>(sink: &mut K, reply: Result<Reply, InputError>) -> Status
    ensures ends { EndsWith (K.taken sink.old) (K.taken sink.new) (K.faults sink.old) (K.faults sink.new) reply result }
    ensures kept { K.faults sink.old ≤ K.faults sink.new }
{
    match reply {
        Ok(reply) => tell(sink, &reply.output, reply.status),
        Err(InputError::Failed) => Status::ReadFault,
        Err(InputError::NoMemory) => Status::NoMemory,
    }
}

/// Runs the trace that the source gives.
fn run_trace<R: Wait + Sync, S: Source, K: Sink, G: Gate>(
    rt: &R,
    alloc: Global,
    source: &mut S,
    sink: &mut K,
    gate: &G,
) -> Status
    ensures ends { CallEnds RunSays
        (seen (S.left source.old) (S.faults source.old) (K.taken sink.old) (K.faults sink.old))
        (seen (S.left source.new) (S.faults source.new) (K.taken sink.new) (K.faults sink.new)) result }
    ensures counts { CountsKept
        (seen (S.left source.old) (S.faults source.old) (K.taken sink.old) (K.faults sink.old))
        (seen (S.left source.new) (S.faults source.new) (K.taken sink.new) (K.faults sink.new)) }
{
    let reply = run_reply(rt, alloc, source, gate);
    end(sink, reply)
}

/// Checks the trace that the source gives.
fn check_trace<S: Source, K: Sink>(alloc: Global, source: &mut S, sink: &mut K) -> Status
    ensures ends { CallEnds CheckSays
        (seen (S.left source.old) (S.faults source.old) (K.taken sink.old) (K.faults sink.old))
        (seen (S.left source.new) (S.faults source.new) (K.taken sink.new) (K.faults sink.new)) result }
    ensures counts { CountsKept
        (seen (S.left source.old) (S.faults source.old) (K.taken sink.old) (K.faults sink.old))
        (seen (S.left source.new) (S.faults source.new) (K.taken sink.new) (K.faults sink.new)) }
{
    let reply = check_reply(alloc, source);
    end(sink, reply)
}

/// Runs the trace that the source gives, and prints what became of each of its commands, and what is
/// live at the end. The gate is passed before each command. Any call may end with want of memory.
///
/// This is the call that carries the program's promise: what it prints is one lawful history of a
/// plain allocator.
pub fn run_call<R: Threads + Wait + Sync, S: Source, K: Sink, G: Gate>(
    rt: &R,
    alloc: Global,
    job: &RunJob,
    source: &mut S,
    sink: &mut K,
    gate: &G,
) -> Status
    ensures ends { JobEnds (Job.Run job.now)
        (seen (S.left source.old) (S.faults source.old) (K.taken sink.old) (K.faults sink.old))
        (seen (S.left source.new) (S.faults source.new) (K.taken sink.new) (K.faults sink.new)) result }
    ensures counts { CountsKept
        (seen (S.left source.old) (S.faults source.old) (K.taken sink.old) (K.faults sink.old))
        (seen (S.left source.new) (S.faults source.new) (K.taken sink.new) (K.faults sink.new)) }
{
    match job {
        RunJob::Trace => run_trace(rt, alloc, source, sink, gate),
    }
}

/// Tells what the tool finds in what the source gives. It waits for nobody.
pub fn tool_call<S: Source, K: Sink>(
    alloc: Global,
    tool: &Tool,
    source: &mut S,
    sink: &mut K,
) -> Status
    ensures ends { JobEnds (Job.Tool tool.now)
        (seen (S.left source.old) (S.faults source.old) (K.taken sink.old) (K.faults sink.old))
        (seen (S.left source.new) (S.faults source.new) (K.taken sink.new) (K.faults sink.new)) result }
    ensures counts { CountsKept
        (seen (S.left source.old) (S.faults source.old) (K.taken sink.old) (K.faults sink.old))
        (seen (S.left source.new) (S.faults source.new) (K.taken sink.new) (K.faults sink.new)) }
{
    match tool {
        Tool::Check => check_trace(alloc, source, sink),
    }
}

/// The whole program: does the job that the words name, or tells how to use it.
pub fn mzone_main<R: Threads + Wait + Sync, S: Source, K: Sink, G: Gate>(
    rt: &R,
    alloc: Global,
    words: &[String],
    source: &mut S,
    sink: &mut K,
    gate: &G,
) -> Status
    ensures ends { MainEnds (map string_bytes words.now)
        (seen (S.left source.old) (S.faults source.old) (K.taken sink.old) (K.faults sink.old))
        (seen (S.left source.new) (S.faults source.new) (K.taken sink.new) (K.faults sink.new)) result }
    ensures counts { CountsKept
        (seen (S.left source.old) (S.faults source.old) (K.taken sink.old) (K.faults sink.old))
        (seen (S.left source.new) (S.faults source.new) (K.taken sink.new) (K.faults sink.new)) }
{
    match job_of(words) {
        Some(Job::Run(job)) => run_call(rt, alloc, &job, source, sink, gate),
        Some(Job::Tool(tool)) => tool_call(alloc, &tool, source, sink),
        None => tell(sink, USAGE, Status::Usage),
    }
}
