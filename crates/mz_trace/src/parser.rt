//! From bytes to the trace that they are.

ghost use Rattle.std.specs.Prelude.{◌≡◌, ◌<◌, ◌+◌, ◌^◌, None, Ok, IfOk, OnOk, IfErr, MatchResult, length};
ghost use Rattle.mz_words.specs.Lines.{cut_of, cuts};
ghost use Rattle.mz_trace.specs.Faults.{Fails, why_of, first, bad_line_of};
ghost use Rattle.mz_trace.specs.declared.trace.Trace.{Trace as trace};
ghost use Rattle.mz_trace.specs.declared.fault.TraceFault.TheVariants.{NoMemory};
ghost use Rattle.mz_trace.specs.Texts.{IsTrace, IsTraceText};
ghost use Rattle.mz_trace.specs.Readers.{ComesTo, second_in, text_behind, text_read};

use crate::fault::TraceFault;
use crate::reader::Reader;
use crate::trace::Trace;
use mz_base::Profile;
use mz_lines::Why;
use mz_lines::laws::line_laws;
use mz_lines::space::read_space;
use mz_words::line::is_plain;
use mz_words::{RawLine, next_line, words};
use std::alloc::{AllocError, Global};

/// The trace that the bytes are a text of, or the first line that is bad.
pub fn parse(alloc: Global, bytes: &[u8]) -> Result<Trace, TraceFault>
    // What is read is a trace of this text, and a text of a trace is read, unless memory runs out.
    ensures found { IfOk result (λ t. IsTraceText bytes.now t) }
    ensures only { (t : trace) → IsTraceText bytes.now t → MatchResult result (λ u. u ≡ t) (λ e. e ≡ NoMemory) }

    // Where there is none, it is the first bad line that is told, and its first why.
    ensures good { OnOk result (bad_line_of bytes.now ≡ None) }
    ensures bad { IfErr result (Fails (bad_line_of bytes.now)) }

    // It keeps all rules of a trace, so that it has a normal form.
    ensures trace { IfOk result (λ t. IsTrace t) }
{
    line_laws();
    read_all(alloc, bytes)
}

/// The trace of the lines, one after the other.
fn read_all(alloc: Global, bytes: &[u8]) -> Result<Trace, TraceFault>
    ensures { ComesTo (text_read (cuts bytes.now)) result }
{
    let Some((first, rest)) = next_line(bytes) else {
        return Err(TraceFault::Bad {
            line: 1,
            why: Why::NotTrace.number(),
        });
    };
    if let Some(why) = first_why(&first) {
        let why = why.number();
        return Err(TraceFault::Bad { line: 1, why });
    }
    let Some((second, rest)) = next_line(rest) else {
        return Err(TraceFault::Bad {
            line: 2,
            why: Why::NotSpace.number(),
        });
    };
    let profile = match second_line(alloc, &second)? {
        Ok(profile) => profile,
        Err(why) => {
            let why = why.number();
            return Err(TraceFault::Bad { line: 2, why });
        }
    };
    later_lines(alloc, profile, rest)
}

/// The first why that holds of the first line.
fn first_why(line: &RawLine<'_>) -> Option<Why>
    ensures { result ≡ why_of first (cut_of line.now) }
{
    if !is_plain(line) {
        Some(Why::NotPlain)
    } else if line.text != b"mzone-trace 1".as_slice() {
        Some(Why::NotTrace)
    } else {
        None
    }
}

/// The profile of the second line, or the first why that holds of it.
fn second_line(alloc: Global, line: &RawLine<'_>) -> Result<Result<Profile, Why>, AllocError>
    ensures { IfOk result (λ r. r ≡ second_in (cut_of line.now)) }
{
    if !is_plain(line) {
        return Ok(Err(Why::NotPlain));
    }
    let words = words(alloc, line.text)?;
    match read_space(&words) {
        Some(profile) => Ok(Ok(profile)),
        None => Ok(Err(Why::NotSpace)),
    }
}

/// The trace with this profile, of which these are the lines from the third on.
fn later_lines(alloc: Global, profile: Profile, bytes: &[u8]) -> Result<Trace, TraceFault>
    requires { length bytes.now + 3 < 2 ^ 64 }
    ensures { ComesTo (text_behind (Ok profile) (cuts bytes.now)) result }
{
    let callers = profile.callers;
    let mut reader = Reader::new(alloc, callers)?;
    let mut rest = bytes;
    let mut number: u64 = 3;
    while let Some((line, after)) = next_line(rest) {
        if let Some(why) = reader.read_line(alloc, callers, &line)? {
            let why = why.number();
            return Err(TraceFault::Bad { line: number, why });
        }
        rest = after;
        number += 1;
    }
    let rounds = reader.finish()?;
    Ok(Trace { profile, rounds })
}
