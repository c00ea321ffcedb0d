//! From a trace to its text in normal form.
//!
//! Each function but `print_trace` adds the text of its name to `out`. After an error a part of that
//! text may stand there.

ghost use Rattle.std.specs.Prelude.{◌≡◌, ◌++◌, OnOk, IfOk, string_bytes, map};
ghost use Rattle.mz_words.specs.Lines.{line_text};
ghost use Rattle.mz_lines.specs.declared.line.Line.TheVariants.{Start as start, Call as call};
ghost use Rattle.mz_lines.specs.Lines.{line_words};
ghost use Rattle.mz_trace.specs.Rounds.{call_line, calls_from, round_lines, lines_of_rounds};
ghost use Rattle.mz_trace.specs.Texts.{lines_text, normal_text, IsTrace, IsTraceText};

use crate::round::Round;
use crate::trace::Trace;
use mz_base::Items;
use mz_lines::command::write_command;
use mz_lines::round_line::write_start;
use mz_lines::space::write_space;
use mz_lines::{Command, RoundLine};
use std::alloc::{AllocError, Global};

/// The text of a trace in normal form: in each round the lines at its start, then the commands of
/// caller 0, then those of caller 1, and so on.
pub fn print_trace(alloc: Global, trace: &Trace) -> Result<Vec<u8>, AllocError>
    ensures normal { IfOk result (λ text. text.items ≡ normal_text trace.now) }
    ensures text { IfOk result (λ text. IsTrace trace.now → IsTraceText text.items trace.now) }
{
    let mut out = String::new(alloc);
    out.push_str("mzone-trace 1\n")?;
    write_space(&mut out, &trace.profile)?;
    print_rounds(&mut out, trace.rounds.as_slice())?;
    Ok(out.into_bytes())
}

fn print_rounds(out: &mut String, rounds: &[Round]) -> Result<(), AllocError>
    ensures { OnOk result (string_bytes out.new ≡ string_bytes out.old ++ lines_text (lines_of_rounds rounds.now)) }
{
    for round in rounds {
        print_round(out, round)?;
    }
    Ok(())
}

/// The lines of a round.
fn print_round(out: &mut String, round: &Round) -> Result<(), AllocError>
    ensures { OnOk result (string_bytes out.new ≡ string_bytes out.old ++ lines_text (round_lines round.now)) }
{
    out.push_str("round\n")?;
    print_starts(out, round.lines.as_slice())?;
    print_callers(out, round.commands.as_slice())
}

/// The lines at the start of a round.
fn print_starts(out: &mut String, lines: &[RoundLine]) -> Result<(), AllocError>
    ensures { OnOk result (string_bytes out.new ≡ string_bytes out.old ++ lines_text (map start lines.now)) }
{
    for line in lines {
        write_start(out, line)?;
        out.push_str("\n")?;
    }
    Ok(())
}

/// The lines of all callers, caller 0's first.
fn print_callers(out: &mut String, lists: &[Items<Command>]) -> Result<(), AllocError>
    ensures { OnOk result (string_bytes out.new ≡ string_bytes out.old ++ lines_text (map call_line (calls_from 0 lists.now))) }
{
    for (caller, commands) in lists.iter().enumerate() {
        print_calls(out, caller, commands.as_slice())?;
    }
    Ok(())
}

/// The lines of one caller.
fn print_calls(out: &mut String, caller: usize, commands: &[Command]) -> Result<(), AllocError>
    ensures { OnOk result (string_bytes out.new ≡ string_bytes out.old ++ lines_text (map (λ c. call caller c) commands.now)) }
{
    for command in commands {
        print_call(out, caller, command)?;
    }
    Ok(())
}

/// A line of a caller.
fn print_call(out: &mut String, caller: usize, command: &Command) -> Result<(), AllocError>
    ensures { OnOk result (string_bytes out.new ≡ string_bytes out.old ++ line_text (line_words (call caller command.now))) }
{
    write!(out, "{caller} ")?;
    write_command(out, command)?;
    out.push_str("\n")
}
