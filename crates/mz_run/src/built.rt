//! Whether a trace can be run.

ghost use Rattle.std.specs.Prelude.{◌≡◌, ◌+◌, ◌<◌, ◌^◌, ℕ, IsTrue, length, map};
ghost use Rattle.mz_run.specs.Built.{is_built_space, is_built_command, unbuilt_line};
ghost use Rattle.mz_run.specs.Passing.{passed};
ghost use Rattle.mz_lines.specs.declared.line.Line.TheVariants as trace_line;
ghost use Rattle.mz_trace.specs.Rounds.{call_line, calls_from, round_lines, lines_of_rounds};
ghost use Rattle.mz_trace.specs.Texts.{lines_of};

use mz_base::{Items, Profile};
use mz_trace::{Command, Round, Trace};

/// The number of the second line of a trace, which has the space.
const SPACE_LINE: u64 = 2;

/// The number of a line that isn't built.
#[derive(Clone, Copy, Debug, PartialEq, Eq)]
pub struct Unbuilt {
    pub line: u64,
}

/// The first line of a trace that can't be run yet, counted from 1, if there is one. Lines are those
/// of the normal form.
pub fn unbuilt_line(trace: &Trace) -> Option<u64>
    requires { IsTrue (is_built_space trace.now.profile) → 3 + length (lines_of trace.now) < 2 ^ 64 }
    ensures { result ≡ unbuilt_line trace.now.profile (lines_of trace.now) }
{
    if !is_built_space(&trace.profile) {
        return Some(SPACE_LINE);
    }
    match pass_rounds(trace.rounds.as_slice(), SPACE_LINE + 1) {
        Ok(_behind) => None,
        Err(unbuilt) => Some(unbuilt.line),
    }
}

fn is_built_space(space: &Profile) -> bool
    ensures { result ≡ is_built_space space.now }
{
    space.callers == 1 && space.zones == 1
}

fn is_built_command(command: &Command) -> bool
    ensures { result ≡ is_built_command command.now }
{
    !matches!(command, Command::ZoneFree { .. } | Command::Use { .. })
}

// Each of the following goes over lines of which the first has the given number, and tells the number
// of the line behind them.

fn pass_rounds(rounds: &[Round], mut line: u64) -> Result<u64, Unbuilt>
    requires { line + length (lines_of_rounds rounds.now) < 2 ^ 64 }
    ensures { result ≡ passed line (lines_of_rounds rounds.now) }
{
    for round in rounds {
        line = pass_round(round, line)?;
    }
    Ok(line)
}

fn pass_round(round: &Round, line: u64) -> Result<u64, Unbuilt>
    requires { line + length (round_lines round.now) < 2 ^ 64 }
    ensures { result ≡ passed line (round_lines round.now) }
{
    let line = line + 1;
    if !round.lines.as_slice().is_empty() {
        return Err(Unbuilt { line });
    }
    pass_lists(round.commands.as_slice(), line)
}

fn pass_lists(lists: &[Items<Command>], mut line: u64) -> Result<u64, Unbuilt>
    requires { line + length (calls_from 0 lists.now) < 2 ^ 64 }
    ensures { result ≡ passed line (map call_line (calls_from 0 lists.now)) }
{
    for commands in lists {
        line = pass_commands(commands.as_slice(), line)?;
    }
    Ok(line)
}

fn pass_commands(commands: &[Command], mut line: u64) -> Result<u64, Unbuilt>
    requires { line + length commands.now < 2 ^ 64 }
    ensures { (caller : ℕ) → result ≡ passed line (map (trace_line.Call caller) commands.now) }
{
    for command in commands {
        if !is_built_command(command) {
            return Err(Unbuilt { line });
        }
        line += 1;
    }
    Ok(line)
}
