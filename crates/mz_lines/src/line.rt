//! The lines of a trace behind its first two.

ghost use Rattle.std.specs.Prelude.{◌≡◌, IfOk, map};
ghost use Rattle.mz_lines.specs.Whys.{begins_with_digit};
ghost use Rattle.mz_lines.specs.LineReading.{call_in, heading_in, heading_of, line_in};

use crate::command::{Command, read_command};
use crate::round_line::{RoundLine, start_of};
use mz_words::numbers::caller;
use mz_words::table::ROUND_LINES;
use mz_words::{Form, Word, read_sentence};
use std::alloc::{AllocError, Global};
use std::marker::Model;

/// A line behind the first two.
#[derive(Clone, Copy, Debug, PartialEq, Eq)]
pub enum Line {
    /// A round begins.
    Round,
    /// Something is done at the start of a round.
    Start(RoundLine),
    /// A caller asks for something.
    Call { caller: u32, command: Command },
}

/// A line that was read. Contracts see the `Line`.
#[derive(Clone, Copy, Debug, PartialEq, Eq)]
pub struct LineRead {
    line: Line,
}

impl Model for LineRead {
    ghost use Rattle.mz_lines.specs.declared.line.Line.{Line};

    ghost Value = { Line };

    ghost view = { λ s. s.line };

    ghost inverse = { λ v. record { line = v } };
}

impl LineRead {
    /// This line.
    fn new(line: Line) -> LineRead
        ensures { result ≡ line }
    {
        LineRead { line }
    }

    /// Which line it is.
    pub fn get(&self) -> &Line
        ensures { result.now ≡ self.now }
    {
        &self.line
    }
}

/// Whether a word begins with a digit, as the first of a caller's line does.
pub fn begins_with_digit(word: &[u8]) -> bool
    ensures { result ≡ begins_with_digit word.now }
{
    match word {
        [] => false,
        [first, ..] => first.is_ascii_digit(),
    }
}

/// The line that words are, or None where they are none.
pub fn read_line(
    alloc: Global,
    callers: u32,
    words: &[&[u8]],
) -> Result<Option<LineRead>, AllocError>
    ensures { IfOk result (λ o. o ≡ line_in callers (map (λ w. w.now) words.now)) }
{
    match words {
        [] => Ok(None),
        [first, rest @ ..] => {
            if begins_with_digit(first) {
                read_call(alloc, callers, first, rest)
            } else {
                read_heading(alloc, callers, words)
            }
        }
    }
}

/// The line of a caller, whose number comes first.
fn read_call(
    alloc: Global,
    callers: u32,
    first: &[u8],
    rest: &[&[u8]],
) -> Result<Option<LineRead>, AllocError>
    ensures { IfOk result (λ o. o ≡ call_in callers first.now (map (λ w. w.now) rest.now)) }
{
    match caller(callers, first) {
        None => Ok(None),
        Some(caller) => match read_command(alloc, callers, rest)? {
            None => Ok(None),
            Some(command) => Ok(Some(LineRead::new(Line::Call { caller, command }))),
        },
    }
}

/// `round`, or a line at the start of one.
fn read_heading(
    alloc: Global,
    callers: u32,
    words: &[&[u8]],
) -> Result<Option<LineRead>, AllocError>
    ensures { IfOk result (λ o. o ≡ heading_in callers (map (λ w. w.now) words.now)) }
{
    match read_sentence(alloc, callers, &ROUND_LINES, words)? {
        Some(sentence) => Ok(heading_of(sentence.form, sentence.words.as_slice())),
        None => Ok(None),
    }
}

/// The line that a sentence is.
fn heading_of(form: Form, words: &[Word]) -> Option<LineRead>
    ensures { result ≡ heading_of form words.now }
{
    match form {
        Form::Round => match words {
            [] => Some(LineRead::new(Line::Round)),
            _ => None,
        },
        _ => {
            let line = start_of(form, words)?;
            Some(LineRead::new(Line::Start(line)))
        }
    }
}
