//! What the next line adds to the rounds of a printed run.

ghost use Rattle.std.specs.Prelude.{◌≡◌, IfOk};
ghost use Rattle.mz_transcript.specs.Stages.{asked, call_closed, call_told, in_section, in_starts, next_section, outside, rounds_with, start_told};

use crate::book::Book;
use crate::line::RunLine;
use crate::part::Part;
use crate::stage::Stage;
use mz_base::Items;
use mz_trace::given::given_by;
use mz_trace::{CallRecord, Command, RoundLine, RunEntry, StartRecord};
use std::alloc::{AllocError, Global};

/// One more line of the rounds.
pub fn rounds_with(
    alloc: Global,
    book: Book,
    part: Part,
    line: RunLine,
) -> Result<Option<Stage>, AllocError>
    ensures { IfOk result (λ s. s ≡ rounds_with book part line) }
{
    match part {
        Part::Outside => Ok(outside(alloc, book, line)),
        Part::Starts { starts } => Ok(in_starts(alloc, book, starts, line)),
        Part::Start {
            starts,
            line: asked,
            steps,
        } => start_told(book, starts, asked, steps, line),
        Part::Section {
            starts,
            lists,
            calls,
        } => in_section(alloc, book, starts, lists, calls, line),
        Part::Call {
            starts,
            lists,
            calls,
            command,
            steps,
        } => call_told(book, starts, lists, calls, command, steps, line),
    }
}

/// A line before the first round.
fn outside(alloc: Global, book: Book, line: RunLine) -> Option<Stage>
    ensures { result ≡ outside book line }
{
    match line {
        RunLine::Round => book.open(alloc),
        RunLine::End => Some(book.end(alloc)),
        _ => None,
    }
}

/// A line at the start of a round, or the first caller's section.
fn in_starts(alloc: Global, book: Book, starts: Items<StartRecord>, line: RunLine) -> Option<Stage>
    ensures { result ≡ in_starts book starts line }
{
    match line {
        RunLine::Start { line } => {
            let steps = Items::new(alloc);
            let part = Part::Start {
                starts,
                line,
                steps,
            };
            Some(Stage::Rounds { book, part })
        }
        RunLine::Caller { number } => {
            if number != 0 {
                return None;
            }
            let part = Part::Section {
                starts,
                lists: Items::new(alloc),
                calls: Items::new(alloc),
            };
            Some(Stage::Rounds { book, part })
        }
        _ => None,
    }
}

/// An entry or the answer of a line at the start of a round.
fn start_told(
    book: Book,
    starts: Items<StartRecord>,
    line: RoundLine,
    steps: Items<RunEntry>,
    told: RunLine,
) -> Result<Option<Stage>, AllocError>
    ensures { IfOk result (λ s. s ≡ start_told book starts line steps told) }
{
    match told {
        RunLine::Entry { entry } => {
            let mut steps = steps;
            steps.push(entry)?;
            let part = Part::Start {
                starts,
                line,
                steps,
            };
            Ok(Some(Stage::Rounds { book, part }))
        }
        RunLine::Answer { answer } => {
            let mut starts = starts;
            starts.push(StartRecord {
                line,
                steps,
                answer,
            })?;
            let part = Part::Starts { starts };
            Ok(Some(Stage::Rounds { book, part }))
        }
        _ => Ok(None),
    }
}

/// A command, or the heading behind the section.
fn in_section(
    alloc: Global,
    book: Book,
    starts: Items<StartRecord>,
    lists: Items<Items<CallRecord>>,
    calls: Items<CallRecord>,
    line: RunLine,
) -> Result<Option<Stage>, AllocError>
    ensures { IfOk result (λ s. s ≡ in_section book starts lists calls line) }
{
    match line {
        RunLine::Call { command } => ask(alloc, book, starts, lists, calls, command),
        RunLine::Caller { number } => next_section(alloc, book, starts, lists, calls, number),
        RunLine::Round => match book.close(starts, lists, calls)? {
            None => Ok(None),
            Some(book) => Ok(book.open(alloc)),
        },
        RunLine::End => match book.close(starts, lists, calls)? {
            None => Ok(None),
            Some(book) => Ok(Some(book.end(alloc))),
        },
        _ => Ok(None),
    }
}

/// A command is asked, whose name for a block that it gives is a new one.
fn ask(
    alloc: Global,
    mut book: Book,
    starts: Items<StartRecord>,
    lists: Items<Items<CallRecord>>,
    calls: Items<CallRecord>,
    command: Command,
) -> Result<Option<Stage>, AllocError>
    ensures { IfOk result (λ s. s ≡ asked book starts lists calls command) }
{
    if let Some(base) = given_by(&command) {
        if book.given.contains(&base) {
            return Ok(None);
        }
        book.given.insert(base)?;
    }
    let part = Part::Call {
        starts,
        lists,
        calls,
        command,
        steps: Items::new(alloc),
    };
    Ok(Some(Stage::Rounds { book, part }))
}

/// The section of the caller with this number, if that is the next one.
fn next_section(
    alloc: Global,
    book: Book,
    starts: Items<StartRecord>,
    lists: Items<Items<CallRecord>>,
    calls: Items<CallRecord>,
    number: u64,
) -> Result<Option<Stage>, AllocError>
    ensures { IfOk result (λ s. s ≡ next_section book starts lists calls number) }
{
    let closed = lists.as_slice().len() as u64 + 1;
    if number != closed || number >= u64::from(book.profile.callers) {
        return Ok(None);
    }
    let mut lists = lists;
    lists.push(calls)?;
    let part = Part::Section {
        starts,
        lists,
        calls: Items::new(alloc),
    };
    Ok(Some(Stage::Rounds { book, part }))
}

/// An entry or the answer of a command.
fn call_told(
    book: Book,
    starts: Items<StartRecord>,
    lists: Items<Items<CallRecord>>,
    calls: Items<CallRecord>,
    command: Command,
    steps: Items<RunEntry>,
    told: RunLine,
) -> Result<Option<Stage>, AllocError>
    ensures { IfOk result (λ s. s ≡ call_told book starts lists calls command steps told) }
{
    match told {
        RunLine::Entry { entry } => {
            let mut steps = steps;
            steps.push(entry)?;
            let part = Part::Call {
                starts,
                lists,
                calls,
                command,
                steps,
            };
            Ok(Some(Stage::Rounds { book, part }))
        }
        RunLine::Answer { answer } => {
            let call = CallRecord {
                command,
                steps,
                answer,
            };
            close_call(book, starts, lists, calls, call)
        }
        _ => Ok(None),
    }
}

/// The record of a command ends.
fn close_call(
    book: Book,
    starts: Items<StartRecord>,
    lists: Items<Items<CallRecord>>,
    mut calls: Items<CallRecord>,
    call: CallRecord,
) -> Result<Option<Stage>, AllocError>
    ensures { IfOk result (λ s. s ≡ call_closed book starts lists calls call) }
{
    calls.push(call)?;
    let part = Part::Section {
        starts,
        lists,
        calls,
    };
    Ok(Some(Stage::Rounds { book, part }))
}
