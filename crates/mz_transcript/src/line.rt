//! The lines of a printed run, from their words, and which of them may come next.

ghost use Rattle.std.specs.Prelude.{◌≡◌, IfOk, map};
ghost use Rattle.mz_words.specs.Lines.{words_of};
ghost use Rattle.mz_transcript.specs.RunLines.{answer_line_in, bare_heading, block_in, call_line_in, call_or_heading_in, caller_heading, counted, counter_word, entry_line_in, first_in, heading_in, heading_of, line_in, listed_line_in, space_in, start_line_in, start_or_heading_in, statistic_in, told_in};

use crate::entries::read_entry;
use crate::listings::read_listed;
use mz_base::Profile;
use mz_lines::answer::read_answer;
use mz_lines::command::read_command;
use mz_lines::round_line::read_start;
use mz_lines::space::read_space;
use mz_trace::{Answer, Command, Listed, RoundLine, RunEntry};
use mz_words::numbers::number;
use mz_words::words;
use std::alloc::{AllocError, Global};

/// One of the four numbers at the end of a run.
#[derive(Clone, Copy)]
pub enum Counter {
    BlocksInUse,
    SizeInUse,
    MaxSizeInUse,
    SizeAllocated,
}

impl Counter {
    /// The word in front of the number.
    fn word(self) -> &'static [u8]
        ensures { result.now ≡ counter_word self }
    {
        match self {
            Counter::BlocksInUse => b"blocks_in_use",
            Counter::SizeInUse => b"size_in_use",
            Counter::MaxSizeInUse => b"max_size_in_use",
            Counter::SizeAllocated => b"size_allocated",
        }
    }
}

/// A line of a printed run.
#[derive(Clone, Copy)]
pub enum RunLine {
    /// `mzone-run 1`.
    First,
    /// The numbers of the space.
    Space { profile: Profile },
    /// A round begins.
    Round,
    /// The section of a caller begins.
    Caller { number: u64 },
    /// The rounds end.
    End,
    /// A line at the start of a round, behind its `>`.
    Start { line: RoundLine },
    /// A command, behind its `>`.
    Call { command: Command },
    /// An entry of the record that is open.
    Entry { entry: RunEntry },
    /// The answer that ends the record.
    Answer { answer: Answer },
    /// A live block.
    Block { block: Listed },
    /// One of the statistics.
    Statistic { counter: Counter, value: u64 },
}

/// What may come next.
#[derive(Clone, Copy)]
pub enum Due {
    /// The first line.
    First,
    /// The numbers of the space.
    Space,
    /// A heading: `round`, `caller C` or `end`.
    Heading,
    /// A line at the start of a round, or a heading.
    Start,
    /// A command of one of so many callers, or a heading.
    Call { callers: u32 },
    /// An entry, or an answer.
    Told,
    /// A listed block, or the first of the statistics.
    Block,
    /// A further one of the statistics.
    Statistic { counter: Counter },
    /// Nothing more.
    Nothing,
}

/// The line that a text is where this is due, or None where it is none.
pub fn read_text(alloc: Global, due: Due, text: &[u8]) -> Result<Option<RunLine>, AllocError>
    ensures { IfOk result (λ o. o ≡ line_in due (words_of text.now)) }
{
    let words = words(alloc, text)?;
    read_line(alloc, due, &words)
}

/// The line that words are where this is due, or None where they are none.
fn read_line(alloc: Global, due: Due, words: &[&[u8]]) -> Result<Option<RunLine>, AllocError>
    ensures { IfOk result (λ o. o ≡ line_in due (map (λ w. w.now) words.now)) }
{
    match due {
        Due::First => Ok(first(words)),
        Due::Space => Ok(space(words)),
        Due::Heading => Ok(heading(words)),
        Due::Start => read_start_or_heading(alloc, words),
        Due::Call { callers } => read_call_or_heading(alloc, callers, words),
        Due::Told => read_told(alloc, words),
        Due::Block => read_block(alloc, words),
        Due::Statistic { counter } => Ok(statistic(counter, words)),
        Due::Nothing => Ok(None),
    }
}

/// `mzone-run 1`.
fn first(words: &[&[u8]]) -> Option<RunLine>
    ensures { result ≡ first_in (map (λ w. w.now) words.now) }
{
    match words {
        [word, version] => {
            if *word == b"mzone-run".as_slice() && *version == b"1".as_slice() {
                Some(RunLine::First)
            } else {
                None
            }
        }
        _ => None,
    }
}

/// The numbers of the space.
fn space(words: &[&[u8]]) -> Option<RunLine>
    ensures { result ≡ space_in (map (λ w. w.now) words.now) }
{
    let profile = read_space(words)?;
    Some(RunLine::Space { profile })
}

/// `round`, `caller C` or `end`.
fn heading(words: &[&[u8]]) -> Option<RunLine>
    ensures { result ≡ heading_in (map (λ w. w.now) words.now) }
{
    match words {
        [] => None,
        [word, rest @ ..] => heading_of(word, rest),
    }
}

fn heading_of(word: &[u8], rest: &[&[u8]]) -> Option<RunLine>
    ensures { result ≡ heading_of word.now (map (λ w. w.now) rest.now) }
{
    match rest {
        [] => bare_heading(word),
        [caller] => caller_heading(word, caller),
        [_, _, ..] => None,
    }
}

fn bare_heading(word: &[u8]) -> Option<RunLine>
    ensures { result ≡ bare_heading word.now }
{
    if word == b"round".as_slice() {
        Some(RunLine::Round)
    } else if word == b"end".as_slice() {
        Some(RunLine::End)
    } else {
        None
    }
}

fn caller_heading(word: &[u8], caller: &[u8]) -> Option<RunLine>
    ensures { result ≡ caller_heading word.now caller.now }
{
    if word == b"caller".as_slice() {
        let number = number(caller)?;
        Some(RunLine::Caller { number })
    } else {
        None
    }
}

/// A line at the start of a round, or a heading.
fn read_start_or_heading(alloc: Global, words: &[&[u8]]) -> Result<Option<RunLine>, AllocError>
    ensures { IfOk result (λ o. o ≡ start_or_heading_in (map (λ w. w.now) words.now)) }
{
    match words {
        [] => Ok(None),
        [word, rest @ ..] => {
            if *word == b">".as_slice() {
                read_start_line(alloc, rest)
            } else {
                Ok(heading(words))
            }
        }
    }
}

fn read_start_line(alloc: Global, words: &[&[u8]]) -> Result<Option<RunLine>, AllocError>
    ensures { IfOk result (λ o. o ≡ start_line_in (map (λ w. w.now) words.now)) }
{
    match read_start(alloc, 0, words)? {
        None => Ok(None),
        Some(line) => Ok(Some(RunLine::Start { line })),
    }
}

/// A command, or a heading.
fn read_call_or_heading(
    alloc: Global,
    callers: u32,
    words: &[&[u8]],
) -> Result<Option<RunLine>, AllocError>
    ensures { IfOk result (λ o. o ≡ call_or_heading_in callers (map (λ w. w.now) words.now)) }
{
    match words {
        [] => Ok(None),
        [word, rest @ ..] => {
            if *word == b">".as_slice() {
                read_call_line(alloc, callers, rest)
            } else {
                Ok(heading(words))
            }
        }
    }
}

fn read_call_line(
    alloc: Global,
    callers: u32,
    words: &[&[u8]],
) -> Result<Option<RunLine>, AllocError>
    ensures { IfOk result (λ o. o ≡ call_line_in callers (map (λ w. w.now) words.now)) }
{
    match read_command(alloc, callers, words)? {
        None => Ok(None),
        Some(command) => Ok(Some(RunLine::Call { command })),
    }
}

/// An entry, or an answer.
fn read_told(alloc: Global, words: &[&[u8]]) -> Result<Option<RunLine>, AllocError>
    ensures { IfOk result (λ o. o ≡ told_in (map (λ w. w.now) words.now)) }
{
    match words {
        [] => Ok(None),
        [word, rest @ ..] => {
            if *word == b"=".as_slice() {
                read_answer_line(alloc, rest)
            } else {
                read_entry_line(alloc, words)
            }
        }
    }
}

fn read_answer_line(alloc: Global, words: &[&[u8]]) -> Result<Option<RunLine>, AllocError>
    ensures { IfOk result (λ o. o ≡ answer_line_in (map (λ w. w.now) words.now)) }
{
    match read_answer(alloc, words)? {
        None => Ok(None),
        Some(answer) => Ok(Some(RunLine::Answer { answer })),
    }
}

fn read_entry_line(alloc: Global, words: &[&[u8]]) -> Result<Option<RunLine>, AllocError>
    ensures { IfOk result (λ o. o ≡ entry_line_in (map (λ w. w.now) words.now)) }
{
    match read_entry(alloc, words)? {
        None => Ok(None),
        Some(entry) => Ok(Some(RunLine::Entry { entry })),
    }
}

/// A listed block, or the first of the statistics.
fn read_block(alloc: Global, words: &[&[u8]]) -> Result<Option<RunLine>, AllocError>
    ensures { IfOk result (λ o. o ≡ block_in (map (λ w. w.now) words.now)) }
{
    match words {
        [] => Ok(None),
        [word, ..] => {
            if *word == b"block".as_slice() {
                read_listed_line(alloc, words)
            } else {
                Ok(statistic(Counter::BlocksInUse, words))
            }
        }
    }
}

fn read_listed_line(alloc: Global, words: &[&[u8]]) -> Result<Option<RunLine>, AllocError>
    ensures { IfOk result (λ o. o ≡ listed_line_in (map (λ w. w.now) words.now)) }
{
    match read_listed(alloc, words)? {
        None => Ok(None),
        Some(block) => Ok(Some(RunLine::Block { block })),
    }
}

/// The line of this counter.
fn statistic(counter: Counter, words: &[&[u8]]) -> Option<RunLine>
    ensures { result ≡ statistic_in counter (map (λ w. w.now) words.now) }
{
    match words {
        [word, value] => counted(counter, word, value),
        _ => None,
    }
}

fn counted(counter: Counter, word: &[u8], value: &[u8]) -> Option<RunLine>
    ensures { result ≡ counted counter word.now value.now }
{
    if word == counter.word() {
        let value = number(value)?;
        Some(RunLine::Statistic { counter, value })
    } else {
        None
    }
}
