//! What is done at the start of a round, to and from sentences.

ghost use Rattle.std.specs.Prelude.{◌≡◌, ◌++◌, OnOk, IfOk, map, string_bytes};
ghost use Rattle.std.specs.List.{join_with_byte};
ghost use Rattle.mz_lines.specs.RoundLines.{start_words, start_of, start_in};

use mz_base::ZoneName;
use mz_words::table::ROUND_LINES;
use mz_words::{Form, Word, read_sentence, write_sentence};
use std::alloc::{AllocError, Global};

/// What is done at the start of a round, before any caller's commands.
#[derive(Clone, Copy, Debug, PartialEq, Eq)]
pub enum RoundLine {
    /// A zone is opened.
    Zone { zone: ZoneName },
    /// A zone is closed.
    Destroy { zone: ZoneName },
    /// The size of the zone's block at an address.
    Size { zone: ZoneName, addr: u64 },
    /// The zone of the block at an address.
    Where { addr: u64 },
}

/// Adds the words of a line at the start of a round, with one space between each two. After an error a
/// part of that text may stand there.
pub fn write_start(out: &mut String, line: &RoundLine) -> Result<(), AllocError>
    ensures { OnOk result (string_bytes out.new ≡ string_bytes out.old ++ join_with_byte 32 (start_words line.now)) }
{
    match *line {
        RoundLine::Zone { zone } => write_sentence(out, Form::Zone, &[Word::Zone(zone)]),
        RoundLine::Destroy { zone } => write_sentence(out, Form::Destroy, &[Word::Zone(zone)]),
        RoundLine::Size { zone, addr } => {
            let words = [Word::Zone(zone), Word::Number(addr)];
            write_sentence(out, Form::SizeAt, &words)
        }
        RoundLine::Where { addr } => write_sentence(out, Form::Where, &[Word::Number(addr)]),
    }
}

/// The line that a sentence is.
pub fn start_of(form: Form, words: &[Word]) -> Option<RoundLine>
    ensures { result ≡ start_of form words.now }
{
    match form {
        Form::Zone => match *words {
            [Word::Zone(zone)] => Some(RoundLine::Zone { zone }),
            _ => None,
        },
        Form::Destroy => match *words {
            [Word::Zone(zone)] => Some(RoundLine::Destroy { zone }),
            _ => None,
        },
        Form::SizeAt => match *words {
            [Word::Zone(zone), Word::Number(addr)] => Some(RoundLine::Size { zone, addr }),
            _ => None,
        },
        Form::Where => match *words {
            [Word::Number(addr)] => Some(RoundLine::Where { addr }),
            _ => None,
        },
        _ => None,
    }
}

/// The line at the start of a round that words are, or None where they are none.
pub fn read_start(
    alloc: Global,
    callers: u32,
    texts: &[&[u8]],
) -> Result<Option<RoundLine>, AllocError>
    ensures { IfOk result (λ o. o ≡ start_in callers (map (λ t. t.now) texts.now)) }
{
    match read_sentence(alloc, callers, &ROUND_LINES, texts)? {
        Some(sentence) => Ok(start_of(sentence.form, sentence.words.as_slice())),
        None => Ok(None),
    }
}
