//! What a line of a trace is answered, to and from sentences.

ghost use Rattle.std.specs.Prelude.{◌≡◌, ◌++◌, OnOk, IfOk, map, string_bytes};
ghost use Rattle.std.specs.List.{join_with_byte};
ghost use Rattle.mz_lines.specs.Answers.{answer_words, answer_of, answer_in, bare_answer, counting_answer, telling_answer};

use mz_base::ZoneName;
use mz_words::table::ANSWERS;
use mz_words::{Form, Shown, Word, read_sentence, write_sentence};
use std::alloc::{AllocError, Global};

/// What a line of a trace is answered.
#[derive(Clone, Copy, Debug, PartialEq, Eq)]
pub enum Answer {
    /// The name has a block already.
    Held,
    /// There is no such zone.
    NoZone,
    /// The product of the two numbers is too large.
    Overflow,
    /// Blocks can't begin at multiples of this number.
    BadAlign,
    /// The name has no block.
    NotHeld,
    /// The block has `s` bytes, and not as many as were said.
    WrongSize { s: u64 },
    /// The bytes aren't all in the block.
    OutOfRange,
    /// There is a zone of this name already.
    NameTaken,
    /// There are as many zones as there can be.
    TooMany,
    /// The first zone stays open.
    IsDefault,
    /// The zone has `n` live blocks.
    HasLive { n: u64 },
    /// There is no room for such a block.
    Null,
    /// No live block begins there.
    Nowhere,
    /// It is done.
    Done,
    /// The block isn't one of the zone.
    NotLive,
    /// The block of `s` bytes at the address `a` now has the name.
    Block { a: u64, s: u64 },
    /// The block has `s` bytes.
    Size { s: u64 },
    /// These are the bytes.
    Bytes { shown: Shown },
    /// So many blocks of the batch there are.
    Got { n: u64 },
    /// So many blocks have ended.
    Freed { n: u64 },
    /// The block is one of this zone.
    Zone { name: ZoneName },
}

/// Adds the words of an answer, with one space between each two. After an error a part of that text may
/// stand there.
pub fn write_answer(out: &mut String, answer: &Answer) -> Result<(), AllocError>
    ensures { OnOk result (string_bytes out.new ≡ string_bytes out.old ++ join_with_byte 32 (answer_words answer.now)) }
{
    match *answer {
        Answer::Held => write_sentence(out, Form::Held, &[]),
        Answer::NoZone => write_sentence(out, Form::NoZone, &[]),
        Answer::Overflow => write_sentence(out, Form::Overflow, &[]),
        Answer::BadAlign => write_sentence(out, Form::BadAlign, &[]),
        Answer::NotHeld => write_sentence(out, Form::NotHeld, &[]),
        Answer::WrongSize { s } => write_sentence(out, Form::WrongSize, &[Word::Number(s)]),
        Answer::OutOfRange => write_sentence(out, Form::OutOfRange, &[]),
        Answer::NameTaken => write_sentence(out, Form::NameTaken, &[]),
        Answer::TooMany => write_sentence(out, Form::TooMany, &[]),
        Answer::IsDefault => write_sentence(out, Form::IsDefault, &[]),
        Answer::HasLive { n } => write_sentence(out, Form::HasLive, &[Word::Number(n)]),
        Answer::Null => write_sentence(out, Form::Null, &[]),
        Answer::Nowhere => write_sentence(out, Form::Nowhere, &[]),
        Answer::Done => write_sentence(out, Form::Done, &[]),
        Answer::NotLive => write_sentence(out, Form::NotLive, &[]),
        Answer::Block { a, s } => {
            let words = [Word::Number(a), Word::Number(s)];
            write_sentence(out, Form::Block, &words)
        }
        Answer::Size { s } => write_sentence(out, Form::SizeIs, &[Word::Number(s)]),
        Answer::Bytes { shown } => write_sentence(out, Form::Bytes, &[Word::Bytes(shown)]),
        Answer::Got { n } => write_sentence(out, Form::Got, &[Word::Number(n)]),
        Answer::Freed { n } => write_sentence(out, Form::Freed, &[Word::Number(n)]),
        Answer::Zone { name } => write_sentence(out, Form::InZone, &[Word::Zone(name)]),
    }
}

/// The answer that words are, or None where they are none.
pub fn read_answer(alloc: Global, texts: &[&[u8]]) -> Result<Option<Answer>, AllocError>
    ensures { IfOk result (λ o. o ≡ answer_in (map (λ t. t.now) texts.now)) }
{
    match read_sentence(alloc, 0, &ANSWERS, texts)? {
        Some(sentence) => Ok(answer_of(sentence.form, sentence.words.as_slice())),
        None => Ok(None),
    }
}

/// The answer that a sentence is.
fn answer_of(form: Form, words: &[Word]) -> Option<Answer>
    ensures { result ≡ answer_of form words.now }
{
    match words {
        [] => bare_answer(form),
        [_, ..] => telling_answer(form, words),
    }
}

/// An answer that is one word.
fn bare_answer(form: Form) -> Option<Answer>
    ensures { result ≡ bare_answer form }
{
    match form {
        Form::Held => Some(Answer::Held),
        Form::NoZone => Some(Answer::NoZone),
        Form::Overflow => Some(Answer::Overflow),
        Form::BadAlign => Some(Answer::BadAlign),
        Form::NotHeld => Some(Answer::NotHeld),
        Form::OutOfRange => Some(Answer::OutOfRange),
        Form::NameTaken => Some(Answer::NameTaken),
        Form::TooMany => Some(Answer::TooMany),
        Form::IsDefault => Some(Answer::IsDefault),
        Form::Null => Some(Answer::Null),
        Form::Nowhere => Some(Answer::Nowhere),
        Form::Done => Some(Answer::Done),
        Form::NotLive => Some(Answer::NotLive),
        _ => None,
    }
}

/// An answer that tells something.
fn telling_answer(form: Form, words: &[Word]) -> Option<Answer>
    ensures { result ≡ telling_answer form words.now }
{
    match form {
        Form::Block => match *words {
            [Word::Number(a), Word::Number(s)] => Some(Answer::Block { a, s }),
            _ => None,
        },
        Form::Bytes => match *words {
            [Word::Bytes(shown)] => Some(Answer::Bytes { shown }),
            _ => None,
        },
        Form::InZone => match *words {
            [Word::Zone(name)] => Some(Answer::Zone { name }),
            _ => None,
        },
        _ => match *words {
            [Word::Number(n)] => counting_answer(form, n),
            _ => None,
        },
    }
}

/// An answer that tells a number.
fn counting_answer(form: Form, n: u64) -> Option<Answer>
    ensures { result ≡ counting_answer form n }
{
    match form {
        Form::WrongSize => Some(Answer::WrongSize { s: n }),
        Form::HasLive => Some(Answer::HasLive { n }),
        Form::SizeIs => Some(Answer::Size { s: n }),
        Form::Got => Some(Answer::Got { n }),
        Form::Freed => Some(Answer::Freed { n }),
        _ => None,
    }
}
