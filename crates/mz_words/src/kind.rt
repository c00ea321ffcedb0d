//! The kinds of words, and a word of each kind.

ghost use Rattle.std.specs.Prelude.{◌≡◌, ◌++◌, OnOk, string_bytes};
ghost use Rattle.mz_words.specs.Names.{old_word};
ghost use Rattle.mz_words.specs.Kinds.{read_word, word_text};

use crate::count::{BatchCount, ShowCount};
use crate::name::{BaseName, BlockName, GivenName, Name, OldName};
use crate::numbers::{caller, number};
use crate::printing::{
    print_base_name, print_block_name, print_hex, print_number, print_place, range_word,
};
use crate::reading;
use crate::shown::Shown;
use mz_base::{Range, ZoneName};
use mz_events::Place;
use std::alloc::AllocError;

/// What may stand in one place of a line.
#[derive(Clone, Copy, Debug, PartialEq, Eq)]
pub enum Kind {
    /// A number below 2^64.
    Number,
    /// The number of a zone or of a magazine, below 2^32.
    Small,
    /// The number of a caller.
    Caller,
    /// A base name.
    Base,
    /// A name of any form.
    Name,
    /// A name of any form, or `null`.
    Old,
    /// A base name, or the word in front.
    New,
    /// A given name.
    Given,
    /// The name of a zone.
    Zone,
    /// A number up to 255.
    Byte,
    /// A number from 1 to 64.
    ShowCount,
    /// A number from 1 to 4,096.
    BatchCount,
    /// A place of the space.
    Place,
    /// A range of a listed block.
    Range,
    /// From 1 to 64 bytes, as hexadecimal digits.
    Bytes,
}

/// What stands in one place of a line, one variant for each kind.
#[derive(Clone, Copy, Debug)]
pub enum Word {
    Number(u64),
    Small(u32),
    Caller(u32),
    Base(BaseName),
    Name(BlockName),
    Old(OldName),
    New(BlockName),
    Given(GivenName),
    Zone(ZoneName),
    Byte(u8),
    ShowCount(ShowCount),
    BatchCount(BatchCount),
    Place(Place),
    Range(Range),
    Bytes(Shown),
}

/// The word of this kind that a text is, in a trace with so many callers, behind the text in front.
#[tactic(auto, unfolding(crate::specs::Kinds::read_word))]
pub fn read_word(callers: u32, before: &[u8], kind: Kind, text: &[u8]) -> Option<Word>
    ensures { result ≡ read_word callers before.now kind text.now }
{
    match kind {
        Kind::Number => Some(Word::Number(number(text)?)),
        Kind::Small => Some(Word::Small(reading::small_number(text)?)),
        Kind::Caller => Some(Word::Caller(caller(callers, text)?)),
        Kind::Base => Some(Word::Base(reading::base(text)?)),
        Kind::Name => Some(Word::Name(BlockName::new(reading::any_name(text)?))),
        Kind::Old => Some(Word::Old(reading::old_name(text)?)),
        Kind::New => Some(Word::New(reading::new_name(before, text)?)),
        Kind::Given => Some(Word::Given(reading::given(text)?)),
        Kind::Zone => Some(Word::Zone(reading::zone(text)?)),
        Kind::Byte => Some(Word::Byte(reading::byte(text)?)),
        Kind::ShowCount => Some(Word::ShowCount(reading::show_count(text)?)),
        Kind::BatchCount => Some(Word::BatchCount(reading::batch_count(text)?)),
        Kind::Place => Some(Word::Place(reading::place(text)?)),
        Kind::Range => Some(Word::Range(reading::range(text)?)),
        Kind::Bytes => Some(Word::Bytes(reading::shown(text)?)),
    }
}

/// Adds the text of the old name of a `realloc`.
fn write_old_name(out: &mut String, old: &OldName) -> Result<(), AllocError>
    ensures { OnOk result (string_bytes out.new ≡ string_bytes out.old ++ old_word old.now) }
{
    match old.get() {
        None => out.push_str("null"),
        Some(name) => print_block_name(out, &name.get()),
    }
}

/// Adds a word's text.
#[tactic(auto, unfolding(crate::specs::Kinds::word_text))]
pub fn write_word(out: &mut String, word: &Word) -> Result<(), AllocError>
    ensures { OnOk result (string_bytes out.new ≡ string_bytes out.old ++ word_text word.now) }
{
    match word {
        Word::Number(n) => print_number(out, *n),
        Word::Small(n) => print_number(out, u64::from(*n)),
        Word::Caller(n) => print_number(out, u64::from(*n)),
        Word::Base(name) => print_base_name(out, name.bytes()),
        Word::Name(name) => print_block_name(out, &name.get()),
        Word::Old(old) => write_old_name(out, old),
        Word::New(name) => print_block_name(out, &name.get()),
        Word::Given(name) => print_block_name(out, &Name::Given(*name)),
        Word::Zone(name) => print_base_name(out, name.bytes()),
        Word::Byte(n) => print_number(out, u64::from(*n)),
        Word::ShowCount(n) => print_number(out, n.number()),
        Word::BatchCount(n) => print_number(out, n.number()),
        Word::Place(place) => print_place(out, *place),
        Word::Range(range) => out.push_str(range_word(*range)),
        Word::Bytes(shown) => print_hex(out, shown.bytes()),
    }
}
