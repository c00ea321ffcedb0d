//! Values that are read from one word.

ghost use Rattle.std.specs.Prelude.{◌≡◌, ◌<◌, ◌-◌, map, length, position, nat_eq, not, Some, None, IfSome, MatchOption};
ghost use Rattle.mz_base.specs.Names.{is_digit, is_base_name};
ghost use Rattle.mz_words.specs.Numbers.{number_from, small_number_of};
ghost use Rattle.mz_words.specs.Names.{base_of, given_of, batch_of, name_of, longer_name_of, old_name_of, new_name_of, is_new};
ghost use Rattle.mz_words.specs.Places.{place_in, zone_place_of, place_of};
ghost use Rattle.mz_words.specs.Hex.{hex_value, shown_of};
ghost use Rattle.mz_words.specs.Ranges.{range_of};

use crate::count::{BatchCount, BatchIndex, MOST_IN_BATCH, ShowCount};
use crate::name::{BaseName, BatchName, BlockName, GivenName, Name, OldName};
use crate::numbers::number;
use crate::shown::Shown;
use mz_base::{Range, ZoneName};
use mz_events::Place;

/// A base name.
pub fn base(word: &[u8]) -> Option<BaseName>
    ensures { result ≡ base_of word.now }
{
    BaseName::new(word)
}

/// The name of a zone.
pub fn zone(word: &[u8]) -> Option<ZoneName>
    ensures { result ≡ base_of word.now }
{
    ZoneName::new(word)
}

/// A given name.
pub fn given(word: &[u8]) -> Option<GivenName>
    ensures { result ≡ given_of word.now }
{
    match word {
        [b'@', rest @ ..] => {
            let base = base(rest)?;
            Some(GivenName { base })
        }
        _ => None,
    }
}

/// The place of the first dot.
fn first_dot(word: &[u8]) -> Option<usize>
    ensures place { result ≡ position (λ c. nat_eq c 46) word.now }
    ensures within { IfSome result (λ i. i < length word.now) }
{
    word.iter().position(|c| *c == b'.')
}

/// The name of a block of a batch.
pub fn batch_name(word: &[u8]) -> Option<BatchName>
    ensures { result ≡ batch_of word.now }
{
    let dot = first_dot(word)?;
    let base = base(&word[..dot])?;
    let index = batch_index(&word[dot + 1..])?;
    Some(BatchName { base, index })
}

/// The number of a block within its batch.
fn batch_index(word: &[u8]) -> Option<BatchIndex>
    ensures { result ≡ number_from 0 (MOST_IN_BATCH - 1) word.now }
{
    BatchIndex::new(number(word)?)
}

/// How many blocks a batch is to have.
pub fn batch_count(word: &[u8]) -> Option<BatchCount>
    ensures { result ≡ number_from 1 MOST_IN_BATCH word.now }
{
    BatchCount::new(number(word)?)
}

/// How many bytes are to be shown.
pub fn show_count(word: &[u8]) -> Option<ShowCount>
    ensures { result ≡ number_from 1 64 word.now }
{
    ShowCount::new(number(word)?)
}

/// A byte.
pub fn byte(word: &[u8]) -> Option<u8>
    ensures { result ≡ number_from 0 255 word.now }
{
    u8::try_from(number(word)?).ok()
}

/// A name of any form.
pub fn any_name(word: &[u8]) -> Option<Name>
    ensures { result ≡ name_of word.now }
{
    match base(word) {
        Some(base) => Some(Name::Base(base)),
        None => longer_name(word),
    }
}

/// A name that isn't a base name.
fn longer_name(word: &[u8]) -> Option<Name>
    ensures { result ≡ longer_name_of word.now }
{
    match batch_name(word) {
        Some(batch) => Some(Name::Batch(batch)),
        None => Some(Name::Given(given(word)?)),
    }
}

/// The old name of a `realloc`.
pub fn old_name(word: &[u8]) -> Option<OldName>
    ensures { result ≡ old_name_of word.now }
{
    if word == b"null".as_slice() {
        Some(OldName::new(None))
    } else {
        Some(OldName::new(Some(BlockName::new(any_name(word)?))))
    }
}

/// The new name of a `realloc`, behind the old one.
pub fn new_name(before: &[u8], word: &[u8]) -> Option<BlockName>
    ensures { result ≡ new_name_of before.now word.now }
{
    let name = any_name(word)?;
    if is_new(before, word) {
        Some(BlockName::new(name))
    } else {
        None
    }
}

/// Whether a word is a base name, or the word before it.
pub fn is_new(before: &[u8], word: &[u8]) -> bool
    ensures { result ≡ is_new before.now word.now }
{
    is_base_name(word) || word == before
}

/// Whether a word is a base name.
pub fn is_base_name(word: &[u8]) -> bool
    ensures { result ≡ is_base_name word.now }
{
    BaseName::new(word).is_some()
}

/// The number of a zone or of a magazine.
pub fn small_number(word: &[u8]) -> Option<u32>
    ensures { result ≡ small_number_of word.now }
{
    u32::try_from(number(word)?).ok()
}

/// The place of the first byte that is no digit.
fn digits_end(word: &[u8]) -> Option<usize>
    ensures place { result ≡ position (λ c. not (is_digit c)) word.now }
    ensures within { IfSome result (λ i. i < length word.now) }
{
    word.iter().position(|c| !c.is_ascii_digit())
}

/// A place of the space.
pub fn place(word: &[u8]) -> Option<Place>
    ensures { result ≡ place_of word.now }
{
    if word == b"p".as_slice() {
        Some(Place::Pages)
    } else if word == b"n".as_slice() {
        Some(Place::Nano)
    } else {
        zone_place(word)
    }
}

/// A place of a zone.
fn zone_place(word: &[u8]) -> Option<Place>
    ensures { result ≡ zone_place_of word.now }
{
    let end = digits_end(word)?;
    let zone = small_number(&word[..end])?;
    place_in(zone, &word[end..])
}

/// The place of a zone, by what stands behind its number.
fn place_in(zone: u32, rest: &[u8]) -> Option<Place>
    ensures { result ≡ place_in zone rest.now }
{
    let [kind, rest @ ..] = rest else {
        return None;
    };
    if *kind == b't' {
        if rest == b"d".as_slice() {
            Some(Place::TinyDepot { zone })
        } else {
            let mag = small_number(rest)?;
            Some(Place::Tiny { zone, mag })
        }
    } else if *kind == b's' {
        if rest == b"d".as_slice() {
            Some(Place::SmallDepot { zone })
        } else {
            let mag = small_number(rest)?;
            Some(Place::Small { zone, mag })
        }
    } else if *kind == b'l' && rest.len() == 0 {
        Some(Place::Large { zone })
    } else {
        None
    }
}

/// The range of a listed block.
pub fn range(word: &[u8]) -> Option<Range>
    ensures { result ≡ range_of word.now }
{
    if word == b"nano".as_slice() {
        Some(Range::Nano)
    } else if word == b"tiny".as_slice() {
        Some(Range::Tiny)
    } else if word == b"small".as_slice() {
        Some(Range::Small)
    } else if word == b"large".as_slice() {
        Some(Range::Large)
    } else {
        None
    }
}

/// What a hexadecimal digit stands for.
fn hex_value(c: u8) -> Option<u8>
    ensures value { result ≡ hex_value c }
    ensures small { IfSome result (λ n. n < 16) }
{
    if 48 <= c && c <= 57 {
        Some(c - 48)
    } else if 97 <= c && c <= 102 {
        Some(c - 87)
    } else {
        None
    }
}

/// Bytes of a block, from two hexadecimal digits each.
pub fn shown(word: &[u8]) -> Option<Shown>
    ensures { result ≡ shown_of word.now }
{
    let mut bytes = [0u8; 64];
    let mut count = 0usize;
    let mut rest = word;
    while let [high, low, after @ ..] = rest {
        if count >= 64 {
            return None;
        }
        bytes[count] = 16 * hex_value(*high)? + hex_value(*low)?;
        count += 1;
        rest = after;
    }
    if rest.is_empty() {
        Shown::new(&bytes[..count])
    } else {
        None
    }
}
