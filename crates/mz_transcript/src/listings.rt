//! The listing and the statistics of a printed run, from their words.

ghost use Rattle.std.specs.Prelude.{◌≡◌, IfOk, map};
ghost use Rattle.mz_transcript.specs.Listings.{listed_of, listed_in};

use mz_trace::Listed;
use mz_words::table::LISTING;
use mz_words::{Form, Word, read_sentence};
use std::alloc::{AllocError, Global};

/// The listed block that words are, or None where they are none.
pub fn read_listed(alloc: Global, texts: &[&[u8]]) -> Result<Option<Listed>, AllocError>
    ensures { IfOk result (λ o. o ≡ listed_in (map (λ t. t.now) texts.now)) }
{
    match read_sentence(alloc, 0, &LISTING, texts)? {
        Some(sentence) => Ok(listed_of(sentence.form, sentence.words.as_slice())),
        None => Ok(None),
    }
}

/// The listed block that a sentence is.
fn listed_of(form: Form, words: &[Word]) -> Option<Listed>
    ensures { result ≡ listed_of form words.now }
{
    match form {
        Form::Listed => match words {
            [
                Word::Number(a),
                Word::Number(s),
                Word::Range(range),
                Word::Zone(zone),
            ] => Some(Listed {
                a: *a,
                s: *s,
                range: *range,
                zone: *zone,
            }),
            _ => None,
        },
        _ => None,
    }
}
