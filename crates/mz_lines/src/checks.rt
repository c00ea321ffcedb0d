//! What can be wrong with the words of a line, wherever it stands.

ghost use Rattle.std.specs.Prelude.{◌≡◌, ◌==◌, length, map};
ghost use Rattle.std.specs.List.{list_any};
ghost use Rattle.mz_lines.specs.Whys.{behind_first, caller_wrong, field_wrong, fields_of, form_among_words, form_of, has_count, has_flaw, word_holds, word_why};

use crate::line::begins_with_digit;
use crate::why::Why;
use mz_words::flaw::is_wrong;
use mz_words::table::{COMMANDS, ROUND_LINES};
use mz_words::{Flaw, Form, Kind, form_among, some_wrong};

/// The whys that the words of a line can have, in their order.
const WORD_WHYS: [Why; 7] = [
    Why::EmptyWord,
    Why::UnknownCommand,
    Why::WrongCount,
    Why::NotNumber,
    Why::NoSuchCaller,
    Why::NotName,
    Why::BeyondLimits,
];

/// The first of them that holds.
pub fn word_why(callers: u32, words: &[&[u8]]) -> Option<Why>
    ensures { result ≡ word_why callers (map (λ w. w.now) words.now) }
{
    WORD_WHYS
        .iter()
        .copied()
        .find(|why| word_holds(callers, words, *why))
}

/// Whether a why holds of the words of a line.
fn word_holds(callers: u32, words: &[&[u8]], why: Why) -> bool
    ensures { result ≡ word_holds callers (map (λ w. w.now) words.now) why }
{
    match why {
        Why::EmptyWord => has_empty(words),
        Why::UnknownCommand => form_of(words).is_none(),
        Why::WrongCount => match form_of(words) {
            Some(form) => !has_count(words, form),
            None => false,
        },
        Why::NotNumber => has_flaw(callers, Flaw::NotNumber, words),
        Why::NoSuchCaller => has_flaw(callers, Flaw::NoSuchCaller, words),
        Why::NotName => has_flaw(callers, Flaw::NotName, words),
        Why::BeyondLimits => has_flaw(callers, Flaw::BeyondLimits, words),
        Why::NotPlain | Why::NotTrace | Why::NotSpace | Why::OutOfPlace | Why::GivenBefore => false,
    }
}

/// Whether a word is empty.
fn has_empty(words: &[&[u8]]) -> bool
    ensures { result ≡ list_any (λ w. length w == 0) (map (λ w. w.now) words.now) }
{
    match words {
        [] => false,
        [word, rest @ ..] => word.is_empty() || has_empty(rest),
    }
}

/// The form of a line by its words.
fn form_of(words: &[&[u8]]) -> Option<Form>
    ensures { result ≡ form_of (map (λ w. w.now) words.now) }
{
    match words {
        [] => None,
        [first, rest @ ..] => {
            if begins_with_digit(first) {
                form_among_words(&COMMANDS, rest)
            } else {
                form_among(&ROUND_LINES, first)
            }
        }
    }
}

/// The form that the first word is the word of.
fn form_among_words(forms: &[Form], words: &[&[u8]]) -> Option<Form>
    ensures { result ≡ form_among_words forms.now (map (λ w. w.now) words.now) }
{
    match words {
        [] => None,
        [word, ..] => form_among(forms, word),
    }
}

/// The words behind the first.
fn behind_first<'w, 'a>(words: &'w [&'a [u8]]) -> &'w [&'a [u8]]
    ensures { map (λ w. w.now) result.now ≡ behind_first (map (λ w. w.now) words.now) }
{
    match words {
        [] => words,
        [_, rest @ ..] => rest,
    }
}

/// The words behind the form's.
fn fields<'w, 'a>(words: &'w [&'a [u8]]) -> &'w [&'a [u8]]
    ensures { map (λ w. w.now) result.now ≡ fields_of (map (λ w. w.now) words.now) }
{
    match words {
        [] => words,
        [first, rest @ ..] => {
            if begins_with_digit(first) {
                behind_first(rest)
            } else {
                rest
            }
        }
    }
}

/// Whether there are as many words as the form asks for.
fn has_count(words: &[&[u8]], form: Form) -> bool
    ensures { result ≡ has_count (map (λ w. w.now) words.now) form }
{
    form.row().kinds.len() == fields(words).len()
}

/// Whether some word has the flaw.
fn has_flaw(callers: u32, flaw: Flaw, words: &[&[u8]]) -> bool
    ensures { result ≡ has_flaw callers flaw (map (λ w. w.now) words.now) }
{
    match form_of(words) {
        Some(form) => field_wrong(callers, flaw, words, form),
        None => false,
    }
}

/// Whether the caller's number or a word behind the form's has the flaw.
fn field_wrong(callers: u32, flaw: Flaw, words: &[&[u8]], form: Form) -> bool
    ensures { result ≡ field_wrong callers flaw (map (λ w. w.now) words.now) form }
{
    caller_wrong(callers, flaw, words)
        || some_wrong(callers, flaw, b"", form.row().kinds, fields(words))
}

/// Whether the number of the caller has the flaw.
fn caller_wrong(callers: u32, flaw: Flaw, words: &[&[u8]]) -> bool
    ensures { result ≡ caller_wrong callers flaw (map (λ w. w.now) words.now) }
{
    match words {
        [] => false,
        [first, ..] => {
            begins_with_digit(first) && is_wrong(callers, b"", flaw, Kind::Caller, first)
        }
    }
}
