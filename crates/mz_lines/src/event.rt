//! Events, to and from sentences.

ghost use Rattle.std.specs.Prelude.{◌≡◌, ◌++◌, ◌∷◌, [], OnOk, IfOk, map, string_bytes};
ghost use Rattle.std.specs.List.{join_with_byte};
ghost use Rattle.mz_words.specs.declared.kind.Word.TheVariants as word;
ghost use Rattle.mz_words.specs.declared.table.Form.TheVariants as form;
ghost use Rattle.mz_words.specs.Sentences.{sentence, sentence_words};
ghost use Rattle.mz_lines.specs.Events.{event_words, event_of, event_in};

use mz_events::{Event, Place};
use mz_words::table::EVENTS;
use mz_words::{Form, Word, read_sentence, write_sentence};
use std::alloc::{AllocError, Global};

/// Adds the words of an event, with one space between each two. After an error a part of that text may
/// stand there.
pub fn write_event(out: &mut String, event: &Event) -> Result<(), AllocError>
    ensures { OnOk result (string_bytes out.new ≡ string_bytes out.old ++ join_with_byte 32 (event_words event.now)) }
{
    match *event {
        Event::Take { k, first, pages } => write_two(out, Form::Take, k, first, pages),
        Event::Back { k, first, pages } => write_two(out, Form::Back, k, first, pages),
        Event::Move { first, from, to } => {
            let words = [Word::Number(first), Word::Place(from), Word::Place(to)];
            write_sentence(out, Form::Move, &words)
        }
        Event::New { k, a, s, al } => write_three(out, Form::New, k, a, s, al),
        Event::End { k, a, s } => write_two(out, Form::End, k, a, s),
        Event::Size { k, a, s, s2 } => write_three(out, Form::Resize, k, a, s, s2),
        Event::Full { k, n, al } => write_two(out, Form::Full, k, n, al),
        Event::Dry { zone, pages, al } => {
            let words = [Word::Small(zone), Word::Number(pages), Word::Number(al)];
            write_sentence(out, Form::Dry, &words)
        }
        Event::No { k, zone, a, s } => {
            let (k, zone) = (Word::Place(k), Word::Small(zone));
            let words = [k, zone, Word::Number(a), Word::Number(s)];
            write_sentence(out, Form::No, &words)
        }
        Event::Open { zone } => write_sentence(out, Form::Open, &[Word::Small(zone)]),
        Event::Shut { zone } => write_sentence(out, Form::Shut, &[Word::Small(zone)]),
    }
}

/// A place, and two numbers.
fn write_two(out: &mut String, form: Form, k: Place, n: u64, m: u64) -> Result<(), AllocError>
    ensures { OnOk result (string_bytes out.new ≡ string_bytes out.old ++ join_with_byte 32 (sentence_words (sentence form (word.Place k ∷ word.Number n ∷ word.Number m ∷ [])))) }
{
    let words = [Word::Place(k), Word::Number(n), Word::Number(m)];
    write_sentence(out, form, &words)
}

/// A place, and three numbers.
fn write_three(
    out: &mut String,
    form: Form,
    k: Place,
    a: u64,
    n: u64,
    m: u64,
) -> Result<(), AllocError>
    ensures { OnOk result (string_bytes out.new ≡ string_bytes out.old ++ join_with_byte 32 (sentence_words (sentence form (word.Place k ∷ word.Number a ∷ word.Number n ∷ word.Number m ∷ [])))) }
{
    let words = [
        Word::Place(k),
        Word::Number(a),
        Word::Number(n),
        Word::Number(m),
    ];
    write_sentence(out, form, &words)
}

/// The event that words are, or None where they are none.
pub fn read_event(alloc: Global, texts: &[&[u8]]) -> Result<Option<Event>, AllocError>
    ensures { IfOk result (λ o. o ≡ event_in (map (λ t. t.now) texts.now)) }
{
    match read_sentence(alloc, 0, &EVENTS, texts)? {
        Some(sentence) => Ok(event_of(sentence.form, sentence.words.as_slice())),
        None => Ok(None),
    }
}

/// The event that a sentence is.
fn event_of(form: Form, words: &[Word]) -> Option<Event>
    ensures { result ≡ event_of form words.now }
{
    match form {
        Form::Take => take_of(words),
        Form::Back => back_of(words),
        Form::Move => move_of(words),
        Form::New => new_of(words),
        Form::End => end_of(words),
        Form::Resize => size_of(words),
        Form::Full => full_of(words),
        Form::Dry => dry_of(words),
        Form::No => no_of(words),
        Form::Open => open_of(words),
        Form::Shut => shut_of(words),
        _ => None,
    }
}

fn take_of(words: &[Word]) -> Option<Event>
    ensures { result ≡ event_of form.Take words.now }
{
    match *words {
        [Word::Place(k), Word::Number(first), Word::Number(pages)] => {
            Some(Event::Take { k, first, pages })
        }
        _ => None,
    }
}

fn back_of(words: &[Word]) -> Option<Event>
    ensures { result ≡ event_of form.Back words.now }
{
    match *words {
        [Word::Place(k), Word::Number(first), Word::Number(pages)] => {
            Some(Event::Back { k, first, pages })
        }
        _ => None,
    }
}

fn move_of(words: &[Word]) -> Option<Event>
    ensures { result ≡ event_of form.Move words.now }
{
    match *words {
        [Word::Number(first), Word::Place(from), Word::Place(to)] => {
            Some(Event::Move { first, from, to })
        }
        _ => None,
    }
}

fn new_of(words: &[Word]) -> Option<Event>
    ensures { result ≡ event_of form.New words.now }
{
    match *words {
        [
            Word::Place(k),
            Word::Number(a),
            Word::Number(s),
            Word::Number(al),
        ] => Some(Event::New { k, a, s, al }),
        _ => None,
    }
}

fn end_of(words: &[Word]) -> Option<Event>
    ensures { result ≡ event_of form.End words.now }
{
    match *words {
        [Word::Place(k), Word::Number(a), Word::Number(s)] => Some(Event::End { k, a, s }),
        _ => None,
    }
}

fn size_of(words: &[Word]) -> Option<Event>
    ensures { result ≡ event_of form.Resize words.now }
{
    match *words {
        [
            Word::Place(k),
            Word::Number(a),
            Word::Number(s),
            Word::Number(s2),
        ] => Some(Event::Size { k, a, s, s2 }),
        _ => None,
    }
}

fn full_of(words: &[Word]) -> Option<Event>
    ensures { result ≡ event_of form.Full words.now }
{
    match *words {
        [Word::Place(k), Word::Number(n), Word::Number(al)] => Some(Event::Full { k, n, al }),
        _ => None,
    }
}

fn dry_of(words: &[Word]) -> Option<Event>
    ensures { result ≡ event_of form.Dry words.now }
{
    match *words {
        [Word::Small(zone), Word::Number(pages), Word::Number(al)] => {
            Some(Event::Dry { zone, pages, al })
        }
        _ => None,
    }
}

fn no_of(words: &[Word]) -> Option<Event>
    ensures { result ≡ event_of form.No words.now }
{
    match *words {
        [
            Word::Place(k),
            Word::Small(zone),
            Word::Number(a),
            Word::Number(s),
        ] => Some(Event::No { k, zone, a, s }),
        _ => None,
    }
}

fn open_of(words: &[Word]) -> Option<Event>
    ensures { result ≡ event_of form.Open words.now }
{
    match *words {
        [Word::Small(zone)] => Some(Event::Open { zone }),
        _ => None,
    }
}

fn shut_of(words: &[Word]) -> Option<Event>
    ensures { result ≡ event_of form.Shut words.now }
{
    match *words {
        [Word::Small(zone)] => Some(Event::Shut { zone }),
        _ => None,
    }
}
