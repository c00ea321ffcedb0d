//! Sentences: a form of the table, and a word in each of its places.

ghost use Rattle.std.specs.Prelude.{◌≡◌, ◌++◌, ◌∷◌, ◌<◌, ◌^◌, [], map, OnOk, IfOk, string_bytes};
ghost use Rattle.std.specs.List.{flat_map, join_with_byte};
ghost use Rattle.mz_words.specs.Sentences.{read_onto, sentence_behind, sentence_in, sentence_words, sentence, spaced_word};

use crate::kind::{Kind, Word, read_word, write_word};
use crate::table::{Form, form_among};
use mz_base::Items;
use std::alloc::{AllocError, Global};

/// A form of the table, and a word in each of its places.
#[derive(Drop, Debug)]
pub struct Sentence {
    pub form: Form,
    pub words: Items<Word>,
}

/// The sentence with one of these forms that the words of a line are.
pub fn read_sentence(
    alloc: Global,
    callers: u32,
    forms: &[Form],
    texts: &[&[u8]],
) -> Result<Option<Sentence>, AllocError>
    ensures { IfOk result (λ o. o ≡ sentence_in callers forms.now (map (λ t. t.now) texts.now)) }
{
    let [word, rest @ ..] = texts else {
        return Ok(None);
    };
    let Some(form) = form_among(forms, word) else {
        return Ok(None);
    };
    read_behind(alloc, callers, form, rest)
}

/// The sentence of this form.
fn read_behind(
    alloc: Global,
    callers: u32,
    form: Form,
    texts: &[&[u8]],
) -> Result<Option<Sentence>, AllocError>
    ensures { IfOk result (λ o. o ≡ sentence_behind callers form (map (λ t. t.now) texts.now)) }
{
    match read_words(callers, b"", Items::new(alloc), form.row().kinds, texts)? {
        Some(words) => Ok(Some(Sentence { form, words })),
        None => Ok(None),
    }
}

/// Words of these kinds, behind those that were read.
fn read_words(
    callers: u32,
    before: &[u8],
    done: Items<Word>,
    kinds: &[Kind],
    texts: &[&[u8]],
) -> Result<Option<Items<Word>>, AllocError>
    ensures { IfOk result (λ o. o ≡ read_onto callers before.now done kinds.now (map (λ t. t.now) texts.now)) }
{
    match kinds {
        [] => match texts {
            [] => Ok(Some(done)),
            [_, ..] => Ok(None),
        },
        [kind, kinds @ ..] => match texts {
            [] => Ok(None),
            [text, texts @ ..] => match read_word(callers, before, *kind, text) {
                Some(word) => {
                    let mut done = done;
                    done.push(word)?;
                    read_words(callers, text, done, kinds, texts)
                }
                None => Ok(None),
            },
        },
    }
}

/// Adds the words of a sentence, with one space between each two. After an error a part of that text may
/// stand there.
pub fn write_sentence(out: &mut String, form: Form, words: &[Word]) -> Result<(), AllocError>
    ensures { OnOk result (string_bytes out.new ≡ string_bytes out.old ++ join_with_byte 32 (sentence_words (sentence form words.now))) }
{
    out.push_str(form.row().word)?;
    write_words(out, words)
}

/// Adds words, each behind a space.
fn write_words(out: &mut String, words: &[Word]) -> Result<(), AllocError>
    ensures { OnOk result (string_bytes out.new ≡ string_bytes out.old ++ flat_map spaced_word words.now) }
{
    for word in words {
        out.push_str(" ")?;
        write_word(out, word)?;
    }
    Ok(())
}
