//! What a caller asks for, to and from sentences.

ghost use Rattle.std.specs.Prelude.{◌≡◌, ◌++◌, ◌∷◌, [], OnOk, IfOk, map, string_bytes};
ghost use Rattle.std.specs.List.{join_with_byte};
ghost use Rattle.mz_words.specs.declared.kind.Word.TheVariants as word;
ghost use Rattle.mz_words.specs.declared.table.Form.TheVariants as form;
ghost use Rattle.mz_words.specs.Sentences.{sentence, sentence_words};
ghost use Rattle.mz_lines.specs.declared.command.Command.TheVariants as commands;
ghost use Rattle.mz_lines.specs.Commands.{command_words, command_of, command_in, realloc_of};

use crate::renaming::{Names, Renaming, new_name, old_name};
use mz_base::ZoneName;
use mz_words::table::COMMANDS;
use mz_words::{
    BaseName, BatchCount, BlockName, Form, GivenName, Name, OldName, ShowCount, Word,
    read_sentence, write_sentence,
};
use std::alloc::{AllocError, Global};

/// What a caller asks for in one line of a trace. The fields are the words of the line, in order.
#[derive(Clone, Copy, Debug, PartialEq, Eq)]
pub enum Command {
    /// A block of `n` bytes.
    Malloc {
        name: BaseName,
        n: u64,
    },
    /// A block of `n` times `m` bytes, all 0.
    Calloc {
        name: BaseName,
        n: u64,
        m: u64,
    },
    /// A block of `n` bytes at a multiple of a page.
    Valloc {
        name: BaseName,
        n: u64,
    },
    /// A block of `n` bytes at a multiple of `al`.
    Memalign {
        name: BaseName,
        al: u64,
        n: u64,
    },
    /// The block is to have `n` bytes.
    Realloc {
        names: Renaming,
        n: u64,
    },
    /// The end of the block.
    Free {
        name: BlockName,
    },
    /// The end of the block that begins `off` bytes behind the start of the named one.
    FreeAt {
        name: BlockName,
        off: u64,
    },
    /// The end of the block, if it is of the zone.
    ZoneFree {
        zone: ZoneName,
        name: BlockName,
    },
    /// The end of the block, which is said to have `n` bytes.
    SizedFree {
        name: BlockName,
        n: u64,
    },
    /// The size of the block.
    Size {
        name: BlockName,
    },
    /// All bytes of the block are to be `byte`.
    Fill {
        name: BlockName,
        byte: u8,
    },
    /// The bytes of the block from `off` on.
    Show {
        name: BlockName,
        off: u64,
        count: ShowCount,
    },
    /// The address of `target` is written into the block at `off`.
    Link {
        name: BlockName,
        off: u64,
        target: BlockName,
    },
    /// The block goes to the caller `to`, which has it under the name `given` from the next round on.
    Give {
        name: BlockName,
        to: u32,
        given: GivenName,
    },
    /// So many blocks of `n` bytes.
    Batch {
        name: BaseName,
        count: BatchCount,
        n: u64,
    },
    /// The end of all blocks of the batch.
    Unbatch {
        name: BaseName,
    },
    /// The zone from which blocks come from now on.
    Use {
        zone: ZoneName,
    },
}

/// Adds the words of a command, with one space between each two. After an error a part of that text may
/// stand there.
pub fn write_command(out: &mut String, command: &Command) -> Result<(), AllocError>
    ensures { OnOk result (string_bytes out.new ≡ string_bytes out.old ++ join_with_byte 32 (command_words command.now)) }
{
    match *command {
        Command::Malloc { name, n } => write_sized(out, Form::Malloc, name, n),
        Command::Calloc { name, n, m } => write_two(out, Form::Calloc, name, n, m),
        Command::Valloc { name, n } => write_sized(out, Form::Valloc, name, n),
        Command::Memalign { name, al, n } => write_two(out, Form::Memalign, name, al, n),
        Command::Realloc { names, n } => write_realloc(out, &names.get(), n),
        Command::Free { name } => write_sentence(out, Form::Free, &[Word::Name(name)]),
        Command::FreeAt { name, off } => write_named(out, Form::FreeAt, name, off),
        Command::ZoneFree { zone, name } => write_zone_free(out, zone, name),
        Command::SizedFree { name, n } => write_named(out, Form::SizedFree, name, n),
        Command::Size { name } => write_sentence(out, Form::Size, &[Word::Name(name)]),
        Command::Fill { name, byte } => write_fill(out, name, byte),
        Command::Show { name, off, count } => write_show(out, name, off, count),
        Command::Link { name, off, target } => write_link(out, name, off, target),
        Command::Give { name, to, given } => write_give(out, name, to, given),
        Command::Batch { name, count, n } => write_batch(out, name, count, n),
        Command::Unbatch { name } => write_sentence(out, Form::Unbatch, &[Word::Base(name)]),
        Command::Use { zone } => write_sentence(out, Form::Use, &[Word::Zone(zone)]),
    }
}

/// A base name, and a number.
fn write_sized(out: &mut String, form: Form, name: BaseName, n: u64) -> Result<(), AllocError>
    ensures { OnOk result (string_bytes out.new ≡ string_bytes out.old ++ join_with_byte 32 (sentence_words (sentence form (word.Base name ∷ word.Number n ∷ [])))) }
{
    write_sentence(out, form, &[Word::Base(name), Word::Number(n)])
}

/// A base name, and two numbers.
fn write_two(out: &mut String, form: Form, name: BaseName, n: u64, m: u64) -> Result<(), AllocError>
    ensures { OnOk result (string_bytes out.new ≡ string_bytes out.old ++ join_with_byte 32 (sentence_words (sentence form (word.Base name ∷ word.Number n ∷ word.Number m ∷ [])))) }
{
    let words = [Word::Base(name), Word::Number(n), Word::Number(m)];
    write_sentence(out, form, &words)
}

/// The name of any block, and a number.
fn write_named(out: &mut String, form: Form, name: BlockName, n: u64) -> Result<(), AllocError>
    ensures { OnOk result (string_bytes out.new ≡ string_bytes out.old ++ join_with_byte 32 (sentence_words (sentence form (word.Name name ∷ word.Number n ∷ [])))) }
{
    write_sentence(out, form, &[Word::Name(name), Word::Number(n)])
}

fn write_realloc(out: &mut String, names: &Names, n: u64) -> Result<(), AllocError>
    ensures { OnOk result (string_bytes out.new ≡ string_bytes out.old ++ join_with_byte 32 (command_words (commands.Realloc names.now n))) }
{
    let (old, new) = (old_name(names), new_name(names));
    let words = [Word::Old(old), Word::New(new), Word::Number(n)];
    write_sentence(out, Form::Realloc, &words)
}

fn write_zone_free(out: &mut String, zone: ZoneName, name: BlockName) -> Result<(), AllocError>
    ensures { OnOk result (string_bytes out.new ≡ string_bytes out.old ++ join_with_byte 32 (command_words (commands.ZoneFree zone name))) }
{
    write_sentence(out, Form::ZoneFree, &[Word::Zone(zone), Word::Name(name)])
}

fn write_fill(out: &mut String, name: BlockName, byte: u8) -> Result<(), AllocError>
    ensures { OnOk result (string_bytes out.new ≡ string_bytes out.old ++ join_with_byte 32 (command_words (commands.Fill name byte))) }
{
    write_sentence(out, Form::Fill, &[Word::Name(name), Word::Byte(byte)])
}

fn write_show(
    out: &mut String,
    name: BlockName,
    off: u64,
    count: ShowCount,
) -> Result<(), AllocError>
    ensures { OnOk result (string_bytes out.new ≡ string_bytes out.old ++ join_with_byte 32 (command_words (commands.Show name off count))) }
{
    let words = [Word::Name(name), Word::Number(off), Word::ShowCount(count)];
    write_sentence(out, Form::Show, &words)
}

fn write_link(
    out: &mut String,
    name: BlockName,
    off: u64,
    target: BlockName,
) -> Result<(), AllocError>
    ensures { OnOk result (string_bytes out.new ≡ string_bytes out.old ++ join_with_byte 32 (command_words (commands.Link name off target))) }
{
    let words = [Word::Name(name), Word::Number(off), Word::Name(target)];
    write_sentence(out, Form::Link, &words)
}

fn write_give(
    out: &mut String,
    name: BlockName,
    to: u32,
    given: GivenName,
) -> Result<(), AllocError>
    ensures { OnOk result (string_bytes out.new ≡ string_bytes out.old ++ join_with_byte 32 (command_words (commands.Give name to given))) }
{
    let words = [Word::Name(name), Word::Caller(to), Word::Given(given)];
    write_sentence(out, Form::Give, &words)
}

fn write_batch(
    out: &mut String,
    name: BaseName,
    count: BatchCount,
    n: u64,
) -> Result<(), AllocError>
    ensures { OnOk result (string_bytes out.new ≡ string_bytes out.old ++ join_with_byte 32 (command_words (commands.Batch name count n))) }
{
    let words = [Word::Base(name), Word::BatchCount(count), Word::Number(n)];
    write_sentence(out, Form::Batch, &words)
}

/// The command that words are, in a trace with so many callers, or None where they are none.
pub fn read_command(
    alloc: Global,
    callers: u32,
    texts: &[&[u8]],
) -> Result<Option<Command>, AllocError>
    ensures { IfOk result (λ o. o ≡ command_in callers (map (λ t. t.now) texts.now)) }
{
    match read_sentence(alloc, callers, &COMMANDS, texts)? {
        Some(sentence) => Ok(command_of(sentence.form, sentence.words.as_slice())),
        None => Ok(None),
    }
}

/// The command that a sentence is.
fn command_of(form: Form, words: &[Word]) -> Option<Command>
    ensures { result ≡ command_of form words.now }
{
    match form {
        Form::Malloc => malloc_of(words),
        Form::Calloc => calloc_of(words),
        Form::Valloc => valloc_of(words),
        Form::Memalign => memalign_of(words),
        Form::Realloc => realloc_of(words),
        Form::Free => free_of(words),
        Form::FreeAt => free_at_of(words),
        Form::ZoneFree => zone_free_of(words),
        Form::SizedFree => sized_free_of(words),
        Form::Size => size_of(words),
        Form::Fill => fill_of(words),
        Form::Show => show_of(words),
        Form::Link => link_of(words),
        Form::Give => give_of(words),
        Form::Batch => batch_of(words),
        Form::Unbatch => unbatch_of(words),
        Form::Use => use_of(words),
        _ => None,
    }
}

fn malloc_of(words: &[Word]) -> Option<Command>
    ensures { result ≡ command_of form.Malloc words.now }
{
    match *words {
        [Word::Base(name), Word::Number(n)] => Some(Command::Malloc { name, n }),
        _ => None,
    }
}

fn calloc_of(words: &[Word]) -> Option<Command>
    ensures { result ≡ command_of form.Calloc words.now }
{
    match *words {
        [Word::Base(name), Word::Number(n), Word::Number(m)] => {
            Some(Command::Calloc { name, n, m })
        }
        _ => None,
    }
}

fn valloc_of(words: &[Word]) -> Option<Command>
    ensures { result ≡ command_of form.Valloc words.now }
{
    match *words {
        [Word::Base(name), Word::Number(n)] => Some(Command::Valloc { name, n }),
        _ => None,
    }
}

fn memalign_of(words: &[Word]) -> Option<Command>
    ensures { result ≡ command_of form.Memalign words.now }
{
    match *words {
        [Word::Base(name), Word::Number(al), Word::Number(n)] => {
            Some(Command::Memalign { name, al, n })
        }
        _ => None,
    }
}

fn realloc_of(words: &[Word]) -> Option<Command>
    ensures { result ≡ command_of form.Realloc words.now }
{
    match *words {
        [Word::Old(old), Word::New(new), Word::Number(n)] => names_of(old, new, n),
        _ => None,
    }
}

fn free_of(words: &[Word]) -> Option<Command>
    ensures { result ≡ command_of form.Free words.now }
{
    match *words {
        [Word::Name(name)] => Some(Command::Free { name }),
        _ => None,
    }
}

fn free_at_of(words: &[Word]) -> Option<Command>
    ensures { result ≡ command_of form.FreeAt words.now }
{
    match *words {
        [Word::Name(name), Word::Number(off)] => Some(Command::FreeAt { name, off }),
        _ => None,
    }
}

fn zone_free_of(words: &[Word]) -> Option<Command>
    ensures { result ≡ command_of form.ZoneFree words.now }
{
    match *words {
        [Word::Zone(zone), Word::Name(name)] => Some(Command::ZoneFree { zone, name }),
        _ => None,
    }
}

fn sized_free_of(words: &[Word]) -> Option<Command>
    ensures { result ≡ command_of form.SizedFree words.now }
{
    match *words {
        [Word::Name(name), Word::Number(n)] => Some(Command::SizedFree { name, n }),
        _ => None,
    }
}

fn size_of(words: &[Word]) -> Option<Command>
    ensures { result ≡ command_of form.Size words.now }
{
    match *words {
        [Word::Name(name)] => Some(Command::Size { name }),
        _ => None,
    }
}

fn fill_of(words: &[Word]) -> Option<Command>
    ensures { result ≡ command_of form.Fill words.now }
{
    match *words {
        [Word::Name(name), Word::Byte(byte)] => Some(Command::Fill { name, byte }),
        _ => None,
    }
}

fn show_of(words: &[Word]) -> Option<Command>
    ensures { result ≡ command_of form.Show words.now }
{
    match *words {
        [Word::Name(name), Word::Number(off), Word::ShowCount(count)] => {
            Some(Command::Show { name, off, count })
        }
        _ => None,
    }
}

fn link_of(words: &[Word]) -> Option<Command>
    ensures { result ≡ command_of form.Link words.now }
{
    match *words {
        [Word::Name(name), Word::Number(off), Word::Name(target)] => {
            Some(Command::Link { name, off, target })
        }
        _ => None,
    }
}

fn give_of(words: &[Word]) -> Option<Command>
    ensures { result ≡ command_of form.Give words.now }
{
    match *words {
        [Word::Name(name), Word::Caller(to), Word::Given(given)] => {
            Some(Command::Give { name, to, given })
        }
        _ => None,
    }
}

fn batch_of(words: &[Word]) -> Option<Command>
    ensures { result ≡ command_of form.Batch words.now }
{
    match *words {
        [Word::Base(name), Word::BatchCount(count), Word::Number(n)] => {
            Some(Command::Batch { name, count, n })
        }
        _ => None,
    }
}

fn unbatch_of(words: &[Word]) -> Option<Command>
    ensures { result ≡ command_of form.Unbatch words.now }
{
    match *words {
        [Word::Base(name)] => Some(Command::Unbatch { name }),
        _ => None,
    }
}

fn use_of(words: &[Word]) -> Option<Command>
    ensures { result ≡ command_of form.Use words.now }
{
    match *words {
        [Word::Zone(zone)] => Some(Command::Use { zone }),
        _ => None,
    }
}

/// The `realloc` with these two names.
fn names_of(old: OldName, new: BlockName, n: u64) -> Option<Command>
    ensures { result ≡ realloc_of old new n }
{
    let names = match old.get() {
        None => match new.get() {
            Name::Base(new) => Names::Fresh { new },
            _ => return None,
        },
        Some(old) => match new.get() {
            Name::Base(new) => Names::Renamed {
                old: old.get(),
                new,
            },
            Name::Batch(name) => Names::KeptBatch { name },
            Name::Given(name) => Names::KeptGiven { name },
        },
    };
    Some(Command::Realloc {
        names: Renaming::new(names),
        n,
    })
}
