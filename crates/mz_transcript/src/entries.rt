//! Entries of a printed run, from their words.

ghost use Rattle.std.specs.Prelude.{◌≡◌, IfOk, map};
ghost use Rattle.mz_transcript.specs.Entries.{entry_in};

use mz_lines::event::read_event;
use mz_trace::RunEntry;
use mz_words::numbers::number;
use std::alloc::{AllocError, Global};

/// The entry that words are, its ticket first, or None where they are none.
pub fn read_entry(alloc: Global, texts: &[&[u8]]) -> Result<Option<RunEntry>, AllocError>
    ensures { IfOk result (λ o. o ≡ entry_in (map (λ t. t.now) texts.now)) }
{
    let [first, rest @ ..] = texts else {
        return Ok(None);
    };
    match number(first) {
        None => Ok(None),
        Some(ticket) => match read_event(alloc, rest)? {
            None => Ok(None),
            Some(event) => Ok(Some(RunEntry { ticket, event })),
        },
    }
}
