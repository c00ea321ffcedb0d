//! A client of any book.
ghost use Rattle.std.specs.Prelude.{◌≡◌, [], ◌∷◌};
ghost use Rattle.mz_book.specs.Account.{entry_at};
ghost use Rattle.mz_book.specs.Growth.{Grows};
ghost use Rattle.mz_book.specs.Client.{MayNoteBoth};

use crate::book::Book;
use crate::laws::of_histories;
use mz_events::{Event, Keep};
use std::sync::Wait;

/// Takes two keepers, notes two events that leave what these keep, and gives both back. The record grows by just the two entries,
/// whose tickets it answers.
pub fn note_both<V: Keep, B: Book<V>, R: Wait>(
    rt: &R,
    book: &mut B,
    k: usize,
    l: usize,
    d: Event,
    e: Event,
) -> (u64, u64)
    requires { MayNoteBoth (B.account book.old) k l d e }
    ensures grows { Grows (B.account book.old) (entry_at result.0 (B.account book.old).caller d ∷ entry_at result.1 (B.account book.old).caller e ∷ []) 2 (B.account book.new) }
    ensures nothing_held { (B.account book.new).held ≡ [] }
{
    of_histories();
    let v = book.hold(rt, k);
    let w = book.hold(rt, l);
    let first = book.note(d);
    let second = book.note(e);
    book.release(l, w);
    book.release(k, v);
    (first, second)
}
