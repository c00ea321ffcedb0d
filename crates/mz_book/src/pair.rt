//! The live blocks that callers own.
ghost use Rattle.std.specs.Prelude.{◌≡◌, ◌<◌, slice_set, vec_len};
ghost use Rattle.std.specs.Vec.{vec_capacity};
ghost use Rattle.mz_book.specs.Calls.{without};
ghost use Rattle.std.specs.List.{All};
ghost use Rattle.mz_book.specs.Owners.{quantum_at, quanta_after, BeginsWithin};
ghost use Rattle.mz_book.specs.Handed.{quanta_since};

use mz_events::{Entry, Event};

/// A live block, by its first address and its size in bytes, and the caller who owns it.
#[derive(Clone, Copy, Debug, PartialEq, Eq)]
pub struct Pair {
    pub caller: u32,
    pub first: u64,
    pub size: u64,
}

/// The block that begins at `a` is the caller's.
pub(crate) fn set_owner(quanta: &mut Vec<u8>, a: u64, caller: u8)
    requires { quantum_at a < vec_len quanta.old }
    ensures items { quanta.new.items ≡ slice_set quanta.old.items (quantum_at a) caller }
    ensures len { vec_len quanta.new ≡ vec_len quanta.old }
{
    quanta[(a / 16) as usize] = caller;
}

/// A block that an event of a caller makes is the caller's.
pub(crate) fn own(quanta: &mut Vec<u8>, caller: u8, event: Event)
    requires { BeginsWithin quanta.old.items event }
    ensures items { quanta.new.items ≡ quanta_after caller quanta.old.items event }
    ensures len { vec_len quanta.new ≡ vec_len quanta.old }
{
    match event {
        Event::New { a, .. } => set_owner(quanta, a, caller),
        _ => {}
    }
}

/// Each block that these entries make is its caller's.
pub fn own_all(quanta: &mut Vec<u8>, entries: &[Entry])
    requires within { All (λ e. BeginsWithin quanta.old.items e.event) entries.now }
    requires callers { All (λ e. e.caller < 256) entries.now }
    ensures items { quanta.new.items ≡ quanta_since quanta.old.items entries.now }
    ensures len { vec_len quanta.new ≡ vec_len quanta.old }
{
    for entry in entries {
        own(quanta, entry.caller as u8, entry.event);
    }
}

/// The numbers without one.
pub(crate) fn leave(held: &mut Vec<usize>, k: usize)
    ensures items { held.new.items ≡ without k held.old.items }
    ensures capacity { vec_capacity held.new ≡ vec_capacity held.old }
{
    held.retain(|x| *x != k);
}
