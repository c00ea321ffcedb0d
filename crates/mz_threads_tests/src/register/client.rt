//! What a client of any book does with one keeper.
ghost use Rattle.std.specs.Prelude.{◌≡◌, ◌<◌, ◌≤◌, true, [], length};
ghost use Rattle.std.specs.Bool.{MatchBool};
ghost use Rattle.mz_book.specs.declared.light.Asked.TheVariants.{Settle, HoldLight};
ghost use Rattle.mz_threads_tests.specs.Toys.{MayBeFull, WasFull, WereFull, MayLight, HasLit, with_first, in_vain};

use crate::toy::Toy;
use mz_book::Book;
use mz_book::laws::numbers::{held_places, numbers_of_keepers};
use mz_book::laws::slots::lights_that_are_held;
use mz_events::laws::events::when_an_event_fits;
use mz_events::laws::holding::what_an_event_reads;
use mz_events::{Event, Place};
use std::sync::Wait;

/// Takes the keeper of large, notes that it has no room for a byte, and gives it back. Answers the ticket.
pub fn note_full<B: Book<Toy>, R: Wait>(rt: &R, book: &mut B) -> u64
    requires { MayBeFull (B.account book.old) 1 }
    ensures { WasFull (B.account book.old) result (B.account book.new) }
{
    numbers_of_keepers();
    held_places();
    when_an_event_fits();
    what_an_event_reads();
    let large = book.hold(rt, 4);
    let ticket = book.note(Event::Full {
        k: Place::Large { zone: 0 },
        n: 1,
        al: 1,
    });
    book.release(4, large);
    ticket
}

/// Does that 1,000 times.
pub fn note_full_often<B: Book<Toy>, R: Wait>(rt: &R, book: &mut B)
    requires { MayBeFull (B.account book.old) 1000 }
    ensures { WereFull (B.account book.old) 1000 (B.account book.new) }
{
    for _ in 0..1000u64 {
        note_full(rt, book);
    }
}

/// Settles the class 1 for the block 0. Whether it has that now.
pub fn settle_first<B: Book<Toy>>(book: &mut B) -> bool
    requires nano { 1 ≤ (B.account book.old).profile.nano }
    requires dark { (B.account book.old).lights ≡ [] }
    requires sized { length (B.account book.old).settled ≡ (B.account book.old).profile.nano }
    ensures account { MatchBool result (B.account book.new ≡ with_first (B.account book.old)) (B.account book.new ≡ in_vain (Settle 0 1) (B.account book.old)) }
    ensures may { result ≡ true → MayLight (B.account book.new) }
{
    book.settle(0, 1).is_ok()
}

/// Takes the light of an idle slot of the block 0 and gives it back. Whether the slot was idle and its light free.
pub fn take_light<B: Book<Toy>>(book: &mut B, j: u64) -> bool
    requires slot { j < 1024 }
    requires may { MayLight (B.account book.old) }
    ensures { MatchBool result (B.account book.new ≡ B.account book.old) (B.account book.new ≡ in_vain (HoldLight 0 j 0) (B.account book.old)) }
{
    lights_that_are_held();
    let Ok(light) = book.hold_light(0, j, 0) else {
        return false;
    };
    book.release_light(light, false);
    true
}

/// Settles the class, and then takes the light 1,000 times. Answers how often it got it, where the class is settled.
pub fn take_light_often<B: Book<Toy>>(book: &mut B, j: u64) -> Option<u64>
    requires slot { j < 1024 }
    requires nano { 1 ≤ (B.account book.old).profile.nano }
    requires dark { (B.account book.old).lights ≡ [] }
    requires sized { length (B.account book.old).settled ≡ (B.account book.old).profile.nano }
    ensures { HasLit (B.account book.old) result (B.account book.new) }
{
    if !settle_first(book) {
        return None;
    }
    let mut taken = 0;
    for _ in 0..1000u64 {
        if take_light(book, j) {
            taken += 1;
        }
    }
    Some(taken)
}
