//! What callers do with one slot of nano: the slot 3 of class 4 in block 1, which is page 3.
ghost use Rattle.std.specs.Prelude.{◌≡◌, ◌≤◌, ◌-◌};
ghost use Rattle.mz_threads_tests.specs.Toys.{toy_profile, with_room, with_slot, with_given_slot, with_ended_slot};

use crate::toy::Toy;
use mz_book::{Book, PlainBook};
use mz_events::{Event, Place};

/// Settles the class of the block, asks in vain for another, and makes the slot's block. Answers the class that was found, and the
/// ticket.
pub fn make_slot<B: Book<Toy>>(book: &mut B) -> (u64, u64)
    requires room { 1 ≤ (B.account book.old).spare }
    requires start { B.account book.old ≡ with_room (B.account book.old).spare }
    ensures { B.account book.new ≡ with_slot ((B.account book.old).spare - 1) }
{
    let Ok(()) = book.settle(1, 4) else {
        unreachable!();
    };
    let Err(found) = book.settle(1, 5) else {
        unreachable!();
    };
    let Ok(light) = book.hold_light(1, 3, 0) else {
        unreachable!();
    };
    let ticket = book.note(Event::New {
        k: Place::Nano,
        a: 49_344,
        s: 64,
        al: 16,
    });
    book.release_light(light, true);
    (found.word, ticket)
}

/// Takes the slot for an idle one, in vain, and ends its block. Answers the word that was found, and the ticket.
pub fn end_slot<B: Book<Toy>>(book: &mut B) -> (u64, u64)
    requires room { 1 ≤ (B.account book.old).spare }
    requires start { B.account book.old ≡ with_given_slot (B.account book.old).spare }
    ensures { B.account book.new ≡ with_ended_slot ((B.account book.old).spare - 1) }
{
    let Err(found) = book.hold_light(1, 3, 0) else {
        unreachable!();
    };
    let Ok(light) = book.hold_light(1, 3, 1) else {
        unreachable!();
    };
    let ticket = book.note(Event::End {
        k: Place::Nano,
        a: 49_344,
        s: 64,
    });
    book.release_light(light, false);
    (found.word, ticket)
}

/// The class of the block, and the slot's word.
pub fn words(book: &PlainBook<Toy>) -> (u64, u64)
    requires { (⟦<PlainBook<Toy> as Book<Toy>>⟧.account book.now).profile ≡ toy_profile }
{
    (book.class_word(1), book.slot_word(1, 3))
}
