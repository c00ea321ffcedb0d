//! Blocks of nano: how a slot becomes a live block, and how that ends.
//!
//! ```text
//! request   pop    settle    hold_light, 0     note new   release_light
//!            |       |           |
//!           miss   Found       Found            the slot goes back where it was popped, and nano has no block
//!
//! free      hold_light, 1    note end   release_light   push, again while another seat comes between
//! ```
ghost use Rattle.std.specs.Prelude.{◌≡◌, ◌≤◌, ◌*◌, Some, IsTrue};
ghost use Rattle.mz_base.specs.Lists.{has_block};
ghost use Rattle.mz_base.specs.Space.{block_at};
ghost use Rattle.mz_book.specs.Account.{hand};
ghost use Rattle.mz_nano.specs.Lists.{In};
ghost use Rattle.mz_nano.specs.SeatLists.{SitsAt, space_of, first_of, hand_of};
ghost use Rattle.mz_zone.specs.Calling.{seen, with_seat, CanCall, KeepsReferences};
ghost use Rattle.mz_zone.specs.Making.{CanNoteSlot, MakesBlock, IsEnded, IsPutBack, Takes, TakesFor, held_of};

use crate::at::At;
use crate::laws::{of_book, of_zones};
use mz_base::units;
use mz_book::Book;
use mz_events::{Event, Place};
use mz_nano::{Nano, NanoSeat, SlotSpan};
use mz_rack::Keeper;
use std::sync::Wait;

// The most bytes of a request that nano serves.
const MOST: u64 = 256;

/// The alignment of a request that names none, and of all slots.
pub(crate) const QUANTUM: u64 = 16;

/// Tries nano once for a request that is one for it.
pub(crate) fn try_nano<B: Book<Keeper>, R: Wait>(
    rt: &R,
    at: &mut At<B>,
    zone: u32,
    n: u64,
    al: u64,
) -> Option<SlotSpan>
    requires can { CanCall (seen B.account at.old) (B.account at.old.book.now).profile zone 1 }
    ensures references { KeepsReferences at.old at.new }
    ensures takes { TakesFor (seen B.account at.old) zone n al result (seen B.account at.new) }
{
    if zone != 0 || n > MOST || al != QUANTUM {
        return None;
    }
    let Some(both) = &mut at.nano else {
        return None;
    };
    take_block(rt, at.book, both.0, both.1, units(n))
}

// Pops a slot of the class and makes it a live block. A slot that can't be one goes back.
fn take_block<B: Book<Keeper>, R: Wait>(
    rt: &R,
    book: &mut B,
    nano: &Nano,
    seat: &mut NanoSeat,
    class: u64,
) -> Option<SlotSpan>
    requires can { CanCall (with_seat (B.account book.old) nano.now seat.old) (B.account book.old).profile 0 1 }
    requires class { (1 ≤ class) × (class ≤ 16) }
    ensures { Takes (with_seat (B.account book.old) nano.now seat.old) class result (with_seat (B.account book.new) nano.now seat.new) }
{
    of_zones();
    of_book(book);
    let slot = match nano.pop(seat, class) {
        Ok(slot) => slot,
        Err(_miss) => return None,
    };
    if make_block(book, &slot) {
        return Some(slot);
    }
    put_back(rt, nano, seat, slot);
    None
}

// Makes the slot a live block, where its page's class and its own word allow it.
fn make_block<B: Book<Keeper>>(book: &mut B, slot: &SlotSpan) -> bool
    requires { CanNoteSlot (B.account book.old) slot.now }
    ensures { MakesBlock (B.account book.old) slot.now result (B.account book.new) }
{
    of_zones();
    of_book(book);
    let b = slot.block();
    let class = slot.class();
    let Ok(()) = book.settle(b, class) else {
        return false;
    };
    let Ok(light) = book.hold_light(b, slot.slot(), 0) else {
        return false;
    };
    book.note(Event::New {
        k: Place::Nano,
        a: slot.first(),
        s: QUANTUM * class,
        al: QUANTUM,
    });
    book.release_light(light, true);
    true
}

/// Ends the block of a slot.
pub(crate) fn end_block<B: Book<Keeper>>(book: &mut B, slot: &SlotSpan)
    requires can { CanNoteSlot (B.account book.old) slot.now }
    requires in_hand { IsTrue (has_block (hand (B.account book.old)) (block_at slot.now.span.first (16 * slot.now.class))) }
    ensures { IsEnded (B.account book.old) slot.now (B.account book.new) }
{
    of_zones();
    of_book(book);
    let Ok(light) = book.hold_light(slot.block(), slot.slot(), 1) else {
        unreachable!();
    };
    book.note(Event::End {
        k: Place::Nano,
        a: slot.first(),
        s: QUANTUM * slot.class(),
    });
    book.release_light(light, false);
}

/// Pushes a slot until no other seat comes between.
pub(crate) fn put_back<R: Wait>(rt: &R, nano: &Nano, seat: &mut NanoSeat, slot: SlotSpan)
    requires one { SitsAt nano.now seat.old }
    requires mine { In (held_of slot) (hand_of seat.old) }
    requires place { (slot.span.space ≡ space_of nano.now) × (slot.base ≡ first_of nano.now) }
    ensures { IsPutBack nano.now seat.old slot seat.new }
{
    let mut left = slot;
    for _ in rt.forever() {
        match nano.push(seat, left) {
            Ok(()) => return,
            Err(contended) => left = contended.slot,
        }
    }
    unreachable!()
}
