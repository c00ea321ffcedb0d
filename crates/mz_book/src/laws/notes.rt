//! What an event of a caller leaves of hands, lights and classes.

ghost use Rattle.std.specs.Prelude.{◌≡◌, ℕ, List, IsTrue};
ghost use Rattle.mz_base.specs.declared.profile.Profile.{Profile};
ghost use Rattle.mz_events.specs.declared.entry.Entry.{Entry as entry};
ghost use Rattle.mz_events.specs.declared.event.Event.{Event as event};
ghost use Rattle.mz_events.specs.State.{opening};
ghost use Rattle.mz_events.specs.History.{AreLawful, after_all};
ghost use Rattle.mz_book.specs.declared.pair.Pair.{Pair as pair};
ghost use Rattle.mz_book.specs.Account.{Account};
ghost use Rattle.mz_book.specs.Calls.{CanNote};
ghost use Rattle.mz_book.specs.Lights.{has_slot, is_slot_live};
ghost use Rattle.mz_book.specs.Noting.{HandsAreKept, NoteIsKept};
ghost use Rattle.mz_book.specs.Pairs.{hand_among};
ghost use Rattle.mz_book.specs.Rule.{AreInOneHand};

use crate::laws::live::live_blocks_after_an_event;
use crate::laws::of_histories;

/// An event that a caller may note is lawful and keeps hands, lights and classes, whatever lights others hold.
pub fn notes_keep_hands()
    ensures { (s : Account) (e : event) → HandsAreKept s → CanNote s e → NoteIsKept s e }
{
    of_histories();
    live_blocks_after_an_event();
}

/// Where a slot's pair is in a hand, it is live; and it is in one hand alone.
pub fn slots_are_in_one_hand()
    ensures live { (p : Profile) (es : List entry) (pairs : List pair) (c b j : ℕ) → AreLawful p opening es → AreInOneHand (after_all p opening es) pairs →
        IsTrue (has_slot p (hand_among c pairs) b j) → IsTrue (is_slot_live p (after_all p opening es) b j) }
    ensures one { (p : Profile) (es : List entry) (pairs : List pair) (c d b j : ℕ) → AreLawful p opening es → AreInOneHand (after_all p opening es) pairs →
        IsTrue (has_slot p (hand_among c pairs) b j) → IsTrue (has_slot p (hand_among d pairs) b j) → c ≡ d }
{
    of_histories();
}
