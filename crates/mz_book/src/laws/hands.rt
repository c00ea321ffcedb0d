//! A caller's hand, among the pairs of all.

ghost use Rattle.std.specs.Prelude.{◌≡◌, ◌≢◌, ℕ, List, IsTrue};
ghost use Rattle.mz_base.specs.Space.{Block};
ghost use Rattle.mz_base.specs.Lists.{has_block};
ghost use Rattle.mz_events.specs.declared.entry.Entry.{Entry as entry};
ghost use Rattle.mz_events.specs.declared.event.Event.{Event as event};
ghost use Rattle.mz_events.specs.Places.{Spot};
ghost use Rattle.mz_events.specs.Hands.{hand_after, hand_through};
ghost use Rattle.mz_book.specs.declared.pair.Pair.{Pair as pair};
ghost use Rattle.mz_book.specs.Pairs.{hand_among, pairs_after};
ghost use Rattle.mz_book.specs.Growth.{pairs_through};
ghost use Rattle.mz_book.specs.Account.{Account, IsOrderly, state_of, known, hand, is_live};

use crate::laws::of_histories;

/// After an event of a caller its hand is what the event makes of it, and each other hand stays. So after entries of a caller its hand
/// is what they make of it, one after another.
pub fn hands_after_an_event()
    ensures own { (c : ℕ) (pairs : List pair) (e : event) → hand_among c (pairs_after c pairs e) ≡ hand_after (hand_among c pairs) e }
    ensures others { (c d : ℕ) (pairs : List pair) (e : event) → d ≢ c → hand_among d (pairs_after c pairs e) ≡ hand_among d pairs }
    ensures through { (c : ℕ) (pairs : List pair) (entries : List entry) → hand_among c (pairs_through c pairs entries) ≡ hand_through (hand_among c pairs) entries }
{}

/// What is in a book's hand is live in the state after all that the book has seen, and so it is live at some spot.
pub fn what_is_in_the_hand()
    ensures live { (s : Account) (b : Block) → IsOrderly s → IsTrue (has_block (hand s) b) → IsTrue (is_live (state_of s) b) }
    ensures somewhere { (s : Account) (b : Block) → IsOrderly s → IsTrue (has_block (hand s) b) → (j : Spot) × IsTrue (has_block (known s j).kept.live b) }
{
    of_histories();
}
