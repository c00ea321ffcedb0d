//! Owners and hands after entries of callers, one after another.

ghost use Rattle.std.specs.Prelude.{◌≡◌, ◌*◌, ℕ, List, [], ◌∷◌, ◌++◌, length, IsTrue};
ghost use Rattle.mz_base.specs.declared.profile.Profile.{Profile};
ghost use Rattle.mz_events.specs.declared.entry.Entry.{Entry as entry};
ghost use Rattle.mz_events.specs.State.{opening};
ghost use Rattle.mz_events.specs.History.{AreLawful, after_all};
ghost use Rattle.mz_events.specs.Hands.{own, hand_through};
ghost use Rattle.mz_book.specs.declared.pair.Pair.{Pair as pair};
ghost use Rattle.mz_book.specs.Pairs.{hand_among, is_in_hand};
ghost use Rattle.mz_book.specs.Owners.{pairs_told};
ghost use Rattle.mz_book.specs.Rule.{AreInOneHand};
ghost use Rattle.mz_book.specs.Handed.{pairs_since, AreHanded, GoesOn};

use crate::laws::live::live_blocks_after_an_event;
use crate::laws::of_histories;
use mz_events::laws::separation::live_bytes_fit_the_space;

/// After entries of callers each caller's hand is what its own entries make of it. Where each ends, resizes and denies only what is in its
/// hand then, owners that told the pairs go on to tell them.
pub fn owners_after_entries()
    ensures hands { (c : ℕ) (pairs : List pair) (entries : List entry) → hand_among c (pairs_since pairs entries) ≡ hand_through (hand_among c pairs) (own c entries) }
    ensures more { (pairs : List pair) (entries : List entry) (e : entry) → AreHanded pairs entries → IsTrue (is_in_hand (hand_among e.caller (pairs_since pairs entries)) e.event) →
        AreHanded pairs (entries ++ e ∷ []) }
    ensures owners { (p : Profile) (before later : List entry) (quanta : List ℕ) → AreLawful p opening (before ++ later) → length quanta ≡ p.pages * 1024 →
        AreInOneHand (after_all p opening before) (pairs_told quanta before) → AreHanded (pairs_told quanta before) later → GoesOn p quanta before later }
{
    of_histories();
    live_blocks_after_an_event();
    live_bytes_fit_the_space();
}
