//! What several calls of a book add up to.

ghost use Rattle.std.specs.Prelude.{◌≡◌, ℕ, ◌+◌, false, List, [], ◌∷◌, ◌++◌};
ghost use Rattle.mz_events.specs.declared.entry.Entry.{Entry as entry};
ghost use Rattle.mz_events.specs.declared.event.Event.{Event as event};
ghost use Rattle.mz_events.specs.Holding.{changes_zones};
ghost use Rattle.mz_book.specs.Account.{Account, entry_at};
ghost use Rattle.mz_book.specs.Calls.{Gains, Holds, CanNote, Notes, Releases};
ghost use Rattle.mz_book.specs.Growth.{Adds, Grows, GrowsHolding};

use crate::laws::of_histories;

/// What one call adds, and that growths join: the entries of both, one after another. While nothing is given back, no other
/// caller's entry comes in between at a place that was touched. Where nothing was held and nothing noted, as after a look at a keeper that is
/// given back, what follows joins too. What is added joins always, and says nothing of others' entries. A keeper that is gained without a
/// count adds as one that is held, but for that.
pub fn growth_of_calls()
    ensures nothing { (s : Account) → GrowsHolding s [] 0 s }
    ensures hold { (s t : Account) (k : ℕ) → Holds s k t → GrowsHolding s [] 1 t }
    ensures gain { (s t : Account) (k : ℕ) → Gains s k s.holds t → GrowsHolding s [] 0 t }
    ensures note { (s t : Account) (e : event) (n : ℕ) → CanNote s e → changes_zones e ≡ false → Notes s e n t →
        GrowsHolding s (entry_at n s.caller e ∷ []) 0 t }
    ensures joined { (s t u : Account) (xs ys : List entry) (m n : ℕ) → GrowsHolding s xs m t → GrowsHolding t ys n u → GrowsHolding s (xs ++ ys) (m + n) u }
    ensures ended { (s t u : Account) (xs ys : List entry) (m n : ℕ) → GrowsHolding s xs m t → Grows t ys n u → Grows s (xs ++ ys) (m + n) u }
    ensures added { (s t u : Account) (xs ys : List entry) (m n : ℕ) → Adds s xs m t → Adds t ys n u → Adds s (xs ++ ys) (m + n) u }
    ensures looked { (s t : Account) (n : ℕ) → s.held ≡ [] → Grows s [] n t → GrowsHolding s [] n t }
    ensures release { (s t u : Account) (xs : List entry) (n k : ℕ) → Grows s xs n t → Releases t k u → Grows s xs n u }
{
    of_histories();
}

/// Two calls, one after the other.
pub fn two_calls()
    ensures hold_then_note { (s t u : Account) (k n : ℕ) (e : event) → Holds s k t → CanNote t e → changes_zones e ≡ false → Notes t e n u →
        GrowsHolding s (entry_at n s.caller e ∷ []) 1 u }
    ensures note_then_note { (s t u : Account) (d e : event) (m n : ℕ) → CanNote s d → changes_zones d ≡ false → Notes s d m t →
        CanNote t e → changes_zones e ≡ false → Notes t e n u →
        GrowsHolding s (entry_at m s.caller d ∷ entry_at n s.caller e ∷ []) 0 u }
    ensures note_then_release { (s t u : Account) (e : event) (n k : ℕ) → CanNote s e → changes_zones e ≡ false → Notes s e n t → Releases t k u →
        Grows s (entry_at n s.caller e ∷ []) 0 u }
{
    growth_of_calls();
}
