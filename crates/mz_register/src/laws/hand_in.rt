//! What passes that are handed in give, and when they can be.

ghost use Rattle.std.specs.Prelude.{◌≡◌, ◌<◌, ℕ, List, length, Some, slice_get};
ghost use Rattle.std.specs.List.{All};
ghost use Rattle.atomic_table.specs.Seated.{TableId};
ghost use Rattle.mz_base.specs.declared.profile.Profile.{Profile};
ghost use Rattle.mz_events.specs.State.{is_open};
ghost use Rattle.mz_events.specs.Hands.{own, hand_through};
ghost use Rattle.mz_book.specs.Pairs.{hand_among};
ghost use Rattle.mz_book.specs.Account.{Account, state_of};
ghost use Rattle.mz_register.specs.declared.pass.Pass.{Pass as pass};
ghost use Rattle.mz_register.specs.Accounts.{pass_account};
ghost use Rattle.mz_register.specs.HandIn.{IsIdleOf, AreAll, HandsIn};

use mz_book::laws::owners::owners_after_entries;
use mz_events::laws::entries::{states_split, zones_after_an_event};

/// As many passes as there are callers, in order of these, are all passes of the register.
pub fn passes_in_order<V>()
    ensures { (z : TableId) (p : Profile) (passes : List (pass V)) → length passes ≡ p.callers →
        ((c : ℕ) (x : pass V) → slice_get passes c ≡ Some x → IsIdleOf z p (pass_account x) × ((pass_account x).caller ≡ c)) → AreAll z p passes }
{}

/// Once passes are handed in, each caller's hand is what its own entries make of the one that it had at the opening. Where all owners were
/// callers of the profile, they all are. And the zones that were open are open.
pub fn what_was_handed_in<V>()
    ensures hands { (s t : Account) (passes : List (pass V)) (h : HandsIn s passes t) (c : ℕ) → hand_among c t.pairs ≡ hand_through (hand_among c s.pairs) (own c h.later) }
    ensures owners { (s t : Account) (passes : List (pass V)) → HandsIn s passes t → All (λ x. x.caller < s.profile.callers) s.pairs → All (λ x. x.caller < s.profile.callers) t.pairs }
    ensures zones { (s t : Account) (passes : List (pass V)) → HandsIn s passes t → (z : ℕ) → is_open (state_of t) z ≡ is_open (state_of s) z }
{
    owners_after_entries();
    states_split();
    zones_after_an_event();
}
