//! What is live after an event.

ghost use Rattle.std.specs.Prelude.{◌≡◌, ◌<◌, ℕ, List, map, sum_by, IsTrue};
ghost use Rattle.mz_base.specs.declared.profile.Profile.{Profile};
ghost use Rattle.mz_base.specs.Space.{Block, Run};
ghost use Rattle.mz_base.specs.Lists.{has_run};
ghost use Rattle.mz_events.specs.declared.entry.Entry.{Entry as entry};
ghost use Rattle.mz_events.specs.declared.event.Event.{Event as event};
ghost use Rattle.mz_events.specs.Changes.{one_for};
ghost use Rattle.mz_events.specs.Places.{zone_of, Spot, place_of};
ghost use Rattle.mz_events.specs.State.{State, opening, kept_at, live_blocks};
ghost use Rattle.mz_events.specs.Separation.{by_address};
ghost use Rattle.mz_events.specs.Effect.{after};
ghost use Rattle.mz_events.specs.Rules.{Fits};
ghost use Rattle.mz_events.specs.History.{AreLawful, after_all};
ghost use Rattle.mz_book.specs.Account.{is_live};
ghost use Rattle.mz_book.specs.Living.{lives_after, times, blocks_of, SumsAfter};

use crate::laws::of_histories;

/// After an event that fits, a new block is live, one that ended isn't, one that changed its size is live with the new one, and
/// for all others it is as before: wherever their region goes, they stay live.
pub fn live_blocks_after_an_event()
    ensures { (p : Profile) (entries : List entry) (c : ℕ) (e : event) (b : Block) →
        AreLawful p opening entries → Fits p (after_all p opening entries) c e →
        is_live (after p (after_all p opening entries) c e) b ≡ lives_after e b (is_live (after_all p opening entries) b) }
{
    of_histories();
}

/// Each live block is among the live blocks once, and what isn't live is there never. So blocks of which the same holds are these, in some
/// order, and any number that is added up over them is the same.
pub fn live_blocks_stand_once()
    ensures once { (p : Profile) (entries : List entry) (b : Block) → AreLawful p opening entries →
        times b (blocks_of (after_all p opening entries)) ≡ one_for (is_live (after_all p opening entries) b) }
    ensures in_order { (s : State) (b : Block) → times b (map (λ x. x.1) (by_address (live_blocks s))) ≡ times b (blocks_of s) }
    ensures sums { (f : Block → ℕ) (xs ys : List Block) → ((b : Block) → times b xs ≡ times b ys) → sum_by f xs ≡ sum_by f ys }
{
    of_histories();
}

/// Runs are in places of the profile's zones.
pub fn runs_are_in_zones()
    ensures { (p : Profile) (entries : List entry) (j : Spot) (r : Run) → AreLawful p opening entries →
        IsTrue (has_run (kept_at (after_all p opening entries) j).runs r) → zone_of (place_of j) < p.zones }
{
    of_histories();
}

/// An event that fits changes the number of live blocks and the sum of their bytes by what it makes and what it ends.
pub fn live_sums_after_an_event()
    ensures { (p : Profile) (entries : List entry) (c : ℕ) (e : event) →
        AreLawful p opening entries → Fits p (after_all p opening entries) c e →
        SumsAfter e (after_all p opening entries) (after p (after_all p opening entries) c e) }
{
    of_histories();
}
