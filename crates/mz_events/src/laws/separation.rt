//! What holds of each state that entries leave from the opening state, each of them lawful on the state that those before it
//! leave. Duties may stand there, but where a law says that none does.

ghost use Rattle.std.specs.Prelude.{◌≡◌, ◌≤◌, ℕ, false, List, length, Some, None, IsTrue};
ghost use Rattle.mz_base.specs.declared.profile.Profile.{Profile};
ghost use Rattle.mz_base.specs.Space.{Block, Run};
ghost use Rattle.mz_base.specs.Lists.{has_run, has_block};
ghost use Rattle.mz_events.specs.declared.place.Place.{Place as place};
ghost use Rattle.mz_events.specs.declared.place.Place.TheVariants.{Large};
ghost use Rattle.mz_events.specs.declared.entry.Entry.{Entry as entry};
ghost use Rattle.mz_events.specs.Places.{Spot, is_depot, spot_of};
ghost use Rattle.mz_events.specs.State.{opening, value_at, kept_at};
ghost use Rattle.mz_events.specs.Duties.{is_unused};
ghost use Rattle.mz_events.specs.History.{AreLawful, after_all};
ghost use Rattle.mz_events.specs.Separation.{IsSeparate, IsAscending, IsFreedThere};
ghost use Rattle.mz_events.specs.Bounds.{LiveBytesFit, RunsFit, RegionsFit};
ghost use Rattle.mz_events.specs.Forms.{HasForm, IsCachedThere};

/// Each page is in just one place, live blocks lie in runs of their places, and all live blocks are apart, across places
/// and zones.
pub fn separation()
    ensures { (p : Profile) (entries : List entry) → AreLawful p opening entries → IsSeparate p (after_all p opening entries) }
{}

/// The lists of runs and of live blocks are ascending, those of each place and that of all live blocks together, and each
/// live block has a byte at least.
pub fn live_blocks_are_ascending()
    ensures { (p : Profile) (entries : List entry) → AreLawful p opening entries → IsAscending p (after_all p opening entries) }
{}

/// A last freed block is one of a magazine, has a byte at least, lies in a run of that magazine, and is apart from its live
/// blocks.
pub fn last_freed_lies_in_its_magazine()
    ensures { (p : Profile) (entries : List entry) (j : Spot) (f : Block) → AreLawful p opening entries →
        (kept_at (after_all p opening entries) j).last_freed ≡ Some f →
        IsFreedThere (after_all p opening entries) j f }
{}

/// A live block has the form of its place: a size of the range, on quanta of a region, a whole large run, or a slot of a nano
/// page of one size.
pub fn live_blocks_have_their_forms()
    ensures { (p : Profile) (entries : List entry) (j : Spot) (b : Block) → AreLawful p opening entries →
        IsTrue (has_block (kept_at (after_all p opening entries) j).live b) →
        HasForm (after_all p opening entries) j b }
{}

/// A cached run is one of a large place, and holds no live block.
pub fn cached_runs_are_idle()
    ensures { (p : Profile) (entries : List entry) (j : Spot) (r : Run) → AreLawful p opening entries →
        IsTrue (has_run (kept_at (after_all p opening entries) j).cached r) →
        IsCachedThere (after_all p opening entries) j r }
{}

/// A large place at which no duty stands has at most 16 cached runs, and any has at most 17.
pub fn few_are_cached()
    ensures calm { (p : Profile) (entries : List entry) (z : ℕ) → AreLawful p opening entries →
        (value_at (after_all p opening entries) (spot_of (Large z))).duty ≡ None →
        length (kept_at (after_all p opening entries) (spot_of (Large z))).cached ≤ 16 }
    ensures ever { (p : Profile) (entries : List entry) (z : ℕ) → AreLawful p opening entries →
        length (kept_at (after_all p opening entries) (spot_of (Large z))).cached ≤ 17 }
{}

/// A depot at which no duty stands has a live block in each of its regions.
pub fn depots_hold_no_unused_region()
    ensures { (p : Profile) (entries : List entry) (d : place) (r : Run) → AreLawful p opening entries → IsTrue (is_depot d) →
        (value_at (after_all p opening entries) (spot_of d)).duty ≡ None →
        IsTrue (has_run (kept_at (after_all p opening entries) (spot_of d)).runs r) →
        is_unused (kept_at (after_all p opening entries) (spot_of d)).live r ≡ false }
{}

/// Live blocks end within the space, and the live bytes, now and at their most, are no more than the space has.
pub fn live_bytes_fit_the_space()
    ensures { (p : Profile) (entries : List entry) → AreLawful p opening entries → LiveBytesFit p (after_all p opening entries) }
{}

/// Each run has a length of its place, a region begins at a multiple of its length, and the runs of a place have no more
/// pages than lie below nano's.
pub fn runs_fit_the_space()
    ensures { (p : Profile) (entries : List entry) → AreLawful p opening entries → RunsFit p (after_all p opening entries) }
{}

/// The regions of a range are no more than the whole stretches of their length, and fewer where pages are free for one
/// more: where the regions and some blanks are as many as the stretches, there is a blank for each region that can be taken.
pub fn regions_fit_the_space()
    ensures { (p : Profile) (entries : List entry) → AreLawful p opening entries → RegionsFit p (after_all p opening entries) }
{}
