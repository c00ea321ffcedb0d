//! Worked histories of the last freed block, of large runs, of a block that grows in place, of a
//! second zone, and of nano. The lists stand in `specs/Rows.antt`.

ghost use Rattle.std.specs.Prelude.{◌≡◌, ◌+◌, ◌-◌, [], ◌∷◌, ◌++◌};
ghost use Rattle.mz_base.specs.Space.{block_at, run_at};
ghost use Rattle.mz_events.specs.declared.event.Event.TheVariants as event;
ghost use Rattle.mz_events.specs.declared.place.Place.TheVariants as place;
ghost use Rattle.mz_events.specs.Places.{spot_of, spot_at};
ghost use Rattle.mz_events.specs.Rules.{duty_first, existing, takes_lowest, backs_unused, fits_apart, placed, zone_changes};
ghost use Rattle.mz_events.specs.State.{live_blocks, placed_runs, all_runs};
ghost use Rattle.mz_events.specs.History.{IsLawfulHistory, breach_of, state_of};
ghost use Rattle.mz_examples.specs.Examples.{profile_of, entry_of, breach_at, magazine, large, first_region};
ghost use Rattle.mz_examples.specs.Rows.{one_ends, not_lower, wide_reading, narrow_reading, overwritten, large_cache as served_again, until_limit, cache_limit as row_of_17, grown as block_grown, blocked, two_zones, second, zone_life as zone_of_its_own, two_nano_pages, LAST_PAGE, first_slot, slots};

use mz_events::laws::lawful_without_breach;

/// A block of just the size of the last freed one is placed there and nowhere else.
pub fn freed_last()
    ensures lawful { IsLawfulHistory (profile_of 64) not_lower }
    ensures lower { breach_of (profile_of 64) (one_ends ++ entry_of 7 (event.End magazine 48 48) ∷ entry_of 8 (event.New magazine 0 48 16) ∷ [])
        ≡ breach_at 8 placed }
{
    lawful_without_breach();
}

/// For a block of another size the last freed one counts as idle or as live. Once it is overwritten
/// there is none.
pub fn either_reading()
    ensures wide { IsLawfulHistory (profile_of 64) wide_reading }
    ensures narrow { IsLawfulHistory (profile_of 64) narrow_reading }
    ensures overwritten { IsLawfulHistory (profile_of 64) overwritten }
    ensures neither { breach_of (profile_of 64) (one_ends ++ entry_of 7 (event.New magazine 16 32 16) ∷ []) ≡ breach_at 7 placed }
{
    lawful_without_breach();
}

/// Row `large-cache`: a cached run of 5 pages serves a request for 3, and one of 6 pages doesn't.
pub fn large_cache()
    ensures lawful { IsLawfulHistory (profile_of 64) served_again }
    ensures live { live_blocks (state_of (profile_of 64) served_again) ≡ (spot_of large, block_at 0 81920) ∷ (spot_of large, block_at 180224 49152) ∷ [] }
{
    lawful_without_breach();
}

/// Row `cache-limit`: where 17 runs are cached the oldest goes back, and may not stay.
pub fn cache_limit()
    ensures lawful { IsLawfulHistory (profile_of 64) row_of_17 }
    ensures left_out { breach_of (profile_of 64) until_limit ≡ breach_at 68 duty_first }
    ensures not_oldest { breach_of (profile_of 64) (until_limit ++ entry_of 68 (event.Back large 3 3) ∷ []) ≡ breach_at 68 duty_first }
{
    lawful_without_breach();
}

/// A block grows in place over idle quanta, and not over a live block.
pub fn grown()
    ensures lawful { IsLawfulHistory (profile_of 64) block_grown }
    ensures live { live_blocks (state_of (profile_of 64) block_grown) ≡ (spot_of magazine, block_at 0 112) ∷ [] }
    ensures blocked { breach_of (profile_of 64) blocked ≡ breach_at 5 fits_apart }
{
    lawful_without_breach();
}

/// A zone opens, serves, is asked for a block by another zone, and is shut.
pub fn zone_life()
    ensures lawful { IsLawfulHistory two_zones zone_of_its_own }
    ensures nothing { placed_runs (state_of two_zones zone_of_its_own) ≡ [] }
    ensures closed { breach_of two_zones (entry_of 0 (event.Full second 16 16) ∷ []) ≡ breach_at 0 existing }
    ensures default { breach_of two_zones (entry_of 0 (event.Shut 0) ∷ []) ≡ breach_at 0 zone_changes }
{
    lawful_without_breach();
}

/// Nano serves whole slots of one size in each page, and nothing outside its pages.
pub fn nano_slots()
    ensures lawful { IsLawfulHistory two_nano_pages slots }
    ensures live { live_blocks (state_of two_nano_pages slots) ≡ (spot_at place.Nano LAST_PAGE, block_at (LAST_PAGE + 48) 48) ∷ [] }
    ensures runs { all_runs two_nano_pages (state_of two_nano_pages slots) ≡ (spot_at place.Nano (LAST_PAGE - 16384), run_at 62 2) ∷ [] }
    ensures other_size { breach_of two_nano_pages (first_slot ++ entry_of 1 (event.New place.Nano (LAST_PAGE + 64) 32 16) ∷ []) ≡ breach_at 1 placed }
    ensures overlap { breach_of two_nano_pages (first_slot ++ entry_of 1 (event.New place.Nano (LAST_PAGE + 16) 48 16) ∷ []) ≡ breach_at 1 fits_apart }

    // From the page before into the last one: over a live block there, and over none.
    ensures overlap_from_below { breach_of two_nano_pages (first_slot ++ entry_of 1 (event.New place.Nano (LAST_PAGE - 16) 48 16) ∷ [])
        ≡ breach_at 1 fits_apart }
    ensures two_pages { breach_of two_nano_pages (entry_of 0 (event.New place.Nano (LAST_PAGE - 16) 48 16) ∷ []) ≡ breach_at 0 placed }
    ensures outside { breach_of two_nano_pages (entry_of 0 (event.New place.Nano 0 16 16) ∷ []) ≡ breach_at 0 fits_apart }
    ensures no_nano { breach_of (profile_of 64) first_slot ≡ breach_at 0 existing }
{
    lawful_without_breach();
}

/// Of two rules that one entry breaks, the first is reported.
pub fn first_of_two()
    ensures length_before_claim { breach_of (profile_of 64) (entry_of 0 (event.Take magazine 0 32) ∷ []) ≡ breach_at 0 takes_lowest }
    ensures extent_before_place { breach_of (profile_of 64) (first_region 112 ++ entry_of 3 (event.New magazine 8 100 16) ∷ []) ≡ breach_at 3 fits_apart }
    ensures use_before_leave { breach_of (profile_of 64) (first_region 112 ++ entry_of 3 (event.New magazine 0 112 16) ∷ entry_of 4 (event.Back magazine 0 64) ∷ [])
        ≡ breach_at 4 backs_unused }
{}
