//! Worked histories at the edges of the rules. The lists stand in `specs/Edges.antt`.

ghost use Rattle.std.specs.Prelude.{◌≡◌, [], ◌∷◌};
ghost use Rattle.mz_base.specs.Space.{block_at, run_at};
ghost use Rattle.mz_events.specs.Places.{spot_of};
ghost use Rattle.mz_events.specs.Rules.{in_turn, duty_first, existing, takes_claimed, backs_allowed, fits_apart, placed, live_there, no_room, zone_changes};
ghost use Rattle.mz_events.specs.State.{live_blocks, placed_runs};
ghost use Rattle.mz_events.specs.History.{IsLawfulHistory, breach_of, state_of};
ghost use Rattle.mz_examples.specs.Examples.{profile_of, breach_at, magazine};
ghost use Rattle.mz_examples.specs.Cycles.{two_regions};
ghost use Rattle.mz_examples.specs.Rows.{two_zones};
ghost use Rattle.mz_examples.specs.Edges.{two_callers, two_zones_in_8_pages, small_magazine, claim_of_other, two_sizes, ticket_twice, unknown_caller, to_other_range, cached_run_fits, nothing_asks, part_of_a_run, full_but_for_last_freed, of_its_own_zone, shut_too_early, opened_too_early, bare_region, bare_region_back, taken_in_between, small_block, not_at_a_quantum};

use mz_events::laws::lawful_without_breach;

/// A region is taken by the caller that found magazine and depot full, for one request.
pub fn claims()
    ensures caller { breach_of two_callers claim_of_other ≡ breach_at 2 takes_claimed }
    ensures size { breach_of (profile_of 64) two_sizes ≡ breach_at 2 takes_claimed }
{}

/// A ticket stands once, a caller is one of the profile's, and a region moves within its range.
pub fn tickets_and_names()
    ensures twice { breach_of (profile_of 64) ticket_twice ≡ breach_at 3 in_turn }
    ensures caller { breach_of (profile_of 64) unknown_caller ≡ breach_at 0 existing }
    ensures pair { breach_of (profile_of 64) to_other_range ≡ breach_at 4 existing }
{}

/// A cached run that fits is to be used, stays where no duty sends it back, and a block fills its run.
pub fn large_runs()
    ensures cached { breach_of (profile_of 64) cached_run_fits ≡ breach_at 4 takes_claimed }
    ensures unasked { breach_of (profile_of 64) nothing_asks ≡ breach_at 4 backs_allowed }
    ensures part { breach_of (profile_of 64) part_of_a_run ≡ breach_at 2 placed }
{}

/// A magazine whose last freed block makes room isn't full.
pub fn room_of_last_freed()
    ensures { breach_of (profile_of 64) full_but_for_last_freed ≡ breach_at 5 no_room }
{}

/// A block is of its zone. A zone is shut only without live blocks, and opens only without runs.
pub fn second_zone()
    ensures own { breach_of two_zones of_its_own_zone ≡ breach_at 5 live_there }
    ensures block { breach_of two_zones shut_too_early ≡ breach_at 5 zone_changes }
    ensures runs { breach_of two_zones opened_too_early ≡ breach_at 7 zone_changes }
{}

/// A region that comes into the depot with no live block has to go back to the free pages.
pub fn bare_in_depot()
    ensures due { breach_of two_regions bare_region ≡ breach_at 10 duty_first }
    ensures lawful { IsLawfulHistory two_regions bare_region_back }
    ensures left { placed_runs (state_of two_regions bare_region_back) ≡ (spot_of magazine, run_at 64 64) ∷ [] }
{
    lawful_without_breach();
}

/// Where pages are dry and the zone has a cached run, nothing is taken from them before that run
/// goes back, for another zone neither.
pub fn dry_for_all()
    ensures { breach_of two_zones_in_8_pages taken_in_between ≡ breach_at 7 duty_first }
{}

/// Small regions have 512 pages, and their blocks whole quanta of 512 bytes.
pub fn small_quanta()
    ensures lawful { IsLawfulHistory (profile_of 512) small_block }
    ensures live { live_blocks (state_of (profile_of 512) small_block) ≡ (spot_of small_magazine, block_at 0 1024) ∷ [] }
    ensures not_whole { breach_of (profile_of 512) not_at_a_quantum ≡ breach_at 3 fits_apart }
{
    lawful_without_breach();
}
