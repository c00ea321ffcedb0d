//! Worked histories: each function's contract is a fact about the definitions, and its body is
//! empty. The lists stand in `specs/Examples.antt`.

pub mod cycles;
pub mod edges;
pub mod rows;
pub mod zones;

ghost use Rattle.std.specs.Prelude.{◌≡◌, ◌∷◌, [], ◌++◌, IsTrue};
ghost use Rattle.mz_base.specs.Space.{block_at, run_at};
ghost use Rattle.mz_events.specs.declared.event.Event.TheVariants as event;
ghost use Rattle.mz_events.specs.Places.{spot_of};
ghost use Rattle.mz_events.specs.Rules.{in_turn, duty_first, existing, takes_lowest, takes_claimed, backs_unused, backs_allowed, moves_in_by_duty, moves_out_claimed, fits_apart, placed, live_there, no_room, zone_changes};
ghost use Rattle.mz_events.specs.State.{live_blocks, placed_runs};
ghost use Rattle.mz_events.specs.History.{IsLawfulHistory, breach_of, state_of, owes_nothing};
ghost use Rattle.mz_examples.specs.Examples.{profile_of, entry_of, breach_at, magazine, other_magazine, depot, large, first_region, thin_path as first_block, last_freed_block as reused_block, half_a_region, until_dry, dry_with_a_cache as flushed_cache};

use mz_events::laws::lawful_without_breach;

/// Row `thin-path`: a first block of 112 bytes in 64 pages. It leaves that block live in its
/// magazine, and 64 pages there, and nothing owed.
pub fn thin_path()
    ensures lawful { IsLawfulHistory (profile_of 64) first_block }
    ensures live { live_blocks (state_of (profile_of 64) first_block) ≡ (spot_of magazine, block_at 0 112) ∷ [] }
    ensures runs { placed_runs (state_of (profile_of 64) first_block) ≡ (spot_of magazine, run_at 0 64) ∷ [] }
    ensures settled { IsTrue (owes_nothing (state_of (profile_of 64) first_block)) }
{
    lawful_without_breach();
}

/// Row `last-freed-block`: a block of just the size of the last freed one is placed on it.
pub fn last_freed_block()
    ensures lawful { IsLawfulHistory (profile_of 64) reused_block }
    ensures live { live_blocks (state_of (profile_of 64) reused_block) ≡ (spot_of magazine, block_at 0 48) ∷ (spot_of magazine, block_at 48 48) ∷ [] }
{
    lawful_without_breach();
}

/// Row `dry-with-a-cache`, in 8 pages: a cached run goes back where the free pages are dry.
pub fn dry_with_a_cache()
    ensures lawful { IsLawfulHistory (profile_of 8) flushed_cache }
    ensures live { live_blocks (state_of (profile_of 8) flushed_cache) ≡ (spot_of large, block_at 0 114688) ∷ [] }
{
    lawful_without_breach();
}

/// Histories that aren't lawful, one for each rule: the first bad ticket, and the first rule that
/// is broken there.
pub fn spoiled()
    ensures in_turn { breach_of (profile_of 64) (first_region 112 ++ entry_of 4 (event.New magazine 0 112 16) ∷ [])
        ≡ breach_at 3 in_turn }

    // A duty stands at the end: the cached run has to go back.
    ensures duty_first { breach_of (profile_of 8) until_dry ≡ breach_at 6 duty_first }
    ensures existing { breach_of (profile_of 64) (first_region 112 ++ entry_of 3 (event.New other_magazine 0 112 16) ∷ [])
        ≡ breach_at 3 existing }
    ensures takes_lowest { breach_of (profile_of 64) half_a_region ≡ breach_at 2 takes_lowest }
    ensures takes_claimed { breach_of (profile_of 64) (entry_of 0 (event.Full magazine 112 16) ∷ entry_of 1 (event.Take magazine 0 64) ∷ [])
        ≡ breach_at 1 takes_claimed }
    ensures backs_unused { breach_of (profile_of 64) (entry_of 0 (event.Back large 0 3) ∷ []) ≡ breach_at 0 backs_unused }
    ensures backs_allowed { breach_of (profile_of 64) (first_block
        ++ entry_of 4 (event.End magazine 0 112) ∷ entry_of 5 (event.Back magazine 0 64) ∷ [])
        ≡ breach_at 5 backs_allowed }
    ensures moves_in_by_duty { breach_of (profile_of 64) (first_block ++ entry_of 4 (event.Move 0 magazine depot) ∷ [])
        ≡ breach_at 4 moves_in_by_duty }
    ensures moves_out_claimed { breach_of (profile_of 64) (entry_of 0 (event.Move 0 depot magazine) ∷ [])
        ≡ breach_at 0 moves_out_claimed }
    ensures fits_apart { breach_of (profile_of 64) (first_region 112 ++ entry_of 3 (event.New magazine 8 112 16) ∷ [])
        ≡ breach_at 3 fits_apart }
    ensures placed { breach_of (profile_of 64) (first_region 112 ++ entry_of 3 (event.New magazine 16 112 16) ∷ [])
        ≡ breach_at 3 placed }
    ensures live_there { breach_of (profile_of 64) (first_block ++ entry_of 4 (event.End magazine 0 96) ∷ [])
        ≡ breach_at 4 live_there }
    ensures no_room { breach_of (profile_of 64) (first_block ++ entry_of 4 (event.Full magazine 16 16) ∷ [])
        ≡ breach_at 4 no_room }
    ensures zone_changes { breach_of (profile_of 64) (entry_of 0 (event.Open 0) ∷ []) ≡ breach_at 0 zone_changes }
{}
