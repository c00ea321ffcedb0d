//! Worked histories of regions that go to a depot, come back, and are given back. The lists stand
//! in `specs/Cycles.antt`.

ghost use Rattle.std.specs.Prelude.{◌≡◌, [], ◌∷◌, ◌++◌};
ghost use Rattle.mz_base.specs.Space.{block_at, run_at};
ghost use Rattle.mz_events.specs.declared.event.Event.TheVariants as event;
ghost use Rattle.mz_events.specs.Places.{spot_of};
ghost use Rattle.mz_events.specs.Rules.{duty_first};
ghost use Rattle.mz_events.specs.State.{live_blocks, placed_runs};
ghost use Rattle.mz_events.specs.History.{IsLawfulHistory, breach_of, state_of};
ghost use Rattle.mz_examples.specs.Examples.{entry_of, breach_at, magazine, depot};
ghost use Rattle.mz_examples.specs.Cycles.{MIB, two_regions, until_thin, put_aside, served_elsewhere, taken_again as back_again, given_back as back_to_pages};

use mz_events::laws::lawful_without_breach;

/// A sparse region of a magazine in excess goes to the depot with its block, and serves the
/// magazine again.
pub fn taken_again()
    ensures lawful { IsLawfulHistory two_regions back_again }
    ensures live { live_blocks (state_of two_regions back_again)
        ≡ (spot_of magazine, block_at 0 16) ∷ (spot_of magazine, block_at 16 16) ∷ (spot_of magazine, block_at MIB 16) ∷ [] }
{
    lawful_without_breach();
}

/// The last freed block goes with its region, and the magazine has none.
pub fn freed_block_goes_along()
    ensures { IsLawfulHistory two_regions served_elsewhere }
{
    lawful_without_breach();
}

/// The last block of a region of the depot ends, and the region goes back to the free pages.
pub fn given_back()
    ensures lawful { IsLawfulHistory two_regions back_to_pages }
    ensures runs { placed_runs (state_of two_regions back_to_pages) ≡ (spot_of magazine, run_at 64 64) ∷ [] }
{
    lawful_without_breach();
}

/// Neither the move nor the way back may be left out.
pub fn left_out()
    ensures no_move { breach_of two_regions (until_thin ++ entry_of 9 (event.End magazine 0 16) ∷ []) ≡ breach_at 10 duty_first }
    ensures no_back { breach_of two_regions (put_aside ++ entry_of 11 (event.End depot 16 16) ∷ []) ≡ breach_at 12 duty_first }
    ensures other { breach_of two_regions (until_thin ++ entry_of 9 (event.End magazine 0 16) ∷ entry_of 10 (event.Full magazine 16 MIB) ∷ [])
        ≡ breach_at 10 duty_first }
{}
