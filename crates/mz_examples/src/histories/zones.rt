//! Worked histories of two zones: what *separation* and *locality* say of them isn't empty. The lists stand in
//! `specs/Zones.antt`.

ghost use Rattle.std.specs.Prelude.{◌≡◌, [], ◌∷◌, ◌++◌, false, IsTrue};
ghost use Rattle.mz_base.specs.Space.{block_at, blocks_apart};
ghost use Rattle.mz_events.specs.declared.event.Event.TheVariants as event;
ghost use Rattle.mz_events.specs.Places.{spot_of};
ghost use Rattle.mz_events.specs.State.{value_at, kept_at, live_blocks};
ghost use Rattle.mz_events.specs.Effect.{touches};
ghost use Rattle.mz_events.specs.Rules.{takes_lowest, fits_apart};
ghost use Rattle.mz_events.specs.History.{IsLawfulHistory, breach_of, state_of};
ghost use Rattle.mz_examples.specs.Examples.{entry_of, breach_at, magazine};
ghost use Rattle.mz_examples.specs.Cycles.{MIB};
ghost use Rattle.mz_examples.specs.Rows.{second};
ghost use Rattle.mz_examples.specs.Zones.{regions_for_two_zones, one_serves, both_have, both_serve, other_ends};

use mz_events::laws::lawful_without_breach;

/// Zone 0 can't take the pages of zone 1's region, nor place a block in it.
pub fn not_in_two_places()
    ensures pages { breach_of regions_for_two_zones (one_serves ++ entry_of 7 (event.Take magazine 0 64) ∷ []) ≡ breach_at 7 takes_lowest }
    ensures block { breach_of regions_for_two_zones (both_have ++ entry_of 8 (event.New magazine 16 16 16) ∷ []) ≡ breach_at 8 fits_apart }
{}

/// Two live blocks of different zones, each in a region of its own zone, are apart.
pub fn zones_are_apart()
    ensures lawful { IsLawfulHistory regions_for_two_zones both_serve }
    ensures live { live_blocks (state_of regions_for_two_zones both_serve) ≡ (spot_of second, block_at 0 16) ∷ (spot_of magazine, block_at MIB 16) ∷ [] }
    ensures apart { IsTrue (blocks_apart (block_at 0 16) (block_at MIB 16)) }
{
    lawful_without_breach();
}

/// A block ends in the magazine of one zone, and all that stands at the other zone's magazine stays.
pub fn other_zone_stays()
    ensures lawful { IsLawfulHistory regions_for_two_zones other_ends }
    ensures untouched { touches regions_for_two_zones (event.End second 0 16) (spot_of magazine) ≡ false }
    ensures ended { (kept_at (state_of regions_for_two_zones other_ends) (spot_of second)).live ≡ [] }
    ensures stays { value_at (state_of regions_for_two_zones other_ends) (spot_of magazine)
        ≡ value_at (state_of regions_for_two_zones both_serve) (spot_of magazine) }
{
    lawful_without_breach();
}
