//! The laws of books and histories on which a request rests.

ghost use Rattle.std.specs.Prelude.{List, IsTrue};
ghost use Rattle.mz_base.specs.declared.profile.Profile.{Profile};
ghost use Rattle.mz_base.specs.Space.{Block};
ghost use Rattle.mz_base.specs.Lists.{has_block};
ghost use Rattle.mz_events.specs.declared.entry.Entry.{Entry as entry};
ghost use Rattle.mz_events.specs.Places.{Spot, zone_of, place_of};
ghost use Rattle.mz_events.specs.State.{opening, kept_at, is_open};
ghost use Rattle.mz_events.specs.History.{AreLawful, after_all};
ghost use Rattle.mz_rack.specs.BookLaws.{BookLaws};

use mz_book::laws::{growth, hands, numbers};
use mz_events::laws::{entries, events, holding, places, separation, states};

/// They hold, all together.
pub(crate) fn of_books()
    ensures { BookLaws }
{
    growth::growth_of_calls();
    hands::what_is_in_the_hand();
    numbers::numbers_of_keepers();
    numbers::held_places();
    events::when_an_event_fits();
    events::what_an_event_changes();
    holding::what_an_event_reads();
    places::magazines_and_depots();
    separation::separation();
    separation::live_blocks_are_ascending();
    separation::runs_fit_the_space();
    separation::regions_fit_the_space();
    separation::depots_hold_no_unused_region();
    separation::few_are_cached();
    entries::tickets_are_indices();
    states::spots_stand_once();
    states::lists_are_by_spot();
    zones_of_live_blocks();
    mz_magazine::laws::room_stays_where_bytes_stay_idle();
}

// The zone of a live block is open: it was when the block was made, and no zone with a live block shuts.
fn zones_of_live_blocks()
    ensures { (p : Profile) (entries : List entry) (j : Spot) (b : Block) → AreLawful p opening entries → IsTrue (has_block (kept_at (after_all p opening entries) j).live b) → IsTrue (is_open (after_all p opening entries) (zone_of (place_of j))) }
{
    events::when_an_event_fits();
    holding::what_an_event_leaves();
    holding::what_an_event_reads();
    entries::zones_after_an_event();
}
