//! Blocks that are dropped, with the duties that follow, and entries that don't drop them. The
//! lists stand in `specs/RunsServed.antt`.

ghost use Rattle.std.specs.Prelude.{◌∷◌, [], drop};
ghost use Rattle.mz_base.specs.Space.{block_at};
ghost use Rattle.mz_events.specs.declared.event.Event.TheVariants as event;
ghost use Rattle.mz_events.specs.History.{IsLawfulHistory};
ghost use Rattle.mz_examples.specs.Examples.{profile_of, entry_of, magazine, depot, large, last_freed_block};
ghost use Rattle.mz_examples.specs.Rows.{cache_limit, two_nano_pages, LAST_PAGE, slots};
ghost use Rattle.mz_examples.specs.Cycles.{two_regions, put_aside, taken_again, given_back};
ghost use Rattle.mz_record.specs.Dropped.{IsDropped};
ghost use Rattle.mz_examples.specs.RunsServed.{two_regions_for_two, other_before_move, other_moves_first, own_before_move};

use mz_events::laws::lawful_without_breach;

/// A block ends, and nothing is due: the `end` is all, and it is of that block.
pub fn end_alone()
    ensures dropped { IsDropped (profile_of 64) last_freed_block (block_at 0 48) (entry_of 5 (event.End magazine 0 48) ∷ []) }
    ensures other_size { ¬ IsDropped (profile_of 64) last_freed_block (block_at 0 32) (entry_of 5 (event.End magazine 0 48) ∷ []) }
    ensures other_block { ¬ IsDropped (profile_of 64) last_freed_block (block_at 48 48) (entry_of 5 (event.End magazine 0 48) ∷ []) }
    ensures nothing { ¬ IsDropped (profile_of 64) last_freed_block (block_at 0 48) [] }
    ensures more { ¬ IsDropped (profile_of 64) last_freed_block (block_at 0 48) (entry_of 5 (event.End magazine 0 48) ∷ entry_of 6 (event.New magazine 0 48 16) ∷ []) }
{}

/// The `end` leaves the magazine in excess, and the move of a region to the depot is the record's
/// very next entry.
pub fn with_move()
    ensures dropped { IsDropped two_regions put_aside (block_at 0 16) (drop 9 put_aside) }
    ensures left_out { ¬ IsDropped two_regions put_aside (block_at 0 16) (entry_of 9 (event.End magazine 0 16) ∷ []) }
    ensures lawful { IsLawfulHistory two_regions own_before_move }
    ensures between { ¬ IsDropped two_regions own_before_move (block_at 0 16) (drop 9 own_before_move) }
    ensures other_region { ¬ IsDropped two_regions put_aside (block_at 0 16) (entry_of 9 (event.End magazine 0 16) ∷ entry_of 10 (event.Move 64 magazine depot) ∷ []) }
    ensures more { ¬ IsDropped two_regions taken_again (block_at 0 16) (drop 9 taken_again) }
{
    lawful_without_breach();
}

/// The last block of a depot's region ends, and the region goes back to the free pages.
pub fn with_back()
    ensures dropped { IsDropped two_regions given_back (block_at 16 16) (drop 11 given_back) }
    ensures left_out { ¬ IsDropped two_regions given_back (block_at 16 16) (entry_of 11 (event.End depot 16 16) ∷ []) }
{}

/// A large block ends as the seventeenth cached run, and the oldest goes back; row `cache-limit`.
pub fn with_back_of_oldest()
    ensures dropped { IsDropped (profile_of 64) cache_limit (block_at 786432 49152) (drop 67 cache_limit) }
    ensures left_out { ¬ IsDropped (profile_of 64) cache_limit (block_at 786432 49152) (entry_of 67 (event.End large 786432 49152) ∷ []) }
    ensures before { IsDropped (profile_of 64) cache_limit (block_at 737280 49152) (entry_of 66 (event.End large 737280 49152) ∷ []) }
{}

/// In nano nothing is ever due.
pub fn in_nano()
    ensures { IsDropped two_nano_pages slots (block_at LAST_PAGE 48) (drop 2 slots) }
{}

/// The very next entry of the record needn't have the next ticket. But it is the one that meets the
/// duty: where another caller did, the same event once more doesn't.
pub fn with_other_caller_between()
    ensures lawful { IsLawfulHistory two_regions_for_two other_before_move }
    ensures dropped { IsDropped two_regions_for_two other_before_move (block_at 0 16)
        (entry_of 9 (event.End magazine 0 16) ∷ entry_of 11 (event.Move 0 magazine depot) ∷ []) }
    ensures done_by_other { ¬ IsDropped two_regions_for_two other_moves_first (block_at 0 16)
        (entry_of 9 (event.End magazine 0 16) ∷ entry_of 11 (event.Move 0 magazine depot) ∷ []) }
{
    lawful_without_breach();
}
