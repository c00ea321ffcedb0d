//! Blocks that are to have another size: they stay, change in place, or move, and entries and
//! answers that don't fit. The lists stand in `specs/RunsResized.antt`.

ghost use Rattle.std.specs.Prelude.{◌≡◌, [], ◌++◌, None, Some};
ghost use Rattle.mz_base.specs.Space.{block_at};
ghost use Rattle.mz_events.specs.History.{IsLawfulHistory, by_ticket};
ghost use Rattle.mz_examples.specs.Examples.{profile_of, magazine, depot};
ghost use Rattle.mz_events.specs.declared.place.Place.TheVariants as place;
ghost use Rattle.mz_examples.specs.Rows.{two_zones, second_serves, two_nano_pages, LAST_PAGE, first_slot};
ghost use Rattle.mz_examples.specs.Edges.{two_callers};
ghost use Rattle.mz_record.specs.Moments.{state_at};
ghost use Rattle.mz_record.specs.Resized.{IsReallocated, IsHemmedIn};
ghost use Rattle.mz_lawful.specs.Records.{entries_of};
ghost use Rattle.mz_lawful.specs.Settings.{low, high};
ghost use Rattle.mz_lawful.specs.LawfulRun.{placed_records};
ghost use Rattle.mz_examples.specs.Spoiled.{AtRecord};
ghost use Rattle.mz_examples.specs.RunsResized.{asks, ResizesA, makes_a, grows, row_realloc, moves_away, shrinks, moves_behind, moves_to_least, no_small_region, neighbour_goes, moves_then, two_zones_for_two, with_opening, run_with_opening, run_with_none, own_goes, makes_c, moves_c, makes_d, no_seven_pages, moves_in_nano, grows_in_nano, moves_in_second, asks_other_zone, live_in};

use mz_events::laws::lawful_without_breach;

/// A block whose good size stays the same stays as it is, with no entry, and answers with that size.
pub fn same_size()
    ensures fits { ResizesA makes_a 40 [] (Some (block_at 0 48)) }
    ensures larger { ¬ ResizesA makes_a 100 [] (Some (block_at 0 48)) }
    ensures none { ¬ ResizesA makes_a 40 [] None }
{}

/// Row `realloc`: a block grows in place from 48 bytes to 112, and answers with the new size; and
/// another shrinks in place.
pub fn in_place()
    ensures lawful { IsLawfulHistory (profile_of 64) row_realloc }
    ensures growth { ResizesA row_realloc 100 grows (Some (block_at 0 112)) }
    ensures shrink { ResizesA (makes_a ++ shrinks) 10 shrinks (Some (block_at 0 16)) }
    ensures old_size { ¬ ResizesA row_realloc 100 grows (Some (block_at 0 48)) }
    ensures other_size { ¬ ResizesA row_realloc 120 grows (Some (block_at 0 112)) }
{
    lawful_without_breach();
}

/// A growth moves where a neighbour stood in the way: row `realloc`. Where the bytes behind the
/// block are free at each moment before the command, it doesn't.
pub fn hemmed_in()
    ensures moved { IsReallocated (profile_of 64) row_realloc (asks 6 6 0 (block_at 0 112) 200) moves_away (Some (block_at 128 208)) }
    ensures lawful { IsLawfulHistory (profile_of 64) (makes_a ++ moves_behind) }
    ensures free { ¬ ResizesA (makes_a ++ moves_behind) 100 moves_behind (Some (block_at 48 112)) }
{
    lawful_without_breach();
}

/// What is looked at is the state after all earlier rounds, the lines at the start of the round and
/// the caller's commands before, and before this command's own entries; of other callers' entries in
/// the round as many as one likes.
pub fn moments()
    ensures lawful { IsLawfulHistory two_zones_for_two with_opening }
    ensures same_entries { by_ticket (entries_of run_with_opening) ≡ with_opening }
    ensures bounds { AtRecord (λ x. (low x.setting ≡ 5) × (high x.setting 0 ≡ 6)) (placed_records run_with_opening) 2 }
    ensures no_entry { AtRecord (λ x. (low x.setting ≡ 4) × (high x.setting 0 ≡ 4)) (placed_records run_with_none) 1 }
{
    lawful_without_breach();
}

/// The end of the region hems a block in as a neighbour does, in a depot too. A block that isn't
/// live, or is in large, isn't hemmed in.
pub fn at_region_end()
    ensures last { IsHemmedIn (live_in magazine (block_at 1048560 16)) (block_at 1048560 16) 32 }
    ensures in_depot { IsHemmedIn (live_in depot (block_at 1048560 16)) (block_at 1048560 16) 32 }
    ensures last_but_one { ¬ IsHemmedIn (live_in magazine (block_at 1048544 16)) (block_at 1048544 16) 32 }
    ensures not_live { ¬ IsHemmedIn (live_in magazine (block_at 1048560 16)) (block_at 0 16) 32 }
    ensures in_large { ¬ IsHemmedIn (live_in (place.Large 0) (block_at 0 1048576)) (block_at 0 1048576) 1064960 }
{}

/// A block that needs no more room doesn't move.
pub fn without_need()
    ensures shrink { ¬ ResizesA (makes_a ++ moves_to_least) 10 moves_to_least (Some (block_at 48 16)) }
    ensures lawful_large { IsLawfulHistory (profile_of 64) (makes_c ++ moves_c) }
    ensures large { ¬ IsReallocated (profile_of 64) (makes_c ++ moves_c) (asks 3 3 0 (block_at 0 81920) 50000) moves_c (Some (block_at 81920 65536)) }
{
    lawful_without_breach();
}

/// A block that is to go to another range moves, and stays where it is where that gives none.
pub fn to_other_range()
    ensures lawful { IsLawfulHistory (profile_of 64) (makes_a ++ no_small_region) }
    ensures not_moved { ResizesA (makes_a ++ no_small_region) 2000 no_small_region None }
    ensures other_answer { ¬ ResizesA (makes_a ++ no_small_region) 2000 no_small_region (Some (block_at 0 48)) }
{
    lawful_without_breach();
}

/// A neighbour that another caller frees in the same round may still have stood in the way. One
/// that was freed in the round before didn't, nor did one that the caller itself freed before.
pub fn hemmed_in_by_other()
    ensures lawful { IsLawfulHistory two_callers neighbour_goes }
    ensures same_round { IsReallocated two_callers neighbour_goes (asks 4 6 0 (block_at 0 48) 100) moves_then (Some (block_at 48 112)) }
    ensures round_before { ¬ IsReallocated two_callers neighbour_goes (asks 6 6 0 (block_at 0 48) 100) moves_then (Some (block_at 48 112)) }
    ensures own { ¬ IsReallocated two_callers own_goes (asks 6 6 0 (block_at 0 48) 100) moves_then (Some (block_at 48 112)) }
{
    lawful_without_breach();
}

/// A block that is to have no bytes moves to one of 16, though it could shrink in place.
pub fn to_nothing()
    ensures lawful { IsLawfulHistory (profile_of 64) (makes_a ++ moves_to_least) }
    ensures moved { ResizesA (makes_a ++ moves_to_least) 0 moves_to_least (Some (block_at 48 16)) }
    ensures stays { ¬ ResizesA makes_a 0 [] (Some (block_at 0 48)) }
    ensures shrinks { ¬ ResizesA (makes_a ++ shrinks) 0 shrinks (Some (block_at 0 16)) }
{
    lawful_without_breach();
}

/// A large block stays as it is where it wastes less than it needs. Else it moves, and stays where
/// it is where that gives none.
pub fn large()
    ensures stays { IsReallocated (profile_of 8) makes_c (asks 3 3 0 (block_at 0 81920) 50000) [] (Some (block_at 0 81920)) }
    ensures lawful { IsLawfulHistory (profile_of 8) (makes_c ++ no_seven_pages) }
    ensures not_moved { IsReallocated (profile_of 8) (makes_c ++ no_seven_pages) (asks 3 3 0 (block_at 0 81920) 100000) no_seven_pages None }
    ensures just_stays { IsReallocated (profile_of 8) makes_d (asks 3 3 0 (block_at 0 98304) 65536) [] (Some (block_at 0 98304)) }
    ensures wastes_too_much { ¬ IsReallocated (profile_of 8) makes_d (asks 3 3 0 (block_at 0 98304) 49152) [] (Some (block_at 0 98304)) }
    ensures larger { ¬ IsReallocated (profile_of 8) makes_c (asks 3 3 0 (block_at 0 81920) 100000) [] (Some (block_at 0 81920)) }
{
    lawful_without_breach();
}

/// A block of nano's stays where its good size is the same, and else moves; it never changes its
/// size in place.
pub fn in_nano()
    ensures stays { IsReallocated two_nano_pages first_slot (asks 1 1 0 (block_at LAST_PAGE 48) 40) [] (Some (block_at LAST_PAGE 48)) }
    ensures lawful { IsLawfulHistory two_nano_pages (first_slot ++ moves_in_nano) }
    ensures moved { IsReallocated two_nano_pages (first_slot ++ moves_in_nano) (asks 1 1 0 (block_at LAST_PAGE 48) 100) moves_in_nano (Some (block_at 1015808 112)) }
    ensures grown { ¬ IsReallocated two_nano_pages (first_slot ++ grows_in_nano) (asks 1 1 0 (block_at LAST_PAGE 48) 60) grows_in_nano (Some (block_at LAST_PAGE 64)) }
{
    lawful_without_breach();
}

/// A block moves within its own zone. That another zone has no room is no answer.
pub fn in_own_zone()
    ensures lawful { IsLawfulHistory two_zones (second_serves ++ moves_in_second) }
    ensures moved { IsReallocated two_zones (second_serves ++ moves_in_second) (asks 5 5 1 (block_at 0 16) 0) moves_in_second (Some (block_at 16 16)) }
    ensures lawful_elsewhere { IsLawfulHistory two_zones (second_serves ++ asks_other_zone) }
    ensures elsewhere { ¬ IsReallocated two_zones (second_serves ++ asks_other_zone) (asks 5 5 1 (block_at 0 16) 0) asks_other_zone None }
{
    lawful_without_breach();
}
