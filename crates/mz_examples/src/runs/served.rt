//! Requests that are served, in each of the eight ways, and entries and answers that don't serve
//! them. The lists stand in `specs/RunsServed.antt`.

ghost use Rattle.std.specs.Prelude.{◌∷◌, [], ◌++◌, None, Some, drop, take};
ghost use Rattle.mz_base.specs.Space.{block_at};
ghost use Rattle.mz_events.specs.declared.event.Event.TheVariants as event;
ghost use Rattle.mz_events.specs.declared.place.Place.TheVariants as place;
ghost use Rattle.mz_events.specs.History.{IsLawfulHistory};
ghost use Rattle.mz_examples.specs.Examples.{profile_of, entry_of, magazine, other_magazine, depot, large, thin_path, last_freed_block, dry_with_a_cache};
ghost use Rattle.mz_examples.specs.Cycles.{MIB, two_regions, taken_again};
ghost use Rattle.mz_examples.specs.Rows.{large_cache, two_zones, second_serves, two_nano_pages, LAST_PAGE, first_slot};
ghost use Rattle.mz_examples.specs.Edges.{entry_of_other, small_magazine, small_block, one_cached};
ghost use Rattle.mz_record.specs.Served.{AreFlushes, IsServed, IsUndisturbed};
ghost use Rattle.mz_examples.specs.RunsServed.{request_by, at_alignment, in_zone, region_after_flush, no_region, no_nine_pages, far_too_many, on_five, on_three, both_go_back, two_magazines, two_callers_in_8_pages, both_full, dry_at, with_other, other_behind, other_at_pages, looks_twice};

use mz_events::laws::lawful_without_breach;

/// A first request of 100 bytes finds magazine and depot full and gets the first 112 bytes of a
/// fresh region; the same entries serve no other answer and no other request.
pub fn by_fresh_region()
    ensures served { IsServed (profile_of 64) thin_path (request_by 0 100) thin_path (Some (block_at 0 112)) }
    ensures other_size { ¬ IsServed (profile_of 64) thin_path (request_by 0 100) thin_path (Some (block_at 0 128)) }
    ensures other_place { ¬ IsServed (profile_of 64) thin_path (request_by 0 100) thin_path (Some (block_at 16 112)) }
    ensures none { ¬ IsServed (profile_of 64) thin_path (request_by 0 100) thin_path None }
    ensures more_bytes { ¬ IsServed (profile_of 64) thin_path (request_by 0 130) thin_path (Some (block_at 0 112)) }
    ensures no_take { ¬ IsServed (profile_of 64) thin_path (request_by 0 100) (take 2 thin_path ++ drop 3 thin_path) (Some (block_at 0 112)) }
{}

/// Where pages are dry the cached run goes back first, and then a region is taken.
pub fn by_fresh_region_after_flush()
    ensures lawful { IsLawfulHistory (profile_of 64) region_after_flush }
    ensures served { IsServed (profile_of 64) region_after_flush (request_by 0 100) (drop 4 region_after_flush) (Some (block_at 0 112)) }
    ensures no_back { ¬ IsServed (profile_of 64) region_after_flush (request_by 0 100)
        (entry_of 4 (event.Full magazine 112 16) ∷ entry_of 5 (event.Full depot 112 16) ∷ entry_of 6 (event.Dry 0 64 64) ∷ drop 8 region_after_flush)
        (Some (block_at 0 112)) }
{
    lawful_without_breach();
}

/// Where the magazine has room one `new` serves, at the alignment that was asked, and in the
/// caller's own magazine.
pub fn by_magazine()
    ensures served { IsServed (profile_of 64) last_freed_block (request_by 0 48) (entry_of 4 (event.New magazine 48 48 16) ∷ []) (Some (block_at 48 48)) }
    ensures last_freed { IsServed (profile_of 64) last_freed_block (request_by 0 48) (entry_of 6 (event.New magazine 0 48 16) ∷ []) (Some (block_at 0 48)) }
    ensures other_alignment { ¬ IsServed (profile_of 64) last_freed_block (at_alignment 32 (request_by 0 48))
        (entry_of 6 (event.New magazine 0 48 16) ∷ []) (Some (block_at 0 48)) }
    ensures other_zone { ¬ IsServed (profile_of 64) last_freed_block (in_zone 1 (request_by 0 48))
        (entry_of 6 (event.New magazine 0 48 16) ∷ []) (Some (block_at 0 48)) }
    ensures other_range { ¬ IsServed (profile_of 64) last_freed_block (request_by 0 48)
        (entry_of 6 (event.New small_magazine 0 48 16) ∷ []) (Some (block_at 0 48)) }
    ensures nothing { ¬ IsServed (profile_of 64) last_freed_block (request_by 0 48) [] None }
{}

/// The magazine is that of the caller's number, modulo the magazines there are.
pub fn magazine_of_caller()
    ensures own { IsServed two_magazines [] (request_by 1 100) (entry_of_other 0 (event.New other_magazine 0 112 16) ∷ []) (Some (block_at 0 112)) }
    ensures round { IsServed two_magazines [] (request_by 2 100) (entry_of 0 (event.New magazine 0 112 16) ∷ []) (Some (block_at 0 112)) }
    ensures other { ¬ IsServed two_magazines [] (request_by 1 100) (entry_of_other 0 (event.New magazine 0 112 16) ∷ []) (Some (block_at 0 112)) }
{}

/// The limits between the ranges: 1,008 bytes are tiny and 1,009 small; 32,768 are small and 32,769
/// large.
pub fn ranges()
    ensures small { IsServed (profile_of 512) small_block (request_by 0 1009) small_block (Some (block_at 0 1024)) }
    ensures tiny { ¬ IsServed (profile_of 512) small_block (request_by 0 1008) small_block (Some (block_at 0 1024)) }
    ensures large { IsServed (profile_of 64) one_cached (request_by 0 32769) (take 3 one_cached) (Some (block_at 0 49152)) }
    ensures still_small { ¬ IsServed (profile_of 64) one_cached (request_by 0 32768) (take 3 one_cached) (Some (block_at 0 49152)) }
{}

/// Zone 1 serves from a region of its own, and zone 0 not from that.
pub fn in_second_zone()
    ensures served { IsServed two_zones second_serves (in_zone 1 (request_by 0 16)) (drop 1 second_serves) (Some (block_at 0 16)) }
    ensures other_zone { ¬ IsServed two_zones second_serves (request_by 0 16) (drop 1 second_serves) (Some (block_at 0 16)) }
{}

/// A region of the depot comes to the magazine, and serves there; without the move nothing is
/// served.
pub fn by_depot()
    ensures served { IsServed two_regions taken_again (at_alignment MIB (request_by 0 16)) (drop 11 taken_again) (Some (block_at 0 16)) }
    ensures no_move { ¬ IsServed two_regions taken_again (at_alignment MIB (request_by 0 16))
        (entry_of 11 (event.Full magazine 16 MIB) ∷ entry_of 13 (event.New magazine 0 16 MIB) ∷ []) (Some (block_at 0 16)) }
    ensures other_alignment { ¬ IsServed two_regions taken_again (request_by 0 16) (drop 11 taken_again) (Some (block_at 0 16)) }
{}

/// Nano serves at most 256 bytes, at the alignment 16, in zone 0, where there is nano.
pub fn by_nano()
    ensures served { IsServed two_nano_pages first_slot (request_by 0 40) first_slot (Some (block_at LAST_PAGE 48)) }
    ensures other_zone { ¬ IsServed two_nano_pages first_slot (in_zone 1 (request_by 0 40)) first_slot (Some (block_at LAST_PAGE 48)) }
    ensures too_large { ¬ IsServed two_nano_pages first_slot (request_by 0 300) (entry_of 0 (event.New place.Nano LAST_PAGE 304 16) ∷ [])
        (Some (block_at LAST_PAGE 304)) }
    ensures other_alignment { ¬ IsServed two_nano_pages first_slot (at_alignment 32 (request_by 0 40)) first_slot (Some (block_at LAST_PAGE 48)) }
    ensures no_nano { ¬ IsServed (profile_of 64) first_slot (request_by 0 40) first_slot (Some (block_at LAST_PAGE 48)) }
    ensures other_size { ¬ IsServed two_nano_pages first_slot (request_by 0 30) first_slot (Some (block_at LAST_PAGE 48)) }
{}

/// A cached run serves where it is the best fit for the pages that are asked. One `new` can be
/// lawful, since it would serve 5 pages, and yet not serve 3.
pub fn by_cache()
    ensures row { IsServed (profile_of 64) large_cache (request_by 0 40000) (entry_of 4 (event.New large 0 81920 16) ∷ []) (Some (block_at 0 81920)) }
    ensures three { IsServed (profile_of 64) on_three (request_by 0 40000) (drop 8 on_three) (Some (block_at 81920 49152)) }
    ensures five { IsServed (profile_of 64) on_five (request_by 0 80000) (drop 8 on_five) (Some (block_at 0 81920)) }
    ensures lawful { IsLawfulHistory (profile_of 64) on_five }
    ensures not_best { ¬ IsServed (profile_of 64) on_five (request_by 0 40000) (drop 8 on_five) (Some (block_at 0 81920)) }
    ensures none_fits { ¬ IsServed (profile_of 64) on_five (request_by 0 100000) (drop 8 on_five) (Some (block_at 0 81920)) }
{
    lawful_without_breach();
}

/// A flush is a `dry` and the way back of the oldest cached run; as often as there is one.
pub fn flushes()
    ensures lawful { IsLawfulHistory (profile_of 8) both_go_back }
    ensures two { AreFlushes (profile_of 8) both_go_back 0 9 1 (take 4 (drop 9 both_go_back)) }
    ensures none { AreFlushes (profile_of 8) both_go_back 0 9 1 [] }
    ensures not_oldest { ¬ AreFlushes (profile_of 8) both_go_back 0 9 1 (entry_of 9 (event.Dry 0 9 1) ∷ entry_of 10 (event.Back large 5 3) ∷ []) }
    ensures no_back { ¬ AreFlushes (profile_of 8) both_go_back 0 9 1 (entry_of 9 (event.Dry 0 9 1) ∷ []) }
    ensures other_pages { ¬ AreFlushes (profile_of 8) both_go_back 0 10 1 (take 4 (drop 9 both_go_back)) }
{
    lawful_without_breach();
}

/// Where no cached run fits a run is taken, with flushes before it where pages are dry, and the
/// block fills it.
pub fn by_fresh_run()
    ensures row { IsServed (profile_of 64) large_cache (request_by 0 40000) (drop 9 large_cache) (Some (block_at 180224 49152)) }
    ensures flushed { IsServed (profile_of 8) dry_with_a_cache (request_by 0 100000) (drop 4 dry_with_a_cache) (Some (block_at 0 114688)) }
    ensures no_back { ¬ IsServed (profile_of 8) dry_with_a_cache (request_by 0 100000)
        (entry_of 4 (event.Full large 7 1) ∷ entry_of 5 (event.Dry 0 7 1) ∷ drop 7 dry_with_a_cache) (Some (block_at 0 114688)) }
    ensures no_full { ¬ IsServed (profile_of 64) large_cache (request_by 0 40000) (drop 10 large_cache) (Some (block_at 180224 49152)) }
    ensures other_run { ¬ IsServed (profile_of 64) large_cache (request_by 0 40000)
        (entry_of 9 (event.Full large 3 1) ∷ entry_of 10 (event.Take large 11 3) ∷ entry_of 11 (event.New large 0 49152 16) ∷ []) (Some (block_at 0 49152)) }
    ensures fewer_bytes { ¬ IsServed (profile_of 64) large_cache (request_by 0 30000) (drop 9 large_cache) (Some (block_at 180224 49152)) }
{}

/// None is the answer where there is no region even when nothing is cached any more; while the last
/// `dry` makes a way back due, it isn't.
pub fn null_in_range()
    ensures lawful { IsLawfulHistory (profile_of 8) no_region }
    ensures none { IsServed (profile_of 8) no_region (request_by 0 100) (drop 4 no_region) None }
    ensures duty_left { ¬ IsServed (profile_of 8) no_region (request_by 0 100)
        (entry_of 4 (event.Full magazine 112 16) ∷ entry_of 5 (event.Full depot 112 16) ∷ entry_of 6 (event.Dry 0 64 64) ∷ []) None }
    ensures no_dry { ¬ IsServed (profile_of 8) no_region (request_by 0 100) (entry_of 4 (event.Full magazine 112 16) ∷ entry_of 5 (event.Full depot 112 16) ∷ []) None }
    ensures block { ¬ IsServed (profile_of 8) no_region (request_by 0 100) (drop 4 no_region) (Some (block_at 0 112)) }
{
    lawful_without_breach();
}

/// The same of large requests, up to the greatest.
pub fn null_in_large()
    ensures lawful { IsLawfulHistory (profile_of 8) no_nine_pages }
    ensures none { IsServed (profile_of 8) no_nine_pages (request_by 0 140000) (drop 4 no_nine_pages) None }
    ensures duty_left { ¬ IsServed (profile_of 8) no_nine_pages (request_by 0 140000) (entry_of 4 (event.Full large 9 1) ∷ entry_of 5 (event.Dry 0 9 1) ∷ []) None }
    ensures greatest { IsServed (profile_of 64) far_too_many (request_by 0 18446744073709551615) far_too_many None }
{
    lawful_without_breach();
}

/// Between an entry of a request and a `dry` of it no other caller has an entry where that entry
/// was; elsewhere, and behind the last `dry`, others may do what they will.
pub fn undisturbed()
    ensures lawful_at_magazine { IsLawfulHistory two_callers_in_8_pages (with_other (event.Full magazine 16 16)) }
    ensures at_magazine { ¬ IsUndisturbed two_callers_in_8_pages (with_other (event.Full magazine 16 16)) 0 (both_full ++ dry_at 3 ∷ []) }
    ensures lawful_elsewhere { IsLawfulHistory two_callers_in_8_pages (with_other (event.Full small_magazine 1024 16)) }
    ensures elsewhere { IsUndisturbed two_callers_in_8_pages (with_other (event.Full small_magazine 1024 16)) 0 (both_full ++ dry_at 3 ∷ []) }
    ensures behind { IsUndisturbed two_callers_in_8_pages (other_behind (event.Full magazine 16 16)) 0 (both_full ++ dry_at 2 ∷ []) }
    ensures no_dry { IsUndisturbed two_callers_in_8_pages (with_other (event.Full magazine 16 16)) 0 both_full }
{
    lawful_without_breach();
}

/// The pages are a request's own from its first `dry` on, and not before.
pub fn undisturbed_at_pages()
    ensures before { IsUndisturbed two_callers_in_8_pages (with_other (event.Dry 0 64 64)) 0 (both_full ++ dry_at 3 ∷ []) }
    ensures lawful { IsLawfulHistory two_callers_in_8_pages other_at_pages }
    ensures between { ¬ IsUndisturbed two_callers_in_8_pages other_at_pages 0 looks_twice }
{
    lawful_without_breach();
}
