//! Worked runs of one caller, row by row, and beside each some that aren't lawful, with the record and
//! the part of it that is wrong. The runs stand in `specs/RunsRows.antt`.

ghost use Rattle.std.specs.Prelude.{◌≡◌, ◌∷◌, [], ◌++◌, true, false, codes};
ghost use Rattle.mz_lines.specs.declared.answer.Answer.TheVariants as answers;
ghost use Rattle.mz_events.specs.declared.event.Event.TheVariants as event;
ghost use Rattle.mz_lines.specs.declared.command.Command.TheVariants.{Calloc};
ghost use Rattle.mz_base.specs.Space.{block_at};
ghost use Rattle.mz_lawful.specs.Tail.{tail_of};
ghost use Rattle.mz_lawful.specs.Tasks.{is_alignment, is_wrong_size, refused, serving, request_of};
ghost use Rattle.mz_examples.specs.Examples.{entry_of, magazine};
ghost use Rattle.mz_examples.specs.Records.{figures};
ghost use Rattle.mz_examples.specs.Spoiled.{IsLawful, WrongAnswer, WrongEntries, WrongBytes};
ghost use Rattle.mz_examples.specs.RunsRows.{name_a, end_at, new_at, first_block, row_last_freed, freed_and_served, take_left_out, last_freed_tail, row_repeated_free, freed_twice, empty_tail, row_interior_address, freed_inside, row_large_cache, served_from_cache, takes_three, serves_from_six, large_cache_tail, row_refusals, refusing, held_and_bad_align, row_realloc, realloc_tail, resized_once, grows_a, moves_without_need, renamed as in_other_name, not_moved as without_move, no_small_region, row_alignment, aligned, alignment_tail, row_bytes, bytes_tail, unknown_shown, shown, zeros, batch, three_served, three_dropped, freed_behind, first_task, placed_at, batch_in_4_pages};

use mz_events::laws::lawful_without_breach;

/// Row `last-freed-block`: the answer is of the block that was served, and no entry is left out.
pub fn last_freed_block()
    ensures lawful { IsLawful row_last_freed }
    ensures tail { tail_of row_last_freed ≡ last_freed_tail }
    ensures other_block { WrongAnswer (freed_and_served (first_block 48) (answers.Block 96 48)) 3 }
    ensures left_out { WrongEntries take_left_out 0 }
{
    lawful_without_breach();
}

/// Row `repeated-free`: a name that was freed isn't held, and nothing ends.
pub fn repeated_free()
    ensures lawful { IsLawful row_repeated_free }
    ensures tail { tail_of row_repeated_free ≡ empty_tail 48 }
    ensures answer { WrongAnswer (freed_twice [] answers.Done) 2 }
    ensures one_too_many { WrongEntries (freed_twice (end_at 5 0 48) answers.NotHeld) 2 }
{
    lawful_without_breach();
}

/// Row `interior-address`: no block begins within another one.
pub fn interior_address()
    ensures lawful { IsLawful row_interior_address }
    ensures tail { tail_of row_interior_address ≡ empty_tail 48 }
    ensures inside { WrongAnswer (freed_inside [] answers.Done (end_at 4 0 48) answers.Done) 1 }
    ensures at_start { WrongAnswer (freed_inside [] answers.NotHeld [] answers.NotHeld) 2 }
    ensures left_out { WrongEntries (freed_inside [] answers.NotHeld [] answers.Done) 2 }
{
    lawful_without_breach();
}

/// `freeat` ends the block that begins there, though it is another one.
pub fn other_address()
    ensures lawful { IsLawful (freed_behind (end_at 5 48 48) 0) }
    ensures named_block { WrongEntries (freed_behind (end_at 5 0 48) 0) 2 }
    ensures still_held { WrongAnswer (freed_behind (end_at 5 48 48) 48) 3 }
{
    lawful_without_breach();
}

/// Row `large-cache`: a cached run serves as a whole, and none of them where it wastes too much.
pub fn large_cache()
    ensures lawful { IsLawful row_large_cache }
    ensures tail { tail_of row_large_cache ≡ large_cache_tail }
    ensures asked_size { WrongAnswer (served_from_cache (answers.Block 0 49152) takes_three (answers.Block 180224 49152)) 2 }
    ensures wastes { WrongEntries serves_from_six 5 }
{
    lawful_without_breach();
}

/// Row `refusals`: of the tests of a line the first that holds is the answer.
pub fn refusals()
    ensures lawful { IsLawful row_refusals }
    ensures tail { tail_of row_refusals ≡ figures [] 0 0 16 1048576 }
    ensures overflow { WrongAnswer (refusing answers.Null answers.BadAlign answers.Held (answers.WrongSize 16)) 0 }
    ensures held { WrongAnswer (refusing answers.Overflow answers.BadAlign answers.Null (answers.WrongSize 16)) 3 }
    ensures wrong_size { WrongAnswer (refusing answers.Overflow answers.BadAlign answers.Held answers.Done) 4 }
    ensures other_size { WrongAnswer (refusing answers.Overflow answers.BadAlign answers.Held (answers.WrongSize 17)) 4 }
    ensures held_first { IsLawful (held_and_bad_align answers.Held) }
    ensures later_test { WrongAnswer (held_and_bad_align answers.BadAlign) 1 }
{
    lawful_without_breach();
}

/// Where the tests of a line begin to refuse: alignments, sizes, and products of 2^64 bytes.
pub fn limits()
    ensures below_least { is_alignment 4 ≡ false }
    ensures least { is_alignment 8 ≡ true }
    ensures greatest { is_alignment 16384 ≡ true }
    ensures above_greatest { is_alignment 32768 ≡ false }
    ensures other_range { is_wrong_size (block_at 0 1024) 1008 ≡ true }
    ensures own_range { is_wrong_size (block_at 0 1024) 1009 ≡ false }
    ensures overflow { first_task (Calloc (codes "a") 4294967296 4294967296) ≡ refused answers.Overflow }
    ensures no_overflow { first_task (Calloc (codes "a") 4294967296 4294967295) ≡ serving name_a (request_of 0 0 18446744069414584320 16) 18446744069414584320 }
{}

/// A block is placed at a multiple of 16 where less was asked.
pub fn least_alignment()
    ensures lawful { IsLawful (placed_at 16) }
    ensures as_asked { WrongEntries (placed_at 8) 0 }
{
    lawful_without_breach();
}

/// Row `realloc`: a block grows in place where it can, and moves where a neighbour is in the way.
pub fn realloc()
    ensures lawful { IsLawful row_realloc }
    ensures tail { tail_of row_realloc ≡ realloc_tail }
    ensures old_size { WrongAnswer (resized_once grows_a (answers.Block 0 48)) 1 }
    ensures without_need { WrongEntries (resized_once moves_without_need (answers.Block 48 112)) 1 }
    ensures left_out { WrongEntries (resized_once [] (answers.Block 0 48)) 1 }
{
    lawful_without_breach();
}

/// A block can change its name without an entry; and a block that can't move stays under its name.
pub fn realloc_in_other_ways()
    ensures renamed { IsLawful (in_other_name answers.NotHeld) }
    ensures old_name { WrongAnswer (in_other_name answers.Done) 2 }
    ensures not_moved { IsLawful (without_move no_small_region answers.Null) }
    ensures not_null { WrongAnswer (without_move no_small_region (answers.Block 0 48)) 1 }
    ensures made_up_null { WrongEntries (without_move [] answers.Null) 1 }
{
    lawful_without_breach();
}

/// Row `alignment`: a block is placed at a multiple of the alignment that was asked.
pub fn alignment()
    ensures lawful { IsLawful row_alignment }
    ensures tail { tail_of row_alignment ≡ alignment_tail }
    ensures at_16 { WrongEntries (aligned (entry_of 4 (event.New magazine 16 112 16)) (answers.Block 16 112)) 1 }
    ensures other_block { WrongAnswer (aligned (entry_of 4 (event.New magazine 64 112 64)) (answers.Block 16 112)) 1 }
{
    lawful_without_breach();
}

/// Row `bytes`: what was written is shown, and nothing past the end.
pub fn bytes()
    ensures lawful { IsLawful row_bytes }
    ensures tail { tail_of row_bytes ≡ bytes_tail }
    ensures not_zero { WrongBytes (shown (zeros 23 ++ 1 ∷ []) answers.OutOfRange (171 ∷ 171 ∷ []) (zeros 8)) 1 }
    ensures too_few { WrongAnswer (shown (zeros 23) answers.OutOfRange (171 ∷ 171 ∷ []) (zeros 8)) 1 }
    ensures past_end { WrongAnswer (shown (zeros 24) (answers.Bytes (zeros 4)) (171 ∷ 171 ∷ []) (zeros 8)) 2 }
    ensures not_filled { WrongBytes (shown (zeros 24) answers.OutOfRange (171 ∷ 0 ∷ []) (zeros 8)) 4 }
    ensures not_linked { WrongBytes (shown (zeros 24) answers.OutOfRange (171 ∷ 171 ∷ []) (171 ∷ zeros 7)) 6 }

    // A byte that nobody wrote may be shown as any: the last of a `calloc` of 24 is known, the one behind it isn't.
    ensures past_known { IsLawful unknown_shown }
{
    lawful_without_breach();
}

/// A batch is served block by block, and ends block by block.
pub fn batches()
    ensures lawful { IsLawful (batch three_served (answers.Got 3) three_dropped (answers.Freed 3)) }
    ensures count { WrongAnswer (batch three_served (answers.Got 2) three_dropped (answers.Freed 3)) 0 }
    ensures stops_early { WrongEntries (batch (first_block 16 ++ new_at 4 16 16) (answers.Got 2) (end_at 5 0 16 ++ end_at 6 16 16) (answers.Freed 2)) 0 }
    ensures one_left { WrongEntries (batch three_served (answers.Got 3) (end_at 6 0 16 ++ end_at 7 16 16) (answers.Freed 3)) 1 }
    ensures other_order { WrongEntries (batch three_served (answers.Got 3) (end_at 6 0 16 ++ end_at 7 32 16 ++ end_at 8 16 16) (answers.Freed 3)) 1 }
{
    lawful_without_breach();
}

/// A batch ends with the first block that isn't served.
pub fn short_batch()
    ensures lawful { IsLawful (batch_in_4_pages (answers.Got 1)) }
    ensures as_asked { WrongAnswer (batch_in_4_pages (answers.Got 2)) 0 }
    ensures none { WrongAnswer (batch_in_4_pages (answers.Got 0)) 0 }
{
    lawful_without_breach();
}
