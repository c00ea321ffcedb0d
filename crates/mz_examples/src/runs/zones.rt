//! Worked runs of several rounds, callers and zones, and beside each some that aren't lawful, with the
//! record and the part of it that is wrong. The runs stand in `specs/RunsZones.antt`.

ghost use Rattle.std.specs.Prelude.{◌≡◌, ◌∷◌, []};
ghost use Rattle.mz_lines.specs.declared.answer.Answer.TheVariants as answers;
ghost use Rattle.mz_lines.specs.declared.command.Command.TheVariants.{Free};
ghost use Rattle.mz_events.specs.History.{IsLawfulHistory};
ghost use Rattle.mz_lawful.specs.Records.{entries_of};
ghost use Rattle.mz_lawful.specs.Tail.{tail_of};
ghost use Rattle.mz_examples.specs.Records.{record_of};
ghost use Rattle.mz_examples.specs.Spoiled.{IsLawful, WrongAnswer, WrongEntries, WrongBytes};
ghost use Rattle.mz_examples.specs.RunsRows.{name_a, end_at, empty_tail};
ghost use Rattle.mz_examples.specs.RunsZones.{row_giving, gives, fills_given, row_zones, zones as with_zones, zones_tail, freed_in_default, not_of_default, opened_as_2, destroyed, in_ascending_order, in_descending_order, draft, asks, row_asks, freed_in_own, ends_in_second, not_of_second, one_after_the_other};

use mz_events::laws::lawful_without_breach;

/// Row `giving`: a name that was given is no longer held, and the new one is held from the next round
/// on.
pub fn giving()
    ensures lawful { IsLawful row_giving }
    ensures tail { tail_of row_giving ≡ empty_tail 608 }
    ensures too_early { WrongAnswer (gives (fills_given answers.Done ∷ []) (record_of (Free name_a) [] answers.NotHeld)) 2 }
    ensures not_yet { IsLawful (gives (fills_given answers.NotHeld ∷ []) (record_of (Free name_a) [] answers.NotHeld)) }
    ensures given_away { WrongAnswer (gives [] (record_of (Free name_a) (end_at 4 0 608) answers.Done)) 2 }
{
    lawful_without_breach();
}

/// Row `zones`: a zone serves its own blocks, and is destroyed once it has none.
pub fn zones()
    ensures lawful { IsLawful row_zones }
    ensures tail { tail_of row_zones ≡ zones_tail }
    ensures other_zone { WrongAnswer (with_zones (freed_in_default not_of_default answers.Done) (answers.HasLive 1)) 3 }
    ensures without_no { WrongEntries (with_zones (freed_in_default [] answers.NotLive) (answers.HasLive 1)) 3 }
    ensures live { WrongAnswer (with_zones (freed_in_default not_of_default answers.NotLive) answers.Done) 4 }
    ensures other_count { WrongAnswer (with_zones (freed_in_default not_of_default answers.NotLive) (answers.HasLive 2)) 4 }
{
    lawful_without_breach();
}

/// `zfree` ends a block of that very zone.
pub fn own_zone()
    ensures lawful { IsLawful (freed_in_own ends_in_second answers.Done) }
    ensures denied { WrongAnswer (freed_in_own ends_in_second answers.NotLive) 3 }
    ensures with_no { WrongEntries (freed_in_own not_of_second answers.Done) 3 }
{
    lawful_without_breach();
}

/// A zone has the lowest number that is closed, and its runs go back in ascending order, each at once.
pub fn zone_numbers_and_runs()
    ensures lawful_number { IsLawfulHistory opened_as_2.profile (entries_of opened_as_2) }
    ensures not_lowest { WrongEntries opened_as_2 0 }
    ensures ascending { IsLawful (destroyed in_ascending_order) }
    ensures lawful_order { IsLawfulHistory (destroyed in_descending_order).profile (entries_of (destroyed in_descending_order)) }
    ensures descending { WrongEntries (destroyed in_descending_order) 6 }
    ensures left_out { WrongEntries (destroyed []) 6 }
{
    lawful_without_breach();
}

/// Lines at the start of a round are refused by the first test that holds; and what they ask is
/// answered from the state after the rounds before.
pub fn round_lines()
    ensures lawful { IsLawful row_asks }
    ensures later_test { WrongAnswer (asks answers.TooMany answers.TooMany (answers.Zone draft) (answers.Size 0)) 1 }
    ensures not_full { WrongAnswer (asks answers.NameTaken answers.Done (answers.Zone draft) (answers.Size 0)) 2 }
    ensures other_zone { WrongAnswer (asks answers.NameTaken answers.TooMany answers.Nowhere (answers.Size 0)) 7 }
    ensures inside { WrongAnswer (asks answers.NameTaken answers.TooMany (answers.Zone draft) (answers.Size 16)) 10 }
{
    lawful_without_breach();
}

/// What a caller wrote is shown to it, though another caller had the same block in the same round.
pub fn one_block_twice()
    ensures lawful { IsLawful (one_after_the_other (3 ∷ 3 ∷ [])) }
    ensures other_bytes { WrongBytes (one_after_the_other (7 ∷ 7 ∷ [])) 5 }
    ensures any_bytes { WrongBytes (one_after_the_other (3 ∷ 0 ∷ [])) 5 }
{
    lawful_without_breach();
}
