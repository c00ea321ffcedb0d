//! A run of two rounds by two callers. The lists stand in `specs/RunsRounds.antt`.

ghost use Rattle.std.specs.Prelude.{◌≡◌, true};
ghost use Rattle.std.specs.List.{flat_map};
ghost use Rattle.mz_events.specs.History.{IsLawfulHistory};
ghost use Rattle.mz_trace.specs.RunTexts.{trace_of};
ghost use Rattle.mz_lawful.specs.Records.{entries_of_round};
ghost use Rattle.mz_lawful.specs.Settings.{low};
ghost use Rattle.mz_lawful.specs.Fitting.{is_rising_from};
ghost use Rattle.mz_lawful.specs.LawfulRun.{IsLawfulRun, placed_records};
ghost use Rattle.mz_examples.specs.Edges.{two_callers};
ghost use Rattle.mz_examples.specs.Spoiled.{IsLawful, AtRecord, WrongAnswer, WrongEntries, WrongOrder};
ghost use Rattle.mz_examples.specs.RunsServed.{two_callers_in_8_pages};
ghost use Rattle.mz_examples.specs.RunsRounds.{crossing, overtaking, larger_answer, falling, opening_round, freed_by_other, asks_in_between, run_of_rounds, run_in_8_pages};

use mz_events::laws::lawful_without_breach;

/// Tickets of two callers may cross within a round, and not from one round to the next. Those of the
/// lines at the start of a round come first.
pub fn order()
    ensures lawful { IsLawfulHistory two_callers (flat_map entries_of_round crossing) }
    ensures in_order { IsLawful (run_of_rounds crossing) }
    ensures lawful_too { IsLawfulHistory two_callers (flat_map entries_of_round overtaking) }
    ensures not_in_order { WrongOrder (run_of_rounds overtaking) 2 }
    ensures within_record { WrongOrder (run_of_rounds falling) 0 }
    ensures start_first { AtRecord (λ x. is_rising_from (low x.setting) x.deed.entries ≡ true) (placed_records (run_of_rounds (opening_round 0 1))) 1 }
    ensures start_late { WrongOrder (run_of_rounds (opening_round 1 0)) 1 }
{
    lawful_without_breach();
}

/// The run in which they cross is lawful for its own trace; with another answer it isn't, nor is it for
/// another trace.
pub fn lawful_run()
    ensures answer { WrongAnswer (run_of_rounds larger_answer) 0 }
    ensures trace { ¬ IsLawfulRun (trace_of (run_of_rounds falling)) (run_of_rounds crossing) }
{}

/// A lawful history in good order isn't enough. A caller frees what it holds itself, and is served
/// without another caller in between.
pub fn lawful_history_alone()
    ensures freed_by_other { IsLawfulHistory two_callers (flat_map entries_of_round freed_by_other) }
    ensures not_held { WrongAnswer (run_of_rounds freed_by_other) 2 }
    ensures nothing_to_free { WrongEntries (run_of_rounds freed_by_other) 2 }
    ensures in_between { IsLawfulHistory two_callers_in_8_pages (flat_map entries_of_round asks_in_between) }
    ensures disturbed { WrongEntries (run_in_8_pages asks_in_between) 0 }
{
    lawful_without_breach();
}
