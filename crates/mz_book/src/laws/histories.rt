//! The laws of histories on which this crate stands.

ghost use Rattle.mz_book.specs.HistoryLaws.{HistoryLaws};

use mz_events::laws::{entries, events, holding, separation, states};

/// They hold, all together.
pub(crate) fn of_histories()
    ensures { HistoryLaws }
{
    holding::what_an_event_leaves();
    holding::what_an_event_reads();
    holding::others_leave_what_is_held();
    entries::lawful_entries_split();
    entries::states_split();
    entries::zones_after_an_event();
    entries::tickets_are_indices();
    separation::separation();
    separation::live_blocks_are_ascending();
    separation::runs_fit_the_space();
    separation::live_blocks_have_their_forms();
    states::spots_stand_once();
    states::lists_are_by_spot();
    events::when_an_event_fits();
}
