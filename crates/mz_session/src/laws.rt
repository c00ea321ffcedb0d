//! The laws on which a session rests.

ghost use Rattle.mz_book.specs.Account.{IsOrderly};
ghost use Rattle.mz_session.specs.SessionLaws.{SessionLaws};

use mz_book::Book;
use mz_book::laws::hands;
use mz_events::laws::{entries, events, holding, separation, states};
use mz_rack::Keeper;

/// They hold, all together.
pub(crate) fn of_sessions()
    ensures { SessionLaws }
{
    hands::hands_after_an_event();
    hands::what_is_in_the_hand();
    entries::tickets_are_indices();
    entries::lawful_entries_split();
    events::when_an_event_fits();
    holding::what_an_event_leaves();
    holding::what_an_event_reads();
    states::spots_stand_once();
    states::lists_are_by_spot();
    separation::separation();
    separation::live_blocks_are_ascending();
    separation::live_blocks_have_their_forms();
    mz_record::laws::hands_after_requests();
    mz_record::laws::served_is_made();
    mz_record::laws::blocks_of_requests();
    mz_record::laws::later_entries();
    mz_record::laws::bytes_are_kept();
    mz_record::laws::moments();
    mz_base::laws::good_size_is_least();
}

/// What holds of every book.
pub(crate) fn of_book<B: Book<Keeper>>(book: &B)
    ensures { IsOrderly (B.account book.now) }
{
    let _ = book;
}
