//! The laws on which the calls of a zone rest.

ghost use Rattle.std.specs.Prelude.{List, IsTrue};
ghost use Rattle.mz_base.specs.declared.profile.Profile.{Profile};
ghost use Rattle.mz_events.specs.declared.entry.Entry.{Entry as entry};
ghost use Rattle.mz_events.specs.State.{opening, is_open};
ghost use Rattle.mz_events.specs.History.{AreLawful, after_all};
ghost use Rattle.mz_book.specs.Account.{IsOrderly};
ghost use Rattle.mz_zone.specs.ZoneLaws.{ZoneLaws};

use mz_book::Book;
use mz_book::laws::{growth, hands, slots};
use mz_events::laws::{entries, events, holding, separation};
use mz_rack::Keeper;

/// They hold, all together.
pub(crate) fn of_zones()
    ensures { ZoneLaws }
{
    growth::growth_of_calls();
    slots::slots_in_the_hand();
    slots::lights_that_are_held();
    hands::hands_after_an_event();
    hands::what_is_in_the_hand();
    separation::separation();
    separation::live_blocks_are_ascending();
    holding::what_an_event_leaves();
    entries::lawful_entries_split();
    entries::tickets_are_indices();
    mz_record::laws::hands_after_requests();
    mz_record::laws::blocks_of_requests();
    mz_record::laws::moments();
    mz_record::laws::undisturbed();
    mz_record::laws::later_entries();
    mz_record::laws::bytes_are_kept();
    mz_base::laws::good_size_is_least();
    mz_events::laws::best_fits();
    zone_zero_stays_open();
}

// Zone 0, of which all of nano is, is open from the first entry on, and never shuts.
fn zone_zero_stays_open()
    ensures { (p : Profile) (entries : List entry) → AreLawful p opening entries → IsTrue (is_open (after_all p opening entries) 0) }
{
    events::when_an_event_fits();
    entries::zones_after_an_event();
}

/// What holds of every book.
pub(crate) fn of_book<B: Book<Keeper>>(book: &B)
    ensures { IsOrderly (B.account book.now) }
{
    let _ = book;
}
