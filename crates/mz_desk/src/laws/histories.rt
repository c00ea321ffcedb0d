//! The laws of histories, hands and numbers on which this crate stands.

ghost use Rattle.mz_desk.specs.Laws.{DeskLaws};

use mz_book::laws::{hands, notes, numbers, owners, slots};
use mz_events::laws::{entries, holding, separation};

/// They hold, all together.
pub fn of_histories()
    ensures { DeskLaws }
{
    holding::what_an_event_leaves();
    holding::others_leave_what_is_held();
    entries::lawful_entries_split();
    entries::states_split();
    entries::own_entries_and_hands();
    hands::hands_after_an_event();
    owners::owners_after_entries();
    separation::live_blocks_are_ascending();
    numbers::numbers_of_keepers();
    numbers::held_places();
    notes::notes_keep_hands();
    notes::slots_are_in_one_hand();
    slots::lights_that_are_held();
}
