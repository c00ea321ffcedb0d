//! A plain book is taken apart, and put together.
ghost use Rattle.std.specs.Prelude.{◌≡◌};
ghost use Rattle.mz_book.specs.Account.{HoldsNothing};
ghost use Rattle.mz_book.specs.Parts.{account_in, FitTogether};

use crate::book::Book;
use crate::light::Asked;
use crate::plain::PlainBook;
use mz_base::Profile;
use mz_events::{Entry, Keep};
use std::snapshot::Snapshot;

/// What a plain book is made of, while nothing is held. `history` has room for `limit` entries; `held` is empty, and has room for
/// each keeper's number; `site` is a keeper of the space of all, for contracts alone.
#[derive(Drop)]
pub struct Parts<V> {
    pub profile: Profile,
    pub caller: u32,
    pub history: Vec<Entry>,
    pub limit: usize,
    pub held: Vec<usize>,
    pub keepers: Vec<Option<V>>,
    /// For each quantum of the space, the caller who owns the block that begins there.
    pub quanta: Vec<u8>,
    /// The class of each block of nano.
    pub classes: Vec<u64>,
    /// The word of each slot of nano, by block and slot.
    pub slots: Vec<u64>,
    pub holds: u64,
    pub founds: u64,
    pub found: Option<Asked>,
    pub site: Snapshot<V>,
}

impl<V: Keep> PlainBook<V> {
    /// The parts of a book of which nothing is held.
    pub fn into_parts(self) -> Parts<V>
        requires { HoldsNothing (⟦<PlainBook<V> as Book<V>>⟧.account self) }
        ensures fit { FitTogether V.keeping result }
        ensures account { account_in V.keeping result ≡ ⟦<PlainBook<V> as Book<V>>⟧.account self }
    {
        let PlainBook {
            profile,
            caller,
            history,
            limit,
            held,
            keepers,
            quanta,
            classes,
            slots,
            holds,
            founds,
            found,
            site,
        } = self;
        Parts {
            profile,
            caller,
            history,
            limit,
            held,
            keepers,
            quanta,
            classes,
            slots,
            holds,
            founds,
            found,
            site,
        }
    }

    /// The book that is made of these parts.
    pub fn of_parts(parts: Parts<V>) -> PlainBook<V>
        requires { FitTogether V.keeping parts }
        ensures { ⟦<PlainBook<V> as Book<V>>⟧.account result ≡ account_in V.keeping parts }
    {
        let Parts {
            profile,
            caller,
            history,
            limit,
            held,
            keepers,
            quanta,
            classes,
            slots,
            holds,
            founds,
            found,
            site,
        } = parts;
        PlainBook {
            profile,
            caller,
            history,
            limit,
            held,
            keepers,
            quanta,
            classes,
            slots,
            holds,
            founds,
            found,
            site,
        }
    }
}
