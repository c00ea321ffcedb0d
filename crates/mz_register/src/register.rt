//! What threads share.
ghost use Rattle.std.specs.Prelude.{◌≡◌, ◌*◌, ◌<◌, ◌≤◌, length};
ghost use Rattle.std.specs.Coded.{Coded-set};
ghost use Rattle.mz_base.specs.Limits.{IsWithinLimits};
ghost use Rattle.mz_base.specs.Codes.{limits_once};
ghost use Rattle.mz_book.specs.Keepers.{keeper_count};
ghost use Rattle.mz_desk.specs.Words.{word_count};
ghost use Rattle.mz_register.specs.Codes.{entries_code};

use atomic_table::Table;
use mz_book::Asked;
use mz_desk::law::RegisterRule;
use mz_desk::view::{Opening, View};
use mz_events::Keep;
use std::alloc::Global;

/// What else of the plain book waits for `hand_in`. `slots` are the words as they were at the opening, in whose room they are handed in.
#[derive(Drop)]
pub struct Rest {
    pub(crate) caller: u32,
    pub(crate) slots: Vec<u64>,
    pub(crate) holds: u64,
    pub(crate) founds: u64,
    pub(crate) found: Option<Asked>,
}

/// The keepers behind their locks, the counter of entries, and the words of nano. Threads share it, each with a pass of its own.
#[derive(Drop)]
pub struct Register<V: Keep + Drop> {
    pub(crate) table: Table<Option<V>, View, Opening<V>, RegisterRule, Global>,
    pub(crate) opening: Opening<V>,
    pub(crate) keepers: usize,
    pub(crate) rest: Rest,
    ghost limits: { IsWithinLimits opening.profile } by { limits_once opening.profile },
    ghost count: { keepers ≡ keeper_count opening.profile },
    ghost few: { keepers ≤ 141 },
    ghost words: { table.shared.table_id.words ≡ word_count opening.profile },
    ghost slots: { table.shared.table_id.slots ≡ keeper_count opening.profile },
    ghost profile: { table.shared.key.profile ≡ opening.profile },
    ghost history: { table.shared.key.history.items ≡ opening.history.items } by { Coded-set entries_code table.shared.key.history.items opening.history.items },
    ghost quanta: { table.shared.key.quanta.items ≡ opening.quanta.items },
    ghost classes: { table.shared.key.classes.items ≡ opening.classes.items },
    ghost site: { ∥ table.shared.key.site ≡ opening.site ∥₁ },
    ghost caller: { rest.caller < opening.profile.callers },
    ghost quantum_count: { length opening.quanta.items ≡ opening.profile.pages * 1024 },
    ghost class_count: { length opening.classes.items ≡ opening.profile.nano },
    ghost slot_count: { length rest.slots.items ≡ opening.profile.nano * 1024 },
}
