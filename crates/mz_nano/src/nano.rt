//! The blocks of a nano.
ghost use Rattle.std.specs.Coded.{Coded-set};
ghost use Rattle.mz_base.specs.Site.{site_code};
ghost use Rattle.std.specs.Prelude.{length, ◌≡◌, ◌*◌, ◌≤◌, ◌<◌, ◌^◌};

use crate::rule::NanoRule;
use crate::view::{Geometry, View};
use atomic_table::Table;
use mz_ground::{Estate, Parcel};
use std::alloc::Global;

// How many links a block has, and how many places for its parcels: one for each slot, and one for what
// is left of the page behind the last slot.
pub(crate) const LINKS: u64 = 1024;

pub(crate) const PLACES: u64 = 1025;

/// Slots of 16 to 256 bytes in the pages of one span. Threads share it, each with a seat of its own.
#[derive(Drop)]
pub struct Nano {
    // The word of each block, and then the links of each; the places of each block's parcels.
    pub(crate) table: Table<Option<Parcel>, View, Geometry, NanoRule, Global>,
    pub(crate) blocks: u64,
    pub(crate) most_gen: u64,
    // No bytes, where the span begins. The pages are put together behind it at the end.
    pub(crate) edge: Parcel,
    // Where the slots' bytes lie. A slot is laid when it is popped.
    pub(crate) estate: Estate,
    ghost words: { table.shared.table_id.words ≡ blocks * 1025 },
    ghost slots: { table.shared.table_id.slots ≡ blocks * 1025 },
    ghost geometry: { (table.shared.key.blocks ≡ blocks) × (table.shared.key.most_gen ≡ most_gen) },
    ghost space: { edge.space ≡ table.shared.key.edge.space } by { Coded-set site_code edge.space table.shared.key.edge.space },
    ghost first: { (edge.first ≡ table.shared.key.edge.first) × (length edge.bytes ≡ 0) },
    ghost lies: { estate.space ≡ table.shared.key.edge.space } by { Coded-set site_code estate.space table.shared.key.edge.space },
    ghost lies_at: { (estate.first ≡ table.shared.key.edge.first) × (estate.size ≡ blocks * 16384) },
    ghost few: { (1 ≤ blocks) × (blocks < 2 ^ 50) },
    ghost least: { (1 ≤ most_gen) × (most_gen < 2 ^ 36) },
    ghost seated: { 1 ≤ table.shared.key.seats },
}
