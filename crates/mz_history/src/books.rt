//! A state, in a form in which each event is quick.
ghost use Rattle.std.specs.Prelude.{◌≡◌, ◌==◌, nat_lt, false, [], length, IfOk};
ghost use Rattle.mz_history.specs.Listed.{cached_pages};
ghost use Rattle.std.specs.Option.{option_map};
ghost use Rattle.mz_base.specs.Limits.{IsWithinLimits};
ghost use Rattle.mz_events.specs.declared.place.Place.TheVariants.{Pages as free_pages};
ghost use Rattle.mz_events.specs.Places.{keeper_at, nano_page, spot_of, is_pages, is_nano, zone_of as zone_at, exists_in, nano_start as start_of_nano};
ghost use Rattle.mz_events.specs.State.{opening, kept_at, value_at, is_open as is_zone_open};
ghost use Rattle.mz_events.specs.History.{owes_nothing as nothing_owed};
ghost use Rattle.mz_events.specs.Rules.{stands as stands_there, zone_stands as zone_stands_there};
ghost use Rattle.mz_spots.specs.Keys.{spot_of_key};
ghost use Rattle.mz_spots.specs.Slots.{deed_of};
ghost use Rattle.mz_history.specs.Steps.{block_of_pair};

use mz_base::Profile;
use mz_events::laws::locality;
use mz_events::laws::separation::last_freed_lies_in_its_magazine;
use mz_events::{Event, Place};
use mz_holding::{FreePages, Holding, NanoPage};
use mz_spots::{Done, Key, Slots};
use std::alloc::{AllocError, Global};
use std::marker::Model;

/// A state that lawful entries leave. Contracts see it as the definition has it, with its profile.
#[derive(Drop)]
pub(crate) struct Books {
    pub(crate) alloc: Global,
    pub(crate) profile: Profile,
    // The spots that entries touched, in the order in which they first did.
    pub(crate) slots: Slots,
    // The open zones, the last that opened first.
    pub(crate) zones: Vec<u32>,
    pub(crate) entries: u64,
    // The greatest sum of the live sizes so far.
    pub(crate) greatest: u64,
    // What a spot keeps that no entry touched.
    pub(crate) no_pages: FreePages,
    pub(crate) no_runs: Holding,
    pub(crate) no_blocks: NanoPage,
}

impl Model for Books {
    ghost use Rattle.std.specs.Prelude.{◌≡◌};
    ghost use Rattle.mz_events.specs.State.{nothing_kept};
    ghost use Rattle.mz_history.specs.Booked.{Booked, IsBooked};
    ghost use Rattle.mz_history.specs.BookedStates.{state_with};

    ghost Value = { Booked };

    ghost view = { λ b. record { profile = b.profile; state = state_with b.slots b.zones.items b.entries b.greatest } };

    ghost invariant = { λ b. IsBooked b.profile (state_with b.slots b.zones.items b.entries b.greatest) × (b.no_pages ≡ nothing_kept) × (b.no_runs ≡ nothing_kept) × (b.no_blocks ≡ nothing_kept) };
}

impl Books {
    /// The opening state of a space.
    pub(crate) fn open(alloc: Global, p: &Profile) -> Result<Books, AllocError>
        requires { IsWithinLimits p.now }
        ensures { IfOk result (λ b. b ≡ record { profile = p.now; state = opening }) }
    {
        let mut zones = Vec::new(alloc);
        zones.push(0)?;
        Ok(Books {
            alloc,
            profile: *p,
            slots: Slots::new(alloc),
            zones,
            entries: 0,
            greatest: 0,
            no_pages: FreePages::new(alloc),
            no_runs: Holding::new(alloc),
            no_blocks: NanoPage::new(alloc),
        })
    }

    /// The same again.
    pub(crate) fn copy(&self) -> Result<Books, AllocError>
        ensures { IfOk result (λ b. b ≡ self.now) }
    {
        let alloc = self.alloc;
        let slots = self.slots.copy(alloc)?;
        Ok(Books {
            alloc,
            profile: self.profile,
            slots,
            zones: Vec::from_slice(alloc, &self.zones)?,
            entries: self.entries,
            greatest: self.greatest,
            no_pages: FreePages::new(alloc),
            no_runs: Holding::new(alloc),
            no_blocks: NanoPage::new(alloc),
        })
    }

    /// What a magazine, a depot or large keeps.
    pub(crate) fn holding(&self, k: Place) -> &Holding
        requires pages { is_pages k ≡ false }
        requires nano { is_nano k ≡ false }
        ensures { result.now ≡ kept_at self.now.state (spot_of k) }
    {
        match self.slots.find(Key::Keeper(k)) {
            Some(slot) => slot.holding(),
            None => &self.no_runs,
        }
    }

    /// Whether the zone is one of the profile's; no other has cached runs.
    pub(crate) fn has_zone(&self, zone: u32) -> bool
        ensures is { result ≡ nat_lt zone self.now.profile.zones }
        ensures none { result ≡ false → cached_pages self.now.state zone ≡ [] }
    {
        locality();
        let _entries = self.entries;
        zone < self.profile.zones
    }

    /// The last freed block of a place: its address and its size. Magazines alone have one.
    pub(crate) fn last_freed(&self, k: Place) -> Option<(u64, u64)>
        ensures { option_map block_of_pair result ≡ (kept_at self.now.state (spot_of k)).last_freed }
    {
        last_freed_lies_in_its_magazine();
        let _entries = self.entries;
        match k {
            Place::Pages => None,
            Place::Nano => None,
            _ => {
                let freed = self.holding(k).last_freed()?;
                Some((freed.first, freed.len))
            }
        }
    }

    /// The free pages.
    pub(crate) fn free(&self) -> &FreePages
        ensures { result.now ≡ kept_at self.now.state (spot_of free_pages) }
    {
        match self.slots.find(Key::Keeper(Place::Pages)) {
            Some(slot) => slot.free(),
            None => &self.no_pages,
        }
    }

    /// What a page of nano keeps.
    pub(crate) fn nano(&self, i: u64) -> &NanoPage
        ensures { result.now ≡ kept_at self.now.state (nano_page i) }
    {
        match self.slots.find(Key::Page(i)) {
            Some(slot) => slot.nano(),
            None => &self.no_blocks,
        }
    }

    /// Whether a spot has no run.
    pub(crate) fn has_no_runs(&self, key: Key) -> bool
        ensures { result ≡ (length (kept_at self.now.state (spot_of_key key)).runs == 0) }
    {
        match self.slots.find(key) {
            Some(slot) => slot.has_no_runs(),
            None => true,
        }
    }

    /// Whether no block is live at a spot.
    pub(crate) fn has_no_blocks(&self, key: Key) -> bool
        ensures { result ≡ (length (kept_at self.now.state (spot_of_key key)).live == 0) }
    {
        match self.slots.find(key) {
            Some(slot) => slot.has_no_blocks(),
            None => true,
        }
    }

    /// The duty that stands at a spot.
    pub(crate) fn duty(&self, key: Key) -> Option<Event>
        ensures { result ≡ (value_at self.now.state (spot_of_key key)).duty }
    {
        match self.slots.find(key) {
            Some(slot) => slot.duty(),
            None => None,
        }
    }

    /// The last entry that touched a spot.
    pub(crate) fn last(&self, key: Key) -> Option<Done>
        ensures { option_map deed_of result ≡ (value_at self.now.state (spot_of_key key)).last }
    {
        match self.slots.find(key) {
            Some(slot) => slot.last(),
            None => None,
        }
    }

    /// How many entries there were.
    pub(crate) fn entries(&self) -> u64
        ensures { result ≡ self.now.state.entries }
    {
        self.entries
    }

    /// The greatest sum of live sizes so far.
    pub(crate) fn greatest(&self) -> u64
        ensures { result ≡ self.now.state.greatest }
    {
        self.greatest
    }

    /// The numbers of the space.
    pub(crate) fn profile(&self) -> &Profile
        ensures { result.now ≡ self.now.profile }
    {
        &self.profile
    }

    /// Whether no duty stands anywhere.
    pub(crate) fn owes_nothing(&self) -> bool
        ensures { result ≡ nothing_owed self.now.state }
    {
        self.slots.owe_nothing()
    }

    /// Whether a zone is open.
    pub(crate) fn is_open(&self, zone: u32) -> bool
        ensures { result ≡ is_zone_open self.now.state zone }
    {
        self.zones.contains(&zone)
    }

    /// Whether the place is one of the space.
    pub(crate) fn exists(&self, k: Place) -> bool
        ensures { result ≡ exists_in self.now.profile k }
    {
        let p = &self.profile;
        match k {
            Place::Pages => true,
            Place::Tiny { zone, mag } | Place::Small { zone, mag } => {
                zone < p.zones && mag < p.magazines
            }
            Place::TinyDepot { zone } | Place::SmallDepot { zone } | Place::Large { zone } => {
                zone < p.zones
            }
            Place::Nano => 0 < p.nano,
        }
    }

    /// Whether it is, and its zone is open.
    pub(crate) fn stands(&self, k: Place) -> bool
        ensures { result ≡ stands_there self.now.profile self.now.state k }
    {
        self.exists(k) && self.is_open(zone_of(k))
    }

    /// Whether the zone is one of the profile and open.
    pub(crate) fn zone_stands(&self, zone: u32) -> bool
        ensures { result ≡ zone_stands_there self.now.profile self.now.state zone }
    {
        zone < self.profile.zones && self.is_open(zone)
    }

    /// The first of nano's pages.
    pub(crate) fn nano_start(&self) -> u64
        ensures { result ≡ start_of_nano self.now.profile }
    {
        self.profile.pages - self.profile.nano
    }
}

/// The zone of a place; nano is of zone 0.
pub(crate) fn zone_of(k: Place) -> u32
    ensures { result ≡ zone_at k }
{
    match k {
        Place::Pages | Place::Nano => 0,
        Place::Tiny { zone, .. }
        | Place::TinyDepot { zone }
        | Place::Small { zone, .. }
        | Place::SmallDepot { zone }
        | Place::Large { zone } => zone,
    }
}
