//! The single steps, each one call of the table.
ghost use Rattle.std.specs.Prelude.{◌≡◌, ◌≢◌, ℕ, ◌+◌, ◌-◌, ◌*◌, ◌≤◌, ◌<◌, ◌^◌, true, [], ◌∷◌, Some, None, List, length};
ghost use Rattle.atomic_table.specs.Table.{step, rest};
ghost use mathlib.Core.Option.{none};
ghost use Rattle.mz_nanoword.specs.Words.{word_of};
ghost use Rattle.mz_nano.specs.declared.view.Known.{Known};
ghost use Rattle.mz_nano.specs.Lists.{In};
ghost use Rattle.mz_nano.specs.Rule.{IsReady, Once, held, known, vacant, slots, fresh_link, claim};
ghost use Rattle.mz_nano.specs.StepEffects.{word_loaded, place_given, link_loaded, link_stored, slot_cut, IsSound, PopsSlot, PushesSlot, ClaimsBlock, MakesReady, slot_of};
ghost use Rattle.mz_nano.specs.StepNeeds.{CanPop, CanPush, CanClaim, CanCut, CanMakeReady};

use crate::nano::{LINKS, Nano};
use crate::rule::{
    ClaimExchange, GivePlace, LoadBlock, LoadLink, MakeReady, PopExchange, PushExchange,
    StoreFreshLink, StoreLink,
};
use crate::view::View;
use atomic_table::Seat;
use mz_ground::Parcel;

impl Nano {
    // Loads the word of the block b.
    pub(crate) fn load_block(&self, seat: &mut Seat<Option<Parcel>, View>, b: u64) -> u64
        requires table { seat.old.table_id ≡ self.now.table.shared.table_id }
        requires geometry { seat.old.me.0.geometry ≡ self.now.table.shared.key }
        requires exists { b < self.now.blocks }
        requires live { seat.old.me.0.live ≡ true }
        ensures table { seat.new.table_id ≡ seat.old.table_id }
        ensures view { seat.new.me.0 ≡ word_loaded seat.old.me.0 b result }
        ensures carried { seat.new.me.1 ≡ seat.old.me.1 }
        ensures sound { IsSound seat.old.me.0.geometry result }
        ensures mine { (j : ℕ) → (c : ℕ) → In (held b j c) seat.old.me.0.hand → ((word_of result).state ≡ c) × IsReady (word_of result) }
        ensures once { Once seat.old.me.0.hand }
        ensures room { length seat.old.me.0.hand ≤ seat.old.me.0.geometry.blocks * 1024 }
    {
        let _blocks = self.blocks;
        self.table.shared.load::<LoadBlock>(seat, b as usize)
    }

    // The same, and gives back the place that the pop or a lost push took.
    pub(crate) fn give_place(&self, seat: &mut Seat<Option<Parcel>, View>, b: u64) -> u64
        requires table { seat.old.table_id ≡ self.now.table.shared.table_id }
        requires exists { b < self.now.blocks }
        requires live { seat.old.me.0.live ≡ true }
        requires mine { (j : ℕ) × (c : ℕ) × In (held b j c) seat.old.me.0.hand × (seat.old.me.0.vacant ≡ vacant b j ∷ []) × (seat.old.me.1 ≡ (b * 1025 + j, None) ∷ rest seat.old.me.1) }
        ensures table { seat.new.table_id ≡ seat.old.table_id }
        ensures view { seat.new.me.0 ≡ place_given seat.old.me.0 b result }
        ensures carried { seat.new.me.1 ≡ rest seat.old.me.1 }
    {
        let _blocks = self.blocks;
        self.table.shared.load::<GivePlace>(seat, b as usize)
    }

    // Loads the link of the first slot of the word that was loaded last.
    pub(crate) fn load_link(&self, seat: &mut Seat<Option<Parcel>, View>, b: u64, slot: u64) -> u64
        requires table { seat.old.table_id ≡ self.now.table.shared.table_id }
        requires geometry { seat.old.me.0.geometry ≡ self.now.table.shared.key }
        requires exists { b < self.now.blocks }
        requires live { seat.old.me.0.live ≡ true }
        requires small { slot < 1024 }
        requires known { (w : ℕ) × (ks : List Known) × (seat.old.me.0.known ≡ known b w ∷ ks) × (slot ≡ slot_of w) }
        ensures table { seat.new.table_id ≡ seat.old.table_id }
        ensures view { seat.new.me.0 ≡ link_loaded seat.old.me.0 (self.now.blocks + b * 1024 + slot) result }
        ensures carried { seat.new.me.1 ≡ seat.old.me.1 }
        ensures small { result ≤ 1024 }
    {
        let blocks = self.blocks;
        self.table
            .shared
            .load::<LoadLink>(seat, (blocks + b * LINKS + slot) as usize)
    }

    // The exchange of a pop.
    pub(crate) fn pop_exchange(
        &self,
        seat: &mut Seat<Option<Parcel>, View>,
        b: u64,
        old: u64,
        new: u64,
    ) -> u64
        requires table { seat.old.table_id ≡ self.now.table.shared.table_id }
        requires geometry { seat.old.me.0.geometry ≡ self.now.table.shared.key }
        requires exists { b < self.now.blocks }
        requires can { (l : ℕ) × CanPop seat.old.me.0 b old new l }
        ensures table { seat.new.table_id ≡ seat.old.table_id }
        ensures pops { PopsSlot (step self.now.table.shared.table_id.slots b old new none) seat.old.me result seat.new.me }
    {
        let _blocks = self.blocks;
        self.table
            .shared
            .compare_exchange::<PopExchange>(seat, b as usize, old, new)
    }

    // Stores the link of a slot in hand, and takes its place.
    pub(crate) fn store_link(
        &self,
        seat: &mut Seat<Option<Parcel>, View>,
        b: u64,
        slot: u64,
        next: u64,
    )
        requires table { seat.old.table_id ≡ self.now.table.shared.table_id }
        requires geometry { seat.old.me.0.geometry ≡ self.now.table.shared.key }
        requires exists { (b < self.now.blocks) × (slot < 1024) }
        requires live { seat.old.me.0.live ≡ true }
        requires mine { (c : ℕ) × In (held b slot c) seat.old.me.0.hand }
        requires outs { seat.old.me.0.vacant ≡ [] }
        requires small { next ≤ 1024 }
        ensures table { seat.new.table_id ≡ seat.old.table_id }
        ensures me { seat.new.me ≡ (link_stored seat.old.me.0 b slot next, (b * 1025 + slot, None) ∷ seat.old.me.1) }
    {
        let blocks = self.blocks;
        self.table
            .shared
            .store::<StoreLink>(seat, (blocks + b * LINKS + slot) as usize, next);
    }

    // The exchange of a push.
    pub(crate) fn push_exchange(
        &self,
        seat: &mut Seat<Option<Parcel>, View>,
        b: u64,
        old: u64,
        new: u64,
    ) -> u64
        requires table { seat.old.table_id ≡ self.now.table.shared.table_id }
        requires exists { b < self.now.blocks }
        requires can { (j : ℕ) × (c : ℕ) × CanPush seat.old.me b j c old new }
        ensures table { seat.new.table_id ≡ seat.old.table_id }
        ensures pushes { PushesSlot (step self.now.table.shared.table_id.slots b old new none) seat.old.me result seat.new.me }
    {
        let _blocks = self.blocks;
        self.table
            .shared
            .compare_exchange::<PushExchange>(seat, b as usize, old, new)
    }

    // The exchange that claims a block.
    pub(crate) fn claim_exchange(
        &self,
        seat: &mut Seat<Option<Parcel>, View>,
        b: u64,
        old: u64,
        new: u64,
    ) -> u64
        requires table { seat.old.table_id ≡ self.now.table.shared.table_id }
        requires exists { b < self.now.blocks }
        requires can { (c : ℕ) × CanClaim seat.old.me.0 b old new c }
        ensures table { seat.new.table_id ≡ seat.old.table_id }
        ensures claims { ClaimsBlock (step self.now.table.shared.table_id.slots b old new none) seat.old.me result seat.new.me }
    {
        let _blocks = self.blocks;
        self.table
            .shared
            .compare_exchange::<ClaimExchange>(seat, b as usize, old, new)
    }

    // Stores the link of the slot k of a claimed block, gives its parcel and takes the next place.
    pub(crate) fn cut(&self, seat: &mut Seat<Option<Parcel>, View>, b: u64, k: u64, next: u64)
        requires table { seat.old.table_id ≡ self.now.table.shared.table_id }
        requires geometry { seat.old.me.0.geometry ≡ self.now.table.shared.key }
        requires exists { (b < self.now.blocks) × (k < 1024) }
        requires can { (c : ℕ) × CanCut seat.old.me b c k × (next ≡ fresh_link c k) }
        ensures table { seat.new.table_id ≡ seat.old.table_id }
        ensures me { (c : ℕ) → seat.old.me.0.claim ≡ claim b c k ∷ [] → seat.new.me ≡ (slot_cut seat.old.me.0 b c k, (b * 1025 + (k + 1), None) ∷ rest seat.old.me.1) }
    {
        let blocks = self.blocks;
        self.table
            .shared
            .store::<StoreFreshLink>(seat, (blocks + b * LINKS + k) as usize, next);
    }

    // Stores the ready word of a claimed block.
    pub(crate) fn make_ready(&self, seat: &mut Seat<Option<Parcel>, View>, b: u64, word: u64)
        requires table { seat.old.table_id ≡ self.now.table.shared.table_id }
        requires exists { b < self.now.blocks }
        requires can { (c : ℕ) × CanMakeReady seat.old.me b c word }
        ensures table { seat.new.table_id ≡ seat.old.table_id }
        ensures opens { MakesReady (step self.now.table.shared.table_id.slots b word 0 none) seat.old.me word seat.new.me }
    {
        let _blocks = self.blocks;
        self.table.shared.store::<MakeReady>(seat, b as usize, word);
    }
}
