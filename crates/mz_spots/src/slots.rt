//! The slots of a state, each spot at most once.
ghost use Rattle.std.specs.Prelude.{[], ◌∷◌, ◌++◌, length, slice_index_or, slice_set, ◌≡◌, ◌+◌, ◌^◌, ◌<◌, ◌≤◌, ◌==◌, IsTrue, OnOk, IfOk, None, false, is_none};
ghost use Rattle.std.specs.List.{list_any, list_all};
ghost use Rattle.std.specs.Option.{option_map};
ghost use Rattle.mz_base.specs.Space.{block_at, run_at, runs_apart};
ghost use Rattle.mz_base.specs.Lists.{has_block as some_block, blocks_in};
ghost use Rattle.mz_events.specs.declared.place.Place.TheVariants.{Pages as free_pages};
ghost use Rattle.mz_events.specs.Places.{Spot, keeper_at, spot_at, spot_of, is_pages};
ghost use Rattle.mz_events.specs.State.{Value as value, blank as blank_value, look_up, write, live_size};
ghost use Rattle.mz_events.specs.Changes.{with_block, without_block, resized, with_run, without_run, with_region, region_at, pages_without, pages_with};
ghost use Rattle.mz_events.specs.Duties.{duty_of_end};
ghost use Rattle.mz_events.specs.Effect.{write_all};
ghost use Rattle.mz_events.specs.Leaving.{left_by};
ghost use Rattle.mz_holding.specs.LiveBlocks.{page_limit};
ghost use Rattle.mz_holding.specs.HeldRuns.{IsRoomBut, run_of_held, live_of_held};
ghost use Rattle.mz_spots.specs.Keys.{spot_of_key, spots_of};
ghost use Rattle.mz_spots.specs.SlotKinds.{IsOfRuns, HasRoomFor, duty_of_region};
ghost use Rattle.mz_spots.specs.SlotLists.{found_at, IsSlotFor};
ghost use Rattle.mz_spots.specs.Indexes.{place_in};

use crate::key::Key;
use crate::slot::{Done, Slot};
use mz_events::{Event, Place};
use mz_holding::Held;
use std::alloc::{AllocError, Global};
use std::collections::BTreeMap;
use std::marker::Model;
use std::mem::replace;

/// Slots, each spot at most once, in the order in which they came. Contracts see the list of the spots with their values.
///
/// A call that changes them takes them by value: where memory is wanted they are dropped.
#[derive(Drop)]
pub struct Slots {
    list: Vec<Slot>,
    // Where the slot of each spot stands, by the spot's numbers.
    places: BTreeMap<(u64, (u64, u64)), usize>,
    // The bytes of all live blocks.
    used: u64,
}

impl Model for Slots {
    ghost use Rattle.std.specs.Prelude.{List, ◌≡◌};
    ghost use Rattle.mz_events.specs.Places.{Spot};
    ghost use Rattle.mz_events.specs.State.{Value as value, live_size};
    ghost use Rattle.mz_spots.specs.Indexes.{IsIndex};

    ghost Value = { List (Spot × value) };

    ghost view = { λ s. s.list.items };

    ghost invariant = { λ s. IsIndex s.places s.list.items × (s.used ≡ live_size s.list.items) };
}

// The same slots again.
fn copies(alloc: Global, slots: &[Slot]) -> Result<Vec<Slot>, AllocError>
    ensures { IfOk result (λ v. v.items ≡ slots.now) }
{
    let mut list = Vec::new(alloc);
    for slot in slots {
        list.push(slot.copy(alloc)?)?;
    }
    Ok(list)
}

impl Slots {
    /// No slots.
    pub fn new(alloc: Global) -> Slots
        ensures { result ≡ [] }
    {
        Slots {
            list: Vec::new(alloc),
            places: BTreeMap::new(alloc),
            used: 0,
        }
    }

    /// The same again.
    pub fn copy(&self, alloc: Global) -> Result<Slots, AllocError>
        ensures { IfOk result (λ s. s ≡ self.now) }
    {
        Ok(Slots {
            list: copies(alloc, &self.list)?,
            places: self.places.clone()?,
            used: self.used,
        })
    }

    /// The slots.
    pub fn list(&self) -> &[Slot]
        ensures { result.now ≡ self.now }
    {
        &self.list
    }

    /// The bytes of all live blocks.
    pub fn used(&self) -> u64
        ensures { result ≡ live_size self.now }
    {
        self.used
    }

    /// Whether no duty stands at any of them.
    pub fn owe_nothing(&self) -> bool
        ensures { result ≡ list_all (λ pair. is_none pair.1.duty) self.now }
    {
        self.list.iter().all(|slot| slot.duty().is_none())
    }

    /// The slot of a spot.
    pub fn find(&self, key: Key) -> Option<&Slot>
        ensures { option_map (λ s. s.now) result ≡ found_at self.now (spot_of_key key) }
    {
        let i = self.place_of(key)?;
        Some(self.at(i))
    }

    // The slot at an index.
    fn at(&self, i: usize) -> &Slot
        requires { i < length self.now }
        ensures { (d : Spot × value) → result.now ≡ slice_index_or self.now i d }
    {
        &self.list[i]
    }

    // Where the slot of a spot stands.
    fn place_of(&self, key: Key) -> Option<usize>
        ensures { result ≡ place_in self.now (spot_of_key key) }
    {
        self.places.get(&key.numbers()).copied()
    }

    // The same where the spot has a slot from now on.
    fn seat(self, alloc: Global, key: Key) -> Result<(Slots, usize), AllocError>
        ensures { IfOk result (λ r. IsSlotFor self r.0 r.1 (spot_of_key key)) }
    {
        match self.place_of(key) {
            Some(i) => Ok((self, i)),
            None => {
                let i = self.list().len();
                let slots = self.add(alloc, key)?;
                Ok((slots, i))
            }
        }
    }

    // A blank slot for a spot that has none.
    fn add(self, alloc: Global, key: Key) -> Result<Slots, AllocError>
        requires { place_in self (spot_of_key key) ≡ None }
        ensures { IfOk result (λ s. s ≡ self ++ (spot_of_key key, blank_value) ∷ []) }
    {
        let Slots {
            mut list,
            mut places,
            used,
        } = self;
        let i = list.as_slice().len();
        places.insert(key.numbers(), i)?;
        list.push(Slot::blank(alloc, key))?;
        Ok(Slots { list, places, used })
    }

    // Puts a slot in the place of another of the same spot.
    fn exchange(self, i: usize, slot: Slot) -> Result<(Slots, Slot), AllocError>
        requires within { i < length self }
        requires same { (d : Spot × value) → (slice_index_or self i d).0 ≡ slot.0 }
        ensures put { IfOk result (λ r. r.0 ≡ slice_set self i slot) }
        ensures out { IfOk result (λ r. (d : Spot × value) → r.1 ≡ slice_index_or self i d) }
    {
        let Slots {
            mut list,
            places,
            used,
        } = self;
        let Some(less) = list[i].used() else {
            return Err(AllocError);
        };
        let Some(more) = slot.used() else {
            return Err(AllocError);
        };
        let Some(used) = (used - less).checked_add(more) else {
            return Err(AllocError);
        };
        let old = replace(&mut list[i], slot);
        Ok((Slots { list, places, used }, old))
    }

    // Takes the slot of a spot out, for `put`.
    fn lift(self, alloc: Global, key: Key) -> Result<(Slots, Slot), AllocError>
        ensures slot { IfOk result (λ r. r.1 ≡ (spot_of_key key, look_up self (spot_of_key key))) }
        ensures rest { IfOk result (λ r. (v : value) → write r.0 (spot_of_key key) v ≡ write self (spot_of_key key) v) }
    {
        let (slots, i) = self.seat(alloc, key)?;
        let (rest, slot) = slots.exchange(i, Slot::blank(alloc, key))?;
        Ok((rest, slot))
    }

    // Puts a slot in, in the place of the one of its spot.
    fn put(self, alloc: Global, slot: Slot) -> Result<Slots, AllocError>
        ensures { IfOk result (λ s. s ≡ write self slot.0 slot.1) }
    {
        let (slots, i) = self.seat(alloc, slot.key())?;
        let (slots, _old) = slots.exchange(i, slot)?;
        Ok(slots)
    }

    /// An entry touched the spot, left this duty there, and changed nothing that it keeps.
    pub fn note(
        self,
        alloc: Global,
        key: Key,
        done: Done,
        duty: Option<Event>,
    ) -> Result<Slots, AllocError>
        ensures { IfOk result (λ s. s ≡ write self (spot_of_key key) (left_by done.caller done.event (look_up self (spot_of_key key)).kept duty)) }
    {
        let (rest, mut slot) = self.lift(alloc, key)?;
        slot.note(done, duty);
        rest.put(alloc, slot)
    }

    /// An entry touched these spots, left this duty at each, and changed nothing that they keep.
    pub fn note_all(
        self,
        alloc: Global,
        keys: &[Key],
        done: Done,
        duty: Option<Event>,
    ) -> Result<Slots, AllocError>
        ensures { IfOk result (λ s. s ≡ write_all (λ j. left_by done.caller done.event (look_up self j).kept duty) (spots_of keys.now) self) }
    {
        let mut slots = self;
        for i in 0..keys.len() {
            slots = slots.note(alloc, keys[i], done, duty)?;
        }
        Ok(slots)
    }

    /// A block becomes live in the place `k`, by this entry.
    pub fn make(
        self,
        alloc: Global,
        done: Done,
        k: Place,
        a: u64,
        n: u64,
    ) -> Result<Slots, AllocError>
        requires kind { is_pages k ≡ false }
        requires room { HasRoomFor (spot_at k a) (look_up self (spot_at k a)).kept a n }
        ensures { IfOk result (λ s. s ≡ write self (spot_at k a) (left_by done.caller done.event (with_block (block_at a n) (look_up self (spot_at k a)).kept) None)) }
    {
        let (rest, mut slot) = self.lift(alloc, Key::at(k, a))?;
        slot.make(done, a, n)?;
        rest.put(alloc, slot)
    }

    /// A live block of the place `k` ends, by this entry.
    pub fn end(
        self,
        alloc: Global,
        done: Done,
        k: Place,
        a: u64,
        n: u64,
    ) -> Result<Slots, AllocError>
        requires kind { is_pages k ≡ false }
        requires live { IsTrue (some_block (look_up self (spot_at k a)).kept.live (block_at a n)) }
        ensures { let now = without_block k (block_at a n) (look_up self (spot_at k a)).kept in
            IfOk result (λ s. s ≡ write self (spot_at k a) (left_by done.caller done.event now (duty_of_end k now))) }
    {
        let (rest, mut slot) = self.lift(alloc, Key::at(k, a))?;
        slot.end(done, k, a, n)?;
        rest.put(alloc, slot)
    }

    /// A live block of the place `k` has `m` bytes from now on, by this entry.
    pub fn resize(
        self,
        alloc: Global,
        done: Done,
        k: Place,
        a: u64,
        n: u64,
        m: u64,
    ) -> Result<Slots, AllocError>
        requires kind { IsOfRuns (spot_at k a) }
        requires live { IsTrue (some_block (look_up self (spot_at k a)).kept.live (block_at a n)) }
        requires room { IsRoomBut (look_up self (spot_at k a)).kept a m }
        ensures { IfOk result (λ s. s ≡ write self (spot_at k a) (left_by done.caller done.event (resized (block_at a n) (block_at a m) (look_up self (spot_at k a)).kept) None)) }
    {
        let (rest, mut slot) = self.lift(alloc, Key::at(k, a))?;
        slot.resize(done, a, n, m)?;
        rest.put(alloc, slot)
    }

    /// The place `k` takes a run from the free pages, by this entry.
    pub fn take(
        self,
        alloc: Global,
        done: Done,
        k: Place,
        first: u64,
        pages: u64,
    ) -> Result<Slots, AllocError>
        requires kind { IsOfRuns (spot_of k) }
        requires some { 1 ≤ pages }
        requires fits { first + pages ≤ page_limit }
        requires apart { IsTrue (list_all (λ r. runs_apart r (run_at first pages)) (look_up self (spot_of k)).kept.runs) }
        ensures { IfOk result (λ s. s ≡ write self (spot_of k) (left_by done.caller done.event (with_run (run_at first pages) (look_up self (spot_of k)).kept) None)) }
    {
        let (rest, mut slot) = self.lift(alloc, Key::of(k))?;
        slot.take(alloc, done, first, pages)?;
        rest.put(alloc, slot)
    }

    /// The run at page `first` leaves the place `k` for the free pages, by this entry.
    pub fn give_back(
        self,
        alloc: Global,
        done: Done,
        k: Place,
        first: u64,
    ) -> Result<Slots, AllocError>
        requires kind { IsOfRuns (spot_of k) }
        requires there { IsTrue (list_any (λ r. r.first == first) (look_up self (spot_of k)).kept.runs) }
        ensures { IfOk result (λ s. s ≡ write self (spot_of k) (left_by done.caller done.event (without_run (region_at (look_up self (spot_of k)).kept.runs first) (look_up self (spot_of k)).kept) None)) }
    {
        let (rest, mut slot) = self.lift(alloc, Key::of(k))?;
        slot.give_back(done, first);
        rest.put(alloc, slot)
    }

    /// The region comes to the place `k` with its live blocks, by this entry.
    pub fn put_in(
        self,
        alloc: Global,
        done: Done,
        k: Place,
        held: Held,
    ) -> Result<Slots, AllocError>
        requires kind { IsOfRuns (spot_of k) }
        requires some { 1 ≤ (run_of_held held).pages }
        requires fits { (run_of_held held).first + (run_of_held held).pages ≤ page_limit }
        requires apart { IsTrue (list_all (λ r. runs_apart r (run_of_held held)) (look_up self (spot_of k)).kept.runs) }
        ensures { let now = with_region (run_of_held held) (live_of_held held) (look_up self (spot_of k)).kept in
            IfOk result (λ s. s ≡ write self (spot_of k) (left_by done.caller done.event now (duty_of_region k now))) }
    {
        let (rest, mut slot) = self.lift(alloc, Key::of(k))?;
        slot.put_in(alloc, done, k, held)?;
        rest.put(alloc, slot)
    }

    /// The free pages lend a run to `q`, by this entry.
    pub fn lend(
        self,
        alloc: Global,
        done: Done,
        q: Place,
        first: u64,
        pages: u64,
    ) -> Result<Slots, AllocError>
        requires some { 1 ≤ pages }
        requires fits { first + pages < 2 ^ 63 }
        requires apart { IsTrue (list_all (λ t. runs_apart t (run_at first pages)) (look_up self (keeper_at free_pages)).kept.taken) }
        ensures { IfOk result (λ s. s ≡ write self (keeper_at free_pages) (left_by done.caller done.event (pages_without q (run_at first pages) (look_up self (keeper_at free_pages)).kept) None)) }
    {
        let (rest, mut slot) = self.lift(alloc, Key::Keeper(Place::Pages))?;
        slot.lend(done, q, first, pages)?;
        rest.put(alloc, slot)
    }

    /// The free pages have a run again, by this entry.
    pub fn regain(
        self,
        alloc: Global,
        done: Done,
        q: Place,
        first: u64,
        pages: u64,
    ) -> Result<Slots, AllocError>
        ensures { IfOk result (λ s. s ≡ write self (keeper_at free_pages) (left_by done.caller done.event (pages_with q (run_at first pages) (look_up self (keeper_at free_pages)).kept) None)) }
    {
        let (rest, mut slot) = self.lift(alloc, Key::Keeper(Place::Pages))?;
        slot.regain(done, q, first, pages);
        rest.put(alloc, slot)
    }

    /// The region at page `first` leaves the place `k` with its live blocks, by this entry.
    pub fn put_out(
        self,
        alloc: Global,
        done: Done,
        k: Place,
        first: u64,
    ) -> Result<(Slots, Held), AllocError>
        requires kind { IsOfRuns (spot_of k) }
        requires there { IsTrue (list_any (λ r. r.first == first) (look_up self (spot_of k)).kept.runs) }
        ensures run { IfOk result (λ r. run_of_held r.1 ≡ region_at (look_up self (spot_of k)).kept.runs first) }
        ensures blocks { IfOk result (λ r. live_of_held r.1 ≡ blocks_in (look_up self (spot_of k)).kept.live (region_at (look_up self (spot_of k)).kept.runs first)) }
        ensures left { let now = without_run (region_at (look_up self (spot_of k)).kept.runs first) (look_up self (spot_of k)).kept in
            IfOk result (λ r. r.0 ≡ write self (spot_of k) (left_by done.caller done.event now (duty_of_region k now))) }
    {
        let (rest, mut slot) = self.lift(alloc, Key::of(k))?;
        let held = slot.put_out(done, k, first);
        let slots = rest.put(alloc, slot)?;
        Ok((slots, held))
    }

    /// The place `k` has no room for a request of `n` bytes or pages, by this entry.
    pub fn full(self, alloc: Global, done: Done, k: Place, n: u64) -> Result<Slots, AllocError>
        requires kind { IsOfRuns (spot_of k) }
        requires some { 1 ≤ n }
        ensures { IfOk result (λ s. s ≡ write self (spot_of k) (left_by done.caller done.event (look_up self (spot_of k)).kept None)) }
    {
        let (rest, mut slot) = self.lift(alloc, Key::of(k))?;
        slot.full(done, n);
        rest.put(alloc, slot)
    }
}
