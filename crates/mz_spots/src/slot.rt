//! A spot of a state with its value.
ghost use Rattle.std.specs.Prelude.{◌≡◌, ℕ, ◌+◌, ◌^◌, ◌<◌, ◌≤◌, ◌==◌, IsTrue, OnOk, IfOk, IfSome, None, false, length, map};
ghost use Rattle.std.specs.List.{list_any, list_all};
ghost use Rattle.std.specs.Option.{option_map};
ghost use Rattle.mz_base.specs.Space.{block_at, run_at, runs_apart};
ghost use Rattle.mz_base.specs.Lists.{has_block as some_block, blocks_in, size_sum};
ghost use Rattle.mz_events.specs.declared.place.Place.TheVariants.{Pages as free_pages};
ghost use Rattle.mz_events.specs.Places.{same_spot, keeper_at, nano_page, spot_at, is_pages, place_of};
ghost use Rattle.mz_events.specs.State.{blank as blank_value};
ghost use Rattle.mz_events.specs.Changes.{with_block, without_block, resized, with_run, without_run, with_region, region_at, pages_without, pages_with};
ghost use Rattle.mz_events.specs.Duties.{duty_of_end};
ghost use Rattle.mz_events.specs.Leaving.{left_by};
ghost use Rattle.mz_holding.specs.LiveBlocks.{page_limit};
ghost use Rattle.mz_holding.specs.HeldRuns.{IsRoomBut, run_of_held, live_of_held, run_of_extent, block_of};
ghost use Rattle.mz_spots.specs.Keys.{spot_of_key};
ghost use Rattle.mz_spots.specs.Slots.{deed_of};
ghost use Rattle.mz_spots.specs.SlotKinds.{IsOfRuns, HasRoomFor, duty_of_region};

use crate::key::Key;
use mz_events::{Event, Place};
use mz_holding::{Extent, FreePages, Held, Holding, NanoPage};
use std::alloc::{AllocError, Global};
use std::marker::Model;

/// What a spot keeps.
#[derive(Drop)]
pub enum Keeping {
    Free(FreePages),
    Held(Holding),
    Nano(NanoPage),
}

/// An entry without its ticket.
#[derive(Clone, Copy, Debug, PartialEq, Eq)]
pub struct Done {
    pub caller: u32,
    pub event: Event,
}

/// A spot with what it keeps, the duty that stands there, and the last entry that touched it.
#[derive(Drop)]
pub struct Slot {
    key: Key,
    keeping: Keeping,
    duty: Option<Event>,
    last: Option<Done>,
}

impl Model for Slot {
    ghost use Rattle.std.specs.Prelude.{IsTrue};
    ghost use Rattle.mz_events.specs.Places.{Spot};
    ghost use Rattle.mz_events.specs.State.{Value as value};
    ghost use Rattle.mz_spots.specs.Slots.{slotted, is_kept_so};

    ghost Value = { Spot × value };

    ghost view = { λ s. slotted s.key s.keeping s.duty s.last };

    ghost invariant = { λ s. IsTrue (is_kept_so s.key s.keeping) };
}

impl Slot {
    /// A spot that no entry touched.
    pub fn blank(alloc: Global, key: Key) -> Slot
        ensures { result ≡ (spot_of_key key, blank_value) }
    {
        let keeping = match key {
            Key::Keeper(Place::Pages) => Keeping::Free(FreePages::new(alloc)),
            Key::Keeper(_) => Keeping::Held(Holding::new(alloc)),
            Key::Page(_) => Keeping::Nano(NanoPage::new(alloc)),
        };
        Slot {
            key,
            keeping,
            duty: None,
            last: None,
        }
    }

    /// The same again.
    pub fn copy(&self, alloc: Global) -> Result<Slot, AllocError>
        ensures { IfOk result (λ s. s ≡ self.now) }
    {
        let keeping = match &self.keeping {
            Keeping::Free(free) => Keeping::Free(free.copy(alloc)?),
            Keeping::Held(holding) => Keeping::Held(holding.copy(alloc)?),
            Keeping::Nano(page) => Keeping::Nano(page.copy()?),
        };
        Ok(Slot {
            key: self.key,
            keeping,
            duty: self.duty,
            last: self.last,
        })
    }

    /// Whether it is the slot of this spot.
    pub fn is_at(&self, key: Key) -> bool
        ensures { result ≡ same_spot (spot_of_key key) self.now.0 }
    {
        key.is(self.key)
    }

    /// Its spot.
    pub fn key(&self) -> Key
        ensures { spot_of_key result ≡ self.now.0 }
    {
        self.key
    }

    /// The duty that stands there.
    pub fn duty(&self) -> Option<Event>
        ensures { result ≡ self.now.1.duty }
    {
        self.duty
    }

    /// The last entry that touched it.
    pub fn last(&self) -> Option<Done>
        ensures { option_map deed_of result ≡ self.now.1.last }
    {
        self.last
    }

    /// Whether it has no run.
    pub fn has_no_runs(&self) -> bool
        ensures { result ≡ (length self.now.1.kept.runs == 0) }
    {
        match &self.keeping {
            Keeping::Free(free) => free.has_no_runs(),
            Keeping::Held(holding) => holding.has_no_runs(),
            Keeping::Nano(page) => page.has_no_runs(),
        }
    }

    /// Whether no block is live there.
    pub fn has_no_blocks(&self) -> bool
        ensures { result ≡ (length self.now.1.kept.live == 0) }
    {
        match &self.keeping {
            Keeping::Free(free) => free.has_no_blocks(),
            Keeping::Held(holding) => holding.has_no_blocks(),
            Keeping::Nano(page) => page.has_no_blocks(),
        }
    }

    /// The free pages.
    pub fn free(&self) -> &FreePages
        requires { self.now.0 ≡ keeper_at free_pages }
        ensures { result.now ≡ self.now.1.kept }
    {
        match &self.keeping {
            Keeping::Free(free) => free,
            _ => unreachable!(),
        }
    }

    /// What a magazine, a depot or large keeps.
    pub fn holding(&self) -> &Holding
        requires { IsOfRuns self.now.0 }
        ensures { result.now ≡ self.now.1.kept }
    {
        match &self.keeping {
            Keeping::Held(holding) => holding,
            _ => unreachable!(),
        }
    }

    /// What a page of nano keeps.
    pub fn nano(&self) -> &NanoPage
        requires { (i : ℕ) × (self.now.0 ≡ nano_page i) }
        ensures { result.now ≡ self.now.1.kept }
    {
        match &self.keeping {
            Keeping::Nano(page) => page,
            _ => unreachable!(),
        }
    }

    /// An entry touched it and left this duty.
    pub fn note(&mut self, done: Done, duty: Option<Event>)
        ensures { self.new ≡ (self.old.0, left_by done.caller done.event self.old.1.kept duty) }
    {
        self.duty = duty;
        self.last = Some(done);
    }

    /// A block becomes live there, by this entry.
    pub fn make(&mut self, done: Done, a: u64, n: u64) -> Result<(), AllocError>
        requires kind { self.old.0 ≡ keeper_at free_pages → ⊥ }
        requires room { HasRoomFor self.old.0 self.old.1.kept a n }
        ensures { OnOk result (self.new ≡ (self.old.0, left_by done.caller done.event (with_block (block_at a n) self.old.1.kept) None)) }
    {
        match &mut self.keeping {
            Keeping::Held(holding) => holding.add_block(a, n)?,
            Keeping::Nano(page) => page.add_block(a, n)?,
            Keeping::Free(_) => unreachable!(),
        }
        self.note(done, None);
        Ok(())
    }

    /// A live block of the place `k` ends there, by this entry.
    pub fn end(&mut self, done: Done, k: Place, a: u64, n: u64) -> Result<(), AllocError>
        requires at { self.old.0 ≡ spot_at k a }
        requires kind { is_pages k ≡ false }
        requires live { IsTrue (some_block self.old.1.kept.live (block_at a n)) }
        ensures { OnOk result (self.new ≡ (self.old.0, left_by done.caller done.event (without_block k (block_at a n) self.old.1.kept) (duty_of_end k (without_block k (block_at a n) self.old.1.kept)))) }
    {
        let duty = match &mut self.keeping {
            Keeping::Held(holding) => {
                holding.end_block(k, a, n)?;
                holding.duty_of_end(k)
            }
            Keeping::Nano(page) => {
                page.end_block(a, n);
                None
            }
            Keeping::Free(_) => unreachable!(),
        };
        self.note(done, duty);
        Ok(())
    }

    /// A live block of `n` bytes has `m` from now on, by this entry.
    pub fn resize(&mut self, done: Done, a: u64, n: u64, m: u64) -> Result<(), AllocError>
        requires kind { IsOfRuns self.old.0 }
        requires live { IsTrue (some_block self.old.1.kept.live (block_at a n)) }
        requires room { IsRoomBut self.old.1.kept a m }
        ensures { OnOk result (self.new ≡ (self.old.0, left_by done.caller done.event (resized (block_at a n) (block_at a m) self.old.1.kept) None)) }
    {
        match &mut self.keeping {
            Keeping::Held(holding) => holding.resize_block(a, n, m)?,
            _ => unreachable!(),
        }
        self.note(done, None);
        Ok(())
    }

    /// It is full for a request of `n` bytes or pages, by this entry.
    pub fn full(&mut self, done: Done, n: u64)
        requires kind { IsOfRuns self.old.0 }
        requires some { 1 ≤ n }
        ensures { self.new ≡ (self.old.0, left_by done.caller done.event self.old.1.kept None) }
    {
        match &mut self.keeping {
            Keeping::Held(holding) => holding.learn_full(n),
            _ => unreachable!(),
        }
        self.note(done, None);
    }

    /// It takes a run from the free pages, apart from its others, by this entry.
    pub fn take(
        &mut self,
        alloc: Global,
        done: Done,
        first: u64,
        pages: u64,
    ) -> Result<(), AllocError>
        requires kind { IsOfRuns self.old.0 }
        requires some { 1 ≤ pages }
        requires fits { first + pages ≤ page_limit }
        requires apart { IsTrue (list_all (λ r. runs_apart r (run_at first pages)) self.old.1.kept.runs) }
        ensures { OnOk result (self.new ≡ (self.old.0, left_by done.caller done.event (with_run (run_at first pages) self.old.1.kept) None)) }
    {
        match &mut self.keeping {
            Keeping::Held(holding) => holding.add_run(alloc, first, pages)?,
            _ => unreachable!(),
        }
        self.note(done, None);
        Ok(())
    }

    /// The run at page `first` leaves it for the free pages, by this entry.
    pub fn give_back(&mut self, done: Done, first: u64)
        requires kind { IsOfRuns self.old.0 }
        requires there { IsTrue (list_any (λ r. r.first == first) self.old.1.kept.runs) }
        ensures { self.new ≡ (self.old.0, left_by done.caller done.event (without_run (region_at self.old.1.kept.runs first) self.old.1.kept) None) }
    {
        match &mut self.keeping {
            Keeping::Held(holding) => {
                let _held = holding.take_run(first);
            }
            _ => unreachable!(),
        }
        self.note(done, None);
    }

    /// The region at page `first` leaves the place `k` with its live blocks, by this entry.
    pub fn put_out(&mut self, done: Done, k: Place, first: u64) -> Held
        requires kind { IsOfRuns self.old.0 }
        requires there { IsTrue (list_any (λ r. r.first == first) self.old.1.kept.runs) }
        ensures run { run_of_held result ≡ region_at self.old.1.kept.runs first }
        ensures blocks { live_of_held result ≡ blocks_in self.old.1.kept.live (region_at self.old.1.kept.runs first) }
        ensures left { let now = without_run (region_at self.old.1.kept.runs first) self.old.1.kept in
            self.new ≡ (self.old.0, left_by done.caller done.event now (duty_of_region k now)) }
    {
        match &mut self.keeping {
            Keeping::Held(holding) => {
                let held = holding.take_run(first);
                let duty = duty_of(k, holding);
                self.note(done, duty);
                held
            }
            _ => unreachable!(),
        }
    }

    /// The region comes to the place `k` with its live blocks, by this entry.
    pub fn put_in(
        &mut self,
        alloc: Global,
        done: Done,
        k: Place,
        held: Held,
    ) -> Result<(), AllocError>
        requires kind { IsOfRuns self.old.0 }
        requires some { 1 ≤ (run_of_held held).pages }
        requires fits { (run_of_held held).first + (run_of_held held).pages ≤ page_limit }
        requires apart { IsTrue (list_all (λ r. runs_apart r (run_of_held held)) self.old.1.kept.runs) }
        ensures { let now = with_region (run_of_held held) (live_of_held held) self.old.1.kept in
            OnOk result (self.new ≡ (self.old.0, left_by done.caller done.event now (duty_of_region k now))) }
    {
        match &mut self.keeping {
            Keeping::Held(holding) => {
                holding.add_run(alloc, held.first(), held.pages())?;
                holding.fill_run(held);
                let duty = duty_of(k, holding);
                self.note(done, duty);
                Ok(())
            }
            _ => unreachable!(),
        }
    }

    /// The free pages lend a run to `q`, by this entry.
    pub fn lend(&mut self, done: Done, q: Place, first: u64, pages: u64) -> Result<(), AllocError>
        requires kind { self.old.0 ≡ keeper_at free_pages }
        requires some { 1 ≤ pages }
        requires fits { first + pages < 2 ^ 63 }
        requires apart { IsTrue (list_all (λ t. runs_apart t (run_at first pages)) self.old.1.kept.taken) }
        ensures { OnOk result (self.new ≡ (self.old.0, left_by done.caller done.event (pages_without q (run_at first pages) self.old.1.kept) None)) }
    {
        match &mut self.keeping {
            Keeping::Free(free) => free.lend(q, first, pages)?,
            _ => unreachable!(),
        }
        self.note(done, None);
        Ok(())
    }

    /// The free pages have a run again, by this entry.
    pub fn regain(&mut self, done: Done, q: Place, first: u64, pages: u64)
        requires { self.old.0 ≡ keeper_at free_pages }
        ensures { self.new ≡ (self.old.0, left_by done.caller done.event (pages_with q (run_at first pages) self.old.1.kept) None) }
    {
        match &mut self.keeping {
            Keeping::Free(free) => free.regain(q, first, pages),
            _ => unreachable!(),
        }
        self.note(done, None);
    }

    /// The bytes of its live blocks, where they can be told.
    pub fn used(&self) -> Option<u64>
        ensures { IfSome result (λ n. n ≡ size_sum self.now.1.kept.live) }
    {
        match &self.keeping {
            Keeping::Free(free) => {
                let _none = free.has_no_blocks();
                Some(0)
            }
            Keeping::Held(holding) => Some(holding.used()),
            Keeping::Nano(page) => page.used(),
        }
    }

    /// Its runs, ascending.
    pub fn list_runs(&self, alloc: Global) -> Result<Vec<Extent>, AllocError>
        ensures { IfOk result (λ v. map run_of_extent v.items ≡ self.now.1.kept.runs) }
    {
        match &self.keeping {
            Keeping::Free(free) => {
                let _none = free.has_no_runs();
                Ok(Vec::new(alloc))
            }
            Keeping::Held(holding) => holding.list_runs(alloc),
            Keeping::Nano(page) => {
                let _none = page.has_no_runs();
                Ok(Vec::new(alloc))
            }
        }
    }

    /// Its live blocks, ascending.
    pub fn list_blocks(&self, alloc: Global) -> Result<Vec<Extent>, AllocError>
        ensures { IfOk result (λ v. map block_of v.items ≡ self.now.1.kept.live) }
    {
        match &self.keeping {
            Keeping::Free(free) => {
                let _none = free.has_no_blocks();
                Ok(Vec::new(alloc))
            }
            Keeping::Held(holding) => holding.list_blocks(alloc),
            Keeping::Nano(page) => {
                let mut list = Vec::new(alloc);
                page.push_to(&mut list)?;
                Ok(list)
            }
        }
    }

    /// Its place.
    pub fn place(&self) -> Place
        ensures { result ≡ place_of self.now.0 }
    {
        match self.key {
            Key::Keeper(k) => k,
            Key::Page(_) => Place::Nano,
        }
    }
}

// The way back to the free pages of a region without live blocks, where `k` is a depot.
fn duty_of(k: Place, holding: &Holding) -> Option<Event>
    ensures { result ≡ duty_of_region k holding.now }
{
    match k {
        Place::TinyDepot { .. } | Place::SmallDepot { .. } => holding.empty_region(k),
        _ => None,
    }
}
