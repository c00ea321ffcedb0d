//! The free pages, by the runs that are taken from them.
ghost use Rattle.std.specs.Prelude.{◌≡◌, ℕ, ◌+◌, ◌^◌, ◌<◌, ◌≤◌, ◌==◌, length, filter, OnOk, OnErr, IfOk, IsTrue};
ghost use Rattle.std.specs.List.{list_all, insert};
ghost use Rattle.mz_base.specs.Space.{run_at, runs_apart, least_multiple};
ghost use Rattle.mz_base.specs.Room.{has_free as some_free, is_lowest_free as is_lowest};
ghost use Rattle.mz_events.specs.Places.{is_tiny, is_small};
ghost use Rattle.mz_events.specs.State.{nothing_kept};
ghost use Rattle.mz_events.specs.Changes.{pages_without, pages_with, one_for};
ghost use Rattle.mz_holding.specs.TakenPages.{are_orderly, insert_taken, is_other, front_below, lowest_between};

use mz_base::laws::{free_runs, multiple_is_least};
use mz_events::Place;
use std::alloc::{AllocError, Global};
use std::marker::Model;

/// A run that some place has.
#[derive(Clone, Copy, Debug, PartialEq, Eq)]
pub struct Taken {
    pub first: u64,
    pub pages: u64,
}

/// The runs that are taken, ascending, and how many of them are tiny and small regions. All other pages below nano's are
/// free.
#[derive(Drop)]
pub struct FreePages {
    taken: Vec<Taken>,
    tiny: u64,
    small: u64,
}

impl Model for FreePages {
    ghost use Rattle.std.specs.Prelude.{IsTrue};
    ghost use Rattle.mz_events.specs.State.{Kept, nothing_kept};
    ghost use Rattle.mz_holding.specs.TakenPages.{are_orderly, runs_of};

    ghost Value = { Kept };

    ghost view = { λ f. record nothing_kept { taken = runs_of f.taken.items; tiny_regions = f.tiny; small_regions = f.small } };

    ghost invariant = { λ f. IsTrue (are_orderly 0 f.taken.items) };
}

impl FreePages {
    /// Nothing is taken.
    pub fn new(alloc: Global) -> FreePages
        ensures { result ≡ nothing_kept }
    {
        FreePages {
            taken: Vec::new(alloc),
            tiny: 0,
            small: 0,
        }
    }

    /// The same again.
    pub fn copy(&self, alloc: Global) -> Result<FreePages, AllocError>
        ensures { IfOk result (λ f. f ≡ self.now) }
    {
        Ok(FreePages {
            taken: Vec::from_slice(alloc, &self.taken)?,
            tiny: self.tiny,
            small: self.small,
        })
    }

    /// Whether it has no run of its own.
    pub fn has_no_runs(&self) -> bool
        ensures is { result ≡ (length self.now.runs == 0) }
        ensures always { IsTrue result }
    {
        let _taken = self.taken.len();
        true
    }

    /// Whether no block is live.
    pub fn has_no_blocks(&self) -> bool
        ensures is { result ≡ (length self.now.live == 0) }
        ensures always { IsTrue result }
    {
        let _taken = self.taken.len();
        true
    }

    /// Whether `w` pages below `top` at a multiple of `al` are free.
    pub fn has_free(&self, top: u64, w: u64, al: u64) -> bool
        requires some { 1 ≤ w }
        requires aligned { 1 ≤ al }
        ensures { result ≡ some_free top self.now.taken w al }
    {
        free_runs();
        multiple_is_least();
        lowest_in(&self.taken, top, w, al).is_some()
    }

    /// Whether the `w` pages from `first` are the lowest free run of so many pages at a multiple of `al`.
    pub fn is_lowest_free(&self, top: u64, first: u64, w: u64, al: u64) -> bool
        requires some { 1 ≤ w }
        requires aligned { 1 ≤ al }
        ensures { result ≡ is_lowest top self.now.taken (run_at first w) al }
    {
        free_runs();
        multiple_is_least();
        match lowest_in(&self.taken, top, w, al) {
            Some(lowest) => lowest == first,
            None => false,
        }
    }

    /// The run goes to `q`. An error leaves all as it was.
    pub fn lend(&mut self, q: Place, first: u64, pages: u64) -> Result<(), AllocError>
        requires some { 1 ≤ pages }
        requires within { first + pages < 2 ^ 63 }
        requires apart { IsTrue (list_all (λ t. runs_apart t (run_at first pages)) self.old.taken) }
        ensures ok { OnOk result (self.new ≡ pages_without q (run_at first pages) self.old) }
        ensures err { OnErr result (self.new ≡ self.old) }
    {
        let (tiny, small) = counts_of(q);
        let tiny = total(self.tiny, tiny)?;
        let small = total(self.small, small)?;
        insert_run(&mut self.taken, first, pages)?;
        self.tiny = tiny;
        self.small = small;
        Ok(())
    }

    /// The run comes back from `q`.
    pub fn regain(&mut self, q: Place, first: u64, pages: u64)
        ensures { self.new ≡ pages_with q (run_at first pages) self.old }
    {
        let (tiny, small) = counts_of(q);
        drop_run(&mut self.taken, first, pages);
        self.tiny = self.tiny.saturating_sub(tiny);
        self.small = self.small.saturating_sub(small);
    }
}

// How many tiny and how many small regions a run of the place counts as.
fn counts_of(q: Place) -> (u64, u64)
    ensures tiny { result.0 ≡ one_for (is_tiny q) }
    ensures small { result.1 ≡ one_for (is_small q) }
{
    match q {
        Place::Tiny { .. } | Place::TinyDepot { .. } => (1, 0),
        Place::Small { .. } | Place::SmallDepot { .. } => (0, 1),
        _ => (0, 0),
    }
}

// The first page of the lowest free run of `w` pages below `top` at a multiple of `al`: a pass over the gaps between the
// runs that are taken.
fn lowest_in(taken: &[Taken], top: u64, w: u64, al: u64) -> Option<u64>
    requires ascending { IsTrue (are_orderly 0 taken.now) }
    requires aligned { 1 ≤ al }
    ensures { result ≡ lowest_between top w al 0 taken.now }
{
    let mut x = 0;
    for run in taken {
        if let Some(first) = front_in(x, run.first.min(top), w, al) {
            return Some(first);
        }
        x = run.first + run.pages;
    }
    front_in(x, top, w, al)
}

// The least multiple of `al` at or above `x`, where `w` pages from there end at or below the limit.
fn front_in(x: u64, limit: u64, w: u64, al: u64) -> Option<u64>
    requires { 1 ≤ al }
    ensures { result ≡ front_below limit w al x }
{
    let gap = gap_to(x, al);
    let room = limit.saturating_sub(x);
    if x <= limit && w <= room && gap <= room - w {
        Some(x + gap)
    } else {
        None
    }
}

// How many pages lie between page `x` and the least multiple of `al` at or above it.
fn gap_to(x: u64, al: u64) -> u64
    requires { 1 ≤ al }
    ensures { x + result ≡ least_multiple al x }
{
    multiple_is_least();
    let over = x % al;
    if over == 0 { 0 } else { al - over }
}

// The sum of two counts; one that can't be held is a want of memory.
fn total(n: u64, more: u64) -> Result<u64, AllocError>
    ensures { IfOk result (λ m. m ≡ n + more) }
{
    match n.checked_add(more) {
        Some(m) => Ok(m),
        None => Err(AllocError),
    }
}

// The run stands among those that are taken.
fn insert_run(taken: &mut Vec<Taken>, first: u64, pages: u64) -> Result<(), AllocError>
    ensures ok { OnOk result (taken.new.items ≡ insert_taken (record { first = first; pages = pages }) taken.old.items) }
    ensures err { OnErr result (taken.new.items ≡ taken.old.items) }
{
    let i = place_for(taken, first);
    taken.insert(i, Taken { first, pages })?;
    Ok(())
}

// The run isn't among them any more.
fn drop_run(taken: &mut Vec<Taken>, first: u64, pages: u64)
    ensures { taken.new.items ≡ filter (is_other first pages) taken.old.items }
{
    taken.retain(|t| is_another(t, first, pages));
}

fn is_another(t: &Taken, first: u64, pages: u64) -> bool
    ensures { result ≡ is_other first pages t.now }
{
    !(first == t.first && pages == t.pages)
}

// Where a run that begins at `first` stands among those that are taken.
fn place_for(taken: &[Taken], first: u64) -> usize
    ensures within { result ≤ length taken.now }
    ensures is { (pages : ℕ) → insert taken.now result (record { first = first; pages = pages }) ≡ insert_taken (record { first = first; pages = pages }) taken.now }
{
    let mut i = 0;
    while i < taken.len() && taken[i].first <= first {
        i += 1;
    }
    i
}
