//! What a magazine, a depot or large keeps.
//!
//! - queries: what the rules ask of it.
//! - changes: what the events make of it.
ghost use Rattle.std.specs.Prelude.{◌≡◌, ℕ, ◌+◌, ◌-◌, ◌*◌, ◌/◌, ◌%◌, ◌^◌, ◌<◌, ◌≤◌, ◌&&◌, ◌||◌, ◌==◌, ◌++◌, length, map, take, drop, filter, not, find, sum_by, nat_lt, slice_get, Some, None, List, Option, [], ◌∷◌, IsTrue, OnOk, OnErr, IfOk, IfSome, IfNone, if◌then◌else◌};
ghost use Rattle.std.specs.List.{All, list_any, list_all};
ghost use Rattle.std.specs.Option.{option_map, option_to_list};
ghost use Rattle.mz_base.specs.declared.profile.Profile.{Profile as profile};
ghost use Rattle.mz_base.specs.Space.{block_at, run_at, blocks_apart, runs_apart, bytes_of, same_block};
ghost use Rattle.mz_base.specs.Lists.{has_run as some_run, has_block as some_block, blocks_in, size_sum, run_bytes, drop_run};
ghost use Rattle.mz_base.specs.Room.{lies_in, has_room, any_has_room, is_at_front as some_front};
ghost use Rattle.mz_events.specs.declared.place.Place.{Place as place};
ghost use Rattle.mz_events.specs.declared.event.Event.TheVariants as event;
ghost use Rattle.mz_events.specs.Places.{is_magazine, is_depot, is_large as is_large_place, depot_of as depot_at, spot_of};
ghost use Rattle.mz_events.specs.State.{State, kept_at, nothing_kept};
ghost use Rattle.mz_events.specs.Room.{wide, any_fits as some_fits};
ghost use Rattle.mz_events.specs.Placement.{fits_apart_there, is_placed as is_placed_by};
ghost use Rattle.mz_events.specs.Rules.{is_lowest_with_room as is_lowest_of, is_unused_back};
ghost use Rattle.mz_events.specs.Duties.{is_in_excess, duty_of_end as duty_left, recirculation as recirculation_of, empty_depot_region, back_of_oldest as oldest_back};
ghost use Rattle.mz_events.specs.Changes.{run_of, with_block, without_block, resized, with_run, without_run, region_at, still_freed as freed_still};
ghost use Rattle.mz_holding.specs.Gaps.{far};
ghost use Rattle.mz_holding.specs.LiveBlocks.{page_limit};
ghost use Rattle.mz_holding.specs.HeldRuns.{block_of, run_of_extent, run_of_held, live_of_held, live_in_runs, with_blocks, HasPage, AreRunsInOrder, IsRoomAt, IsRoomBut};

use crate::extent::Extent;
use crate::held::Held;
use crate::placing::{
    any_fits, is_large, is_new_extent, is_other_extent, is_placed_in_large, is_placed_in_magazine,
    is_run,
};
use crate::runs::{
    add_block, bytes_of_runs, copy_runs, count_to, fill_run, has_block, has_run, index_with,
    insert_run, is_clear, is_clear_but, is_some_exceeded, is_unused, learn, list_blocks, list_runs,
    lowest_sparse, lowest_unused, lowest_with_room, remove_block, resize_block, take_run,
};
use mz_base::PAGE;
use mz_events::{Event, Place};
use std::alloc::{AllocError, Global};
use std::marker::Model;

/// What a magazine, a depot or large keeps. Contracts see it as `Kept` of `specs/State.antt`, of which the last three fields
/// are for the free pages alone.
#[derive(Drop)]
pub struct Holding {
    runs: Vec<Held>,
    // The bytes of all live blocks.
    used: u64,
    freed: Option<Extent>,
    cached: Vec<Extent>,
}

impl Model for Holding {
    ghost use Rattle.mz_events.specs.State.{Kept};
    ghost use Rattle.mz_events.specs.Codes.{kept_code};

    ghost Value = { Kept };

    ghost coded = { kept_code };

    ghost use Rattle.mz_holding.specs.HeldRuns.{kept_in, IsHolding};

    ghost view = { λ h. kept_in h.runs.items h.freed h.cached.items };

    ghost invariant = { λ h. IsHolding h.runs.items h.used h.freed };
}

// The depot of a magazine.
fn depot_of(m: Place) -> Place
    ensures { result ≡ depot_at m }
{
    match m {
        Place::Tiny { zone, .. } => Place::TinyDepot { zone },
        Place::Small { zone, .. } => Place::SmallDepot { zone },
        _ => m,
    }
}

// Caches the run of a block that ends in large.
fn cache_run(k: Place, cached: &mut Vec<Extent>, a: u64, n: u64) -> Result<(), AllocError>
    ensures ok { OnOk result (map run_of_extent cached.new.items ≡ (if is_large_place k then map run_of_extent cached.old.items ++ run_of (block_at a n) ∷ [] else map run_of_extent cached.old.items)) }
    ensures err { OnErr result (cached.new.items ≡ cached.old.items) }
{
    if is_large(k) {
        cached.push(Extent {
            first: a / PAGE,
            len: n / PAGE,
        })?;
    }
    Ok(())
}

// Drops the cached run whose bytes these are, where there is one.
fn forget_bytes(cached: &mut Vec<Extent>, a: u64, n: u64)
    ensures { cached.new.items ≡ filter (λ e. not (same_block (block_at a n) (bytes_of (run_of_extent e)))) cached.old.items }
{
    cached.retain(|run| is_elsewhere(*run, a, n));
}

// Drops the cached run, where it is one.
fn forget_run(cached: &mut Vec<Extent>, first: u64, pages: u64)
    ensures { map run_of_extent cached.new.items ≡ drop_run (run_at first pages) (map run_of_extent cached.old.items) }
{
    cached.retain(|run| !is_run(*run, first, pages));
}

// Whether these aren't the bytes of the run.
fn is_elsewhere(run: Extent, a: u64, n: u64) -> bool
    ensures { result ≡ not (same_block (block_at a n) (bytes_of (run_of_extent run))) }
{
    a % PAGE != 0 || n % PAGE != 0 || a / PAGE != run.first || n / PAGE != run.len
}

// The last freed block, where it is apart from the `n` bytes from `a`.
fn still_freed(freed: Option<Extent>, a: u64, n: u64) -> Option<Extent>
    requires fits { IfSome freed (λ e. e.first + e.len ≤ far) }
    requires within { a + n ≤ far }
    ensures is { option_map block_of result ≡ freed_still (block_at a n) (option_map block_of freed) }
    ensures same { IfSome result (λ e. freed ≡ Some e) }
{
    match freed {
        Some(e) if e.first + e.len <= a || a + n <= e.first => Some(e),
        _ => None,
    }
}

impl Holding {
    /// Nothing.
    pub fn new(alloc: Global) -> Holding
        ensures { result ≡ nothing_kept }
    {
        Holding {
            runs: Vec::new(alloc),
            used: 0,
            freed: None,
            cached: Vec::new(alloc),
        }
    }

    /// The same again.
    pub fn copy(&self, alloc: Global) -> Result<Holding, AllocError>
        ensures { IfOk result (λ h. h ≡ self.now) }
    {
        Ok(Holding {
            runs: copy_runs(alloc, &self.runs)?,
            used: self.used,
            freed: self.freed,
            cached: Vec::from_slice(alloc, &self.cached)?,
        })
    }

    /// The bytes of its live blocks.
    pub fn used(&self) -> u64
        ensures { result ≡ size_sum self.now.live }
    {
        self.used
    }

    /// The last freed block.
    pub fn last_freed(&self) -> Option<Extent>
        ensures { option_map block_of result ≡ self.now.last_freed }
    {
        self.freed
    }

    /// Whether it has no run.
    pub fn has_no_runs(&self) -> bool
        ensures { result ≡ (length self.now.runs == 0) }
    {
        self.runs.is_empty()
    }

    /// Whether no block is live.
    pub fn has_no_blocks(&self) -> bool
        ensures { result ≡ (length self.now.live == 0) }
    {
        self.used == 0
    }

    /// Whether the run is one of its own.
    pub fn has_run(&self, first: u64, pages: u64) -> bool
        ensures { result ≡ some_run self.now.runs (run_at first pages) }
    {
        has_run(&self.runs, first, pages)
    }

    /// How many pages the run at page `first` has.
    pub fn pages_of_run(&self, first: u64) -> u64
        requires { IsTrue (list_any (λ r. r.first == first) self.now.runs) }
        ensures { run_at first result ≡ region_at self.now.runs first }
    {
        let i = index_with(&self.runs, first).unwrap();
        self.runs[i].pages()
    }

    /// Whether the block is live.
    pub fn has_block(&self, a: u64, n: u64) -> bool
        ensures { result ≡ some_block self.now.live (block_at a n) }
    {
        has_block(&self.runs, a, n)
    }

    /// Whether rule 10 is kept where a block of `n` bytes at `a` becomes live for a request at the alignment `al`.
    pub fn is_apart(&self, k: Place, a: u64, n: u64, al: u64) -> bool
        requires { IsTrue (is_magazine k || is_large_place k) }
        ensures rule { (p : profile) (s : State) → kept_at s (spot_of k) ≡ self.now → result ≡ fits_apart_there p s (event.New k a n al) }
        ensures aligned { IsTrue result → (1 ≤ al) × (a % al ≡ 0) }
        ensures room { IsTrue result → IsRoomAt self.now a n }
    {
        if !is_new_extent(k, a, n, al) {
            return false;
        }
        is_clear(&self.runs, a, n)
    }

    /// Whether rule 10 is kept where the block at `a` gets `m` bytes.
    pub fn is_resized_apart(&self, k: Place, a: u64, m: u64) -> bool
        requires { IsTrue (is_magazine k || is_depot k) }
        ensures rule { (p : profile) (s : State) (n : ℕ) → kept_at s (spot_of k) ≡ self.now → result ≡ fits_apart_there p s (event.Size k a n m) }
        ensures room { IsTrue result → IsRoomBut self.now a m }
    {
        if !is_other_extent(k, a, m) {
            return false;
        }
        is_clear_but(&self.runs, a, m)
    }

    /// Whether rule 11 is kept where a block of `n` bytes at `a`, a multiple of `al`, becomes live.
    pub fn is_placed(&self, k: Place, a: u64, n: u64, al: u64) -> bool
        requires kind { IsTrue (is_magazine k || is_large_place k) }
        requires some { 1 ≤ n }
        requires whole { 1 ≤ al }
        requires aligned { a % al ≡ 0 }
        ensures { (s : State) → kept_at s (spot_of k) ≡ self.now → result ≡ is_placed_by s (event.New k a n al) }
    {
        if is_large(k) {
            is_placed_in_large(&self.runs, &self.cached, a, n)
        } else {
            is_placed_in_magazine(&self.runs, self.freed, a, n, al)
        }
    }

    /// Whether some idle run, in the wide reading, has room for `n` bytes at `al`.
    pub fn has_any_room(&self, n: u64, al: u64) -> bool
        requires some { 1 ≤ n }
        requires whole { 1 ≤ al }
        ensures { result ≡ any_has_room self.now.runs (wide self.now) n al }
    {
        lowest_with_room(&self.runs, n, al).is_some()
    }

    /// Whether the region at page `first` is the lowest with room for `n` bytes at `al`.
    pub fn is_lowest_with_room(&self, first: u64, n: u64, al: u64) -> bool
        requires some { 1 ≤ n }
        requires whole { 1 ≤ al }
        ensures { result ≡ is_lowest_of self.now first (n, al) }
    {
        match lowest_with_room(&self.runs, n, al) {
            Some(lowest) => lowest == first,
            None => false,
        }
    }

    /// Whether some cached run fits `pages` pages.
    pub fn any_fits(&self, pages: u64) -> bool
        ensures { result ≡ some_fits self.now.cached pages }
    {
        any_fits(&self.cached, pages)
    }

    /// Whether rule 6 is kept where the run goes back: it is one of the place's own and has no live block.
    pub fn is_unused_run(&self, first: u64, pages: u64) -> bool
        ensures rule { (s : State) (k : place) → kept_at s (spot_of k) ≡ self.now → result ≡ is_unused_back s (event.Back k first pages) }
        ensures there { IsTrue result → IsTrue (some_run self.now.runs (run_at first pages)) }
    {
        is_unused(&self.runs, first, pages)
    }

    /// The duty that the end of a block leaves at the place `k`, which keeps this after it.
    pub fn duty_of_end(&self, k: Place) -> Option<Event>
        ensures { result ≡ duty_left k self.now }
    {
        match k {
            Place::Tiny { .. } | Place::Small { .. } => self.recirculation(k),
            Place::TinyDepot { .. } | Place::SmallDepot { .. } => self.empty_region(k),
            Place::Large { .. } => {
                if self.cached.len() > 16 {
                    self.back_of_oldest(k)
                } else {
                    None
                }
            }
            Place::Pages | Place::Nano => None,
        }
    }

    // The move of the lowest sparse region of a magazine in excess to its depot.
    fn recirculation(&self, m: Place) -> Option<Event>
        ensures { result ≡ recirculation_of m self.now }
    {
        if !self.is_in_excess() {
            return None;
        }
        let first = lowest_sparse(&self.runs)?;
        Some(Event::Move {
            first,
            from: m,
            to: depot_of(m),
        })
    }

    // Whether the regions have more idle bytes than a magazine keeps.
    fn is_in_excess(&self) -> bool
        ensures { result ≡ is_in_excess self.now }
    {
        let all = bytes_of_runs(&self.runs);
        is_some_exceeded(&self.runs, all - self.used) && self.used < all - all / 4
    }

    /// The way back to the free pages of a region without live blocks of the depot `d`.
    pub fn empty_region(&self, d: Place) -> Option<Event>
        ensures { result ≡ empty_depot_region d self.now }
    {
        let run = lowest_unused(&self.runs)?;
        Some(Event::Back {
            k: d,
            first: run.first,
            pages: run.len,
        })
    }

    /// The way back to the free pages of the oldest cached run of the large place `l`.
    pub fn back_of_oldest(&self, l: Place) -> Option<Event>
        ensures { result ≡ oldest_back l self.now.cached }
    {
        match self.cached.first() {
            Some(run) => Some(Event::Back {
                k: l,
                first: run.first,
                pages: run.len,
            }),
            None => None,
        }
    }

    /// Its runs, ascending.
    pub fn list_runs(&self, alloc: Global) -> Result<Vec<Extent>, AllocError>
        ensures { IfOk result (λ v. map run_of_extent v.items ≡ self.now.runs) }
    {
        list_runs(alloc, &self.runs)
    }

    /// Its live blocks, ascending.
    pub fn list_blocks(&self, alloc: Global) -> Result<Vec<Extent>, AllocError>
        ensures { IfOk result (λ v. map block_of v.items ≡ self.now.live) }
    {
        list_blocks(alloc, &self.runs)
    }

    /// Its cached runs, in order of freeing.
    pub fn list_cached(&self) -> Result<Vec<Extent>, AllocError>
        ensures { IfOk result (λ v. map run_of_extent v.items ≡ self.now.cached) }
    {
        self.cached.clone()
    }

    /// A block becomes live, in one of the runs and apart from the other live blocks.
    pub fn add_block(&mut self, a: u64, n: u64) -> Result<(), AllocError>
        requires { IsRoomAt self.old a n }
        ensures ok { OnOk result (self.new ≡ with_block (block_at a n) self.old) }
        ensures err { OnErr result (self.new ≡ self.old) }
    {
        add_block(&mut self.runs, a, n)?;
        self.used += n;
        self.freed = still_freed(self.freed, a, n);
        forget_bytes(&mut self.cached, a, n);
        Ok(())
    }

    /// A live block of the place `k` ends.
    pub fn end_block(&mut self, k: Place, a: u64, n: u64) -> Result<(), AllocError>
        requires { IsTrue (some_block self.old.live (block_at a n)) }
        ensures ok { OnOk result (self.new ≡ without_block k (block_at a n) self.old) }
        ensures err { OnErr result (self.new ≡ self.old) }
    {
        cache_run(k, &mut self.cached, a, n)?;
        remove_block(&mut self.runs, a, n);
        self.used -= n;
        self.freed = freed_by(k, a, n);
        Ok(())
    }

    /// The live block of `n` bytes at `a` has `m` bytes from now on.
    pub fn resize_block(&mut self, a: u64, n: u64, m: u64) -> Result<(), AllocError>
        requires there { IsTrue (some_block self.old.live (block_at a n)) }
        requires room { IsRoomBut self.old a m }
        ensures ok { OnOk result (self.new ≡ resized (block_at a n) (block_at a m) self.old) }
        ensures err { OnErr result (self.new ≡ self.old) }
    {
        resize_block(&mut self.runs, a, n, m)?;
        self.used = self.used - n + m;
        self.freed = still_freed(self.freed, a, m);
        Ok(())
    }

    /// A run comes to the place, apart from its others. No live block lies in it.
    pub fn add_run(&mut self, alloc: Global, first: u64, pages: u64) -> Result<(), AllocError>
        requires some { 1 ≤ pages }
        requires fits { first + pages ≤ page_limit }
        requires apart { IsTrue (list_all (λ r. runs_apart r (run_at first pages)) self.old.runs) }
        ensures ok { OnOk result (self.new ≡ with_run (run_at first pages) self.old) }
        ensures unused { OnOk result (IsTrue (list_all (λ b. blocks_apart b (bytes_of (run_at first pages))) self.new.live)) }
        ensures err { OnErr result (self.new ≡ self.old) }
    {
        insert_run(&mut self.runs, alloc, first, pages)?;
        Ok(())
    }

    /// The run at page `first` leaves the place, with its live blocks.
    pub fn take_run(&mut self, first: u64) -> Held
        requires { IsTrue (list_any (λ r. r.first == first) self.old.runs) }
        ensures run { run_of_held result ≡ region_at self.old.runs first }
        ensures blocks { live_of_held result ≡ blocks_in self.old.live (region_at self.old.runs first) }
        ensures left { self.new ≡ without_run (region_at self.old.runs first) self.old }
        ensures named { (w : ℕ) → IsTrue (some_run self.old.runs (run_at first w)) → region_at self.old.runs first ≡ run_at first w }
    {
        let held = take_run(&mut self.runs, first);
        self.used -= held.used();
        self.freed = still_freed(self.freed, held.first() * PAGE, held.pages() * PAGE);
        forget_run(&mut self.cached, held.first(), held.pages());
        held
    }

    /// The live blocks of a run come to the place, which has this run without any.
    pub fn fill_run(&mut self, held: Held)
        requires there { IsTrue (some_run self.old.runs (run_of_held held)) }
        requires unused { IsTrue (list_all (λ b. blocks_apart b (bytes_of (run_of_held held))) self.old.live) }
        ensures { self.new ≡ with_blocks (live_of_held held) self.old }
    {
        self.used += held.used();
        fill_run(&mut self.runs, held);
    }

    /// A request for `n` bytes found the place full. It keeps what it did; later requests for as many bytes are answered without
    /// a search, until a block ends or shrinks that leaves room for them.
    pub fn learn_full(&mut self, n: u64)
        requires { 1 ≤ n }
        ensures { self.new ≡ self.old }
    {
        learn(&mut self.runs, n);
    }
}

// The last freed block after the end of one in the place `k`.
fn freed_by(k: Place, a: u64, n: u64) -> Option<Extent>
    ensures is { option_map block_of result ≡ (if is_magazine k then Some (block_at a n) else None) }
    ensures same { IfSome result (λ e. (e.first ≡ a) × (e.len ≡ n)) }
{
    match k {
        Place::Tiny { .. } | Place::Small { .. } => Some(Extent { first: a, len: n }),
        _ => None,
    }
}
