//! What stands for a place.
ghost use Rattle.std.specs.Prelude.{◌≡◌, ◌*◌, ◌||◌, ℕ, [], length, map, find, IfOk, IsTrue};
ghost use Rattle.std.specs.Option.{option_map};
ghost use Rattle.mz_base.specs.declared.profile.Profile.{Profile as profile};
ghost use Rattle.mz_base.specs.declared.range.TheConstants.{PAGE};
ghost use Rattle.mz_base.specs.Limits.{IsWithinLimits};
ghost use Rattle.mz_base.specs.Site.{Site};
ghost use Rattle.mz_base.specs.Space.{block_at, run_end};
ghost use Rattle.mz_base.specs.Lists.{size_at};
ghost use Rattle.mz_events.specs.declared.place.Place.{Place as place};
ghost use Rattle.mz_events.specs.declared.place.Place.TheVariants as place_is;
ghost use Rattle.mz_events.specs.declared.event.Event.TheVariants as event;
ghost use Rattle.mz_events.specs.Places.{is_magazine, is_depot, is_size_of, is_length_of, quantum_of, depot_of, nano_start};
ghost use Rattle.mz_events.specs.State.{Kept, nothing_kept};
ghost use Rattle.mz_events.specs.Changes.{with_block, with_run, with_region, without_block, pages_with};
ghost use Rattle.mz_events.specs.Duties.{recirculation, empty_depot_region};
ghost use Rattle.mz_events.specs.Separation.{has_page, InOrder};
ghost use Rattle.mz_events.specs.Standing.{Keeping, Stands};
ghost use Rattle.mz_book.specs.Keepers.{keeper_count, place_in_zone};
ghost use Rattle.mz_book.specs.Plain.{last_site, StandAtFirst};
ghost use Rattle.mz_rack.specs.Keepings.{lists_of};
ghost use Rattle.mz_rack.specs.Regions.{quantum_in, run_in, view_in};
ghost use Rattle.mz_rack.specs.Asking.{IsTidy, MayAsk, MayYield, MayAdopt};
ghost use Rattle.mz_rack.specs.Answering.{Placed, FoundRoom, Yielded};
ghost use Rattle.mz_rack.specs.Flushing.{Flushed, PushedOut, IsLackedRun, MayPutRunBack};
ghost use Rattle.mz_rack.specs.Runs.{MaySeekRun, FoundRun, MayFit, IsFitted, with_region_for, Reused, MayEnter};
ghost use Rattle.mz_large.specs.Large.{block_of, run_of_span};
ghost use Rattle.mz_rack.specs.Ending.{has_blocks, MayFree, IsLacked, MayPutBack};
ghost use Rattle.mz_rack.specs.ResizeStages.{MayResize, Refits};

use crate::region::AnyRegion;
use crate::shelf::Shelf;
use crate::stock::Stock;
use mz_base::{PAGE, Profile};
use mz_bits::laws::a_run_is_read;
use mz_events::Keep;
use mz_ground::Span;
use mz_large::Large;
use std::alloc::{AllocError, Global};
use std::marker::Model;

/// What stands for a place: the free pages with blank regions, a magazine or a depot, or large of a zone. Contracts see
/// what it keeps. `all` alone makes keepers.
#[derive(Drop)]
pub struct Keeper {
    kind: Kind,
}

/// The kinds of keepers. A depot is a shelf that says so.
#[derive(Drop)]
enum Kind {
    Pages(Stock),
    Tiny(Shelf<16, 65_536>),
    Small(Shelf<512, 16_384>),
    Large(Large),
}

impl Model for Keeper {
    ghost use Rattle.mz_events.specs.Standing.{Keeping};
    ghost use Rattle.mz_rack.specs.Keepings.{kept_code_of};

    ghost Value = { Keeping };

    ghost coded = { kept_code_of };

    ghost use Rattle.mz_rack.specs.Kinds.{keeping_of};

    ghost view = { λ k. keeping_of k.kind };

    ghost invariant = { λ k. Unit {0} };
}

impl Keep for Keeper {
    ghost keeping = { λ k. k };
}

impl Keeper {
    /// The keepers of all numbers, in order. The span is all bytes below nano's pages. They stand for the places of
    /// the opening state in its space. All memory is taken here, for each region that fits.
    pub fn all(alloc: Global, p: &Profile, space: Span) -> Result<Vec<Keeper>, AllocError>
        requires limits { IsWithinLimits p.now }
        requires first { space.first ≡ 0 }
        requires len { length space.bytes ≡ nano_start p.now * PAGE }
        ensures stand { IfOk result (λ ks. StandAtFirst p.now ks.items) }
        ensures space { IfOk result (λ ks. last_site ks.items ≡ space.space) }
    {
        let pages = p.pages - p.nano;
        let of_zone = 2 * p.magazines as usize + 3;
        let below = of_zone * p.zones as usize;
        let mut keepers = Vec::with_capacity(alloc, below + 1)?;
        for k in 0..below {
            keepers.push(Keeper::of_zone(alloc, p, k % of_zone, pages)?)?;
        }
        keepers.push(Keeper {
            kind: Kind::Pages(Stock::make(alloc, space)?),
        })?;
        Ok(keepers)
    }

    // The i-th keeper of a zone, with room for each region, or large run, that fits in so many pages.
    fn of_zone(alloc: Global, p: &Profile, i: usize, pages: u64) -> Result<Keeper, AllocError>
        requires limits { IsWithinLimits p.now }
        requires pages { pages ≡ nano_start p.now }
        ensures { IfOk result (λ k. (x : Site) (z : ℕ) → Stands k x p.now (place_in_zone p.now z i) nothing_kept) }
    {
        let m = p.magazines as usize;
        let kind = if i <= m {
            Kind::Tiny(Shelf::make(alloc, pages / 64, i == m)?)
        } else if i <= 2 * m + 1 {
            Kind::Small(Shelf::make(alloc, pages / 512, i == 2 * m + 1)?)
        } else {
            Kind::Large(Large::make(alloc, pages / 3)?)
        };
        Ok(Keeper { kind })
    }

    /// The first page and the number of pages of the run that has the page, or None where no run has it. The keeper of
    /// the free pages has no runs.
    pub fn run_of(&self, page: u64) -> Option<(u64, u64)>
        ensures { result ≡ option_map (λ r. (r.first, r.pages)) (find (λ r. has_page r page) (lists_of self.now).runs) }
    {
        match &self.kind {
            Kind::Tiny(shelf) => shelf.run_of(page),
            Kind::Small(shelf) => shelf.run_of(page),
            Kind::Large(large) => large.run_of(page),
            Kind::Pages(_) => None,
        }
    }

    /// The bytes of the live block that begins at the address `a`, and 0 where none does.
    pub fn size_at(&self, a: u64) -> u64
        ensures { result ≡ size_at (lists_of self.now).live a }
    {
        match &self.kind {
            Kind::Tiny(shelf) => shelf.magazine.size_at(a),
            Kind::Small(shelf) => shelf.magazine.size_at(a),
            Kind::Large(large) => large.size_at(a),
            Kind::Pages(_) => 0,
        }
    }

    /// How many blocks are live.
    pub fn count(&self) -> u64
        ensures { result ≡ length (lists_of self.now).live }
    {
        match &self.kind {
            Kind::Tiny(shelf) => shelf.magazine.count(),
            Kind::Small(shelf) => shelf.magazine.count(),
            Kind::Large(large) => large.count(),
            Kind::Pages(_) => 0,
        }
    }

    // A magazine's new block of `n` bytes at the alignment `al`, or None where it has no room.
    pub(crate) fn alloc(&mut self, n: u64, al: u64) -> Option<Span>
        requires { MayAsk self.old n al }
        ensures { (x : Site) (p : profile) (q : place) (k : Kept) → Stands self.old x p q k → IsTrue (is_magazine q) → IsTrue (is_size_of q n) → Placed x q k n al (Stands self.new x p q) result }
    {
        match &mut self.kind {
            Kind::Tiny(shelf) => shelf.magazine.alloc(n / 16, al),
            Kind::Small(shelf) => shelf.magazine.alloc(n / 512, al),
            Kind::Pages(_) | Kind::Large(_) => None,
        }
    }

    // The first page of a depot's lowest region with room for `n` bytes at the alignment `al`.
    pub(crate) fn fits(&self, n: u64, al: u64) -> Option<u64>
        requires { MayAsk self.now n al }
        ensures { (x : Site) (p : profile) (q : place) (k : Kept) → Stands self.now x p q k → IsTrue (is_depot q) → IsTrue (is_size_of q n) → IsTidy p q k → FoundRoom k n al result }
    {
        let first = match &self.kind {
            Kind::Tiny(shelf) => shelf.magazine.fits(n / 16, al),
            Kind::Small(shelf) => shelf.magazine.fits(n / 512, al),
            Kind::Pages(_) | Kind::Large(_) => None,
        };
        match first {
            Some(a) => Some(a / PAGE),
            None => None,
        }
    }

    // Hands out the region that begins at page `first`.
    pub(crate) fn yield_region(&mut self, first: u64) -> AnyRegion
        requires { MayYield self.old first }
        ensures { (x : Site) (p : profile) (q : place) (k : Kept) → Stands self.old x p q k → IsTrue (is_magazine q || is_depot q) → IsTidy p q k → Yielded x q k first (Stands self.new x p q) result }
    {
        match &mut self.kind {
            Kind::Tiny(shelf) => match shelf.magazine.yield_region(first * PAGE) {
                Some(region) => AnyRegion::Tiny(region),
                None => unreachable!(),
            },
            Kind::Small(shelf) => match shelf.magazine.yield_region(first * PAGE) {
                Some(region) => AnyRegion::Small(region),
                None => unreachable!(),
            },
            Kind::Pages(_) | Kind::Large(_) => unreachable!(),
        }
    }

    // Takes a region in, with its live blocks.
    pub(crate) fn adopt(&mut self, region: AnyRegion)
        requires { MayAdopt self.old region }
        ensures { (x : Site) (p : profile) (q : place) (k : Kept) → Stands self.old x p q k → IsTrue (is_magazine q || is_depot q) → (view_in region).space ≡ x → Stands self.new x p q (with_region (run_in region) (view_in region).live k) }
    {
        match &mut self.kind {
            Kind::Tiny(shelf) => {
                let _magazine = &shelf.magazine;
                let AnyRegion::Tiny(region) = region else {
                    unreachable!()
                };
                let _first = region.first();
                shelf.magazine.adopt(region);
            }
            Kind::Small(shelf) => {
                let _magazine = &shelf.magazine;
                let AnyRegion::Small(region) = region else {
                    unreachable!()
                };
                let _first = region.first();
                shelf.magazine.adopt(region);
            }
            Kind::Pages(_) | Kind::Large(_) => unreachable!(),
        }
    }

    // Hands out the lowest free run of `w` pages at a multiple of `al`, or None where none is free.
    pub(crate) fn take_run(&mut self, w: u64, al: u64) -> Option<Span>
        requires { MaySeekRun self.old w al }
        ensures { (x : Site) (p : profile) (k : Kept) → Stands self.old x p place_is.Pages k → InOrder (λ r. r.first) run_end k.taken → FoundRun x p k w al (Stands self.new x p place_is.Pages) result }
    {
        a_run_is_read();
        let Kind::Pages(stock) = &mut self.kind else {
            unreachable!()
        };
        stock.pages.take(w, al)
    }

    // Makes a region of a run that is out of the free pages.
    pub(crate) fn fit(&mut self, run: Span) -> AnyRegion
        requires { MayFit self.old run }
        ensures { (x : Site) (p : profile) (q : place) (k : Kept) → Stands self.old x p place_is.Pages k → IsTrue (is_magazine q) → IsTrue (is_length_of q (run_of_span run).pages) → IsFitted q run result × Stands self.new x p place_is.Pages (with_region_for q k) }
    {
        let Kind::Pages(stock) = &mut self.kind else {
            unreachable!()
        };
        if run.len() / PAGE == 64 {
            match stock.tiny.pop() {
                Some(blank) => AnyRegion::Tiny(blank.fit(run)),
                None => unreachable!(),
            }
        } else {
            match stock.small.pop() {
                Some(blank) => AnyRegion::Small(blank.fit(run)),
                None => unreachable!(),
            }
        }
    }

    // Makes the cached run that fits `w` pages best a block of large, or answers None where none fits.
    pub(crate) fn reuse(&mut self, w: u64) -> Option<Span>
        ensures { (x : Site) (p : profile) (z : ℕ) (k : Kept) → Stands self.old x p (place_is.Large z) k → Reused x k w (Stands self.new x p (place_is.Large z)) result }
    {
        match &mut self.kind {
            Kind::Large(large) => large.reuse(w),
            Kind::Pages(_) | Kind::Tiny(_) | Kind::Small(_) => None,
        }
    }

    // Makes a run that comes from the free pages a block of large.
    pub(crate) fn enter(&mut self, run: &Span)
        requires { MayEnter self.old run.now }
        ensures { (x : Site) (p : profile) (z : ℕ) (k : Kept) → Stands self.old x p (place_is.Large z) k → Stands self.new x p (place_is.Large z) (with_block (block_of run.now) (with_run (run_of_span run.now) k)) }
    {
        match &mut self.kind {
            Kind::Large(large) => large.enter(run),
            Kind::Pages(_) | Kind::Tiny(_) | Kind::Small(_) => unreachable!(),
        }
    }

    // Hands out the run that large of a zone cached first, or answers None where it caches none.
    pub(crate) fn flush_one(&mut self) -> Option<Span>
        ensures { (x : Site) (p : profile) (z : ℕ) (k : Kept) → Stands self.old x p (place_is.Large z) k → Flushed x k (Stands self.new x p (place_is.Large z)) result }
    {
        match &mut self.kind {
            Kind::Large(large) => large.flush_one(),
            Kind::Pages(_) | Kind::Tiny(_) | Kind::Small(_) => None,
        }
    }

    // Takes a run of large back to the free pages.
    pub(crate) fn put_run_back(&mut self, run: Span)
        requires { MayPutRunBack self.old run }
        ensures { (x : Site) (p : profile) (z : ℕ) (k : Kept) → Stands self.old x p place_is.Pages k → IsLackedRun p k run → Stands self.new x p place_is.Pages (pages_with (place_is.Large z) (run_of_span run) k) }
    {
        a_run_is_read();
        let Kind::Pages(stock) = &mut self.kind else {
            unreachable!()
        };
        stock.pages.back(run);
    }

    // Takes a live block back. Where large caches 17 runs then, the one that was cached first comes out.
    pub(crate) fn free(&mut self, span: Span) -> Option<Span>
        requires { MayFree self.old span }
        ensures { (x : Site) (p : profile) (q : place) (k : Kept) → Stands self.old x p q k → IsTrue (has_blocks q) → span.space ≡ x → PushedOut x q (without_block q (block_at span.first (length span.bytes)) k) (Stands self.new x p q) result }
    {
        match &mut self.kind {
            Kind::Tiny(shelf) => match shelf.magazine.free(span) {
                Ok(()) => None,
                Err(_) => unreachable!(),
            },
            Kind::Small(shelf) => match shelf.magazine.free(span) {
                Ok(()) => None,
                Err(_) => unreachable!(),
            },
            Kind::Large(large) => match large.free(span) {
                Ok(pushed) => pushed,
                Err(_) => unreachable!(),
            },
            Kind::Pages(_) => unreachable!(),
        }
    }

    // The first page of the lowest sparse region of a magazine in excess, which it owes to its depot.
    pub(crate) fn surplus(&self) -> Option<u64>
        ensures { (x : Site) (p : profile) (q : place) (k : Kept) → Stands self.now x p q k → IsTrue (is_magazine q) → recirculation q k ≡ option_map (λ f. event.Move f q (depot_of q)) result }
    {
        let sparse = match &self.kind {
            Kind::Tiny(shelf) if shelf.magazine.excess() => shelf.magazine.sparse(),
            Kind::Small(shelf) if shelf.magazine.excess() => shelf.magazine.sparse(),
            _ => None,
        };
        match sparse {
            Some(a) => Some(a / PAGE),
            None => None,
        }
    }

    // The first page of a depot's lowest region without live blocks, which it owes to the pages.
    pub(crate) fn unused(&self) -> Option<u64>
        ensures { (x : Site) (p : profile) (q : place) (k : Kept) (w : ℕ) → Stands self.now x p q k → IsTrue (is_depot q) → IsTrue (is_length_of q w) → empty_depot_region q k ≡ option_map (λ f. event.Back q f w) result }
    {
        let empty = match &self.kind {
            Kind::Tiny(shelf) => shelf.magazine.empty(),
            Kind::Small(shelf) => shelf.magazine.empty(),
            Kind::Pages(_) | Kind::Large(_) => None,
        };
        match empty {
            Some(a) => Some(a / PAGE),
            None => None,
        }
    }

    // Takes the pages of a region without live blocks back, and keeps its metadata for another one.
    pub(crate) fn put_back(&mut self, region: AnyRegion)
        requires { MayPutBack self.old region }
        ensures { (x : Site) (p : profile) (d : place) (k : Kept) → Stands self.old x p place_is.Pages k → quantum_in region ≡ quantum_of d → IsLacked p d k (run_in region) → Stands self.new x p place_is.Pages (pages_with d (run_in region) k) }
    {
        a_run_is_read();
        let Kind::Pages(stock) = &mut self.kind else {
            unreachable!()
        };
        match region {
            AnyRegion::Tiny(region) => match region.strip() {
                Ok((span, blank)) => {
                    stock.pages.back(span);
                    stock.tiny.push_reserved(blank);
                }
                Err(_) => unreachable!(),
            },
            AnyRegion::Small(region) => match region.strip() {
                Ok((span, blank)) => {
                    stock.pages.back(span);
                    stock.small.push_reserved(blank);
                }
                Err(_) => unreachable!(),
            },
        }
    }

    // Gives a live block of a magazine or a depot `n` bytes where it is. It answers false, and nothing changes, where the
    // block would grow and the place has no room for that.
    pub(crate) fn resize(&mut self, span: &mut Span, n: u64) -> bool
        requires { MayResize self.old span.old n }
        ensures { (x : Site) (p : profile) (q : place) (k : Kept) → Stands self.old x p q k → IsTrue (is_magazine q || is_depot q) → IsTrue (is_size_of q n) → Refits k span.old n (Stands self.new x p q) result span.new }
    {
        match &mut self.kind {
            Kind::Tiny(shelf) => shelf.magazine.resize(span, n / 16),
            Kind::Small(shelf) => shelf.magazine.resize(span, n / 512),
            Kind::Pages(_) | Kind::Large(_) => false,
        }
    }
}
