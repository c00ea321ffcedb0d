//! Magazines and depots.
ghost use Rattle.std.specs.Prelude.{◌≡◌, ℕ, ◌+◌, ◌-◌, ◌*◌, ◌/◌, ◌%◌, ◌^◌, ◌<◌, ◌≤◌, ◌==◌, ◌&&◌, ◌||◌, length, take, min, find, not, true, false, Some, None, IsTrue, IfOk, IfSome, IfNone, MatchOption, MatchResult, if◌then◌else◌};
ghost use Rattle.std.specs.Bool.{MatchBool};
ghost use Rattle.std.specs.Int.{IsPowerOfTwo};
ghost use Rattle.std.specs.List.{list_any, list_all};
ghost use Rattle.std.specs.Option.{option_map};
ghost use Rattle.mz_base.specs.Limits.{IsFrom};
ghost use Rattle.mz_base.specs.Space.{block_at, block_end, blocks_apart, runs_apart};
ghost use Rattle.mz_base.specs.Room.{lies_in, has_room, any_has_room};
ghost use Rattle.mz_base.specs.Lists.{has_run, has_block, size_at, blocks_in};
ghost use Rattle.mz_base.specs.declared.range.TheConstants.{PAGE};
ghost use Rattle.mz_events.specs.declared.place.Place.{Place as place};
ghost use Rattle.mz_events.specs.Places.{is_magazine, is_depot};
ghost use Rattle.mz_events.specs.State.{nothing_kept};
ghost use Rattle.mz_events.specs.Room.{wide};
ghost use Rattle.mz_events.specs.Changes.{still_freed, with_block, without_block, resized, with_region, without_run};
ghost use Rattle.mz_events.specs.Duties.{is_in_excess, is_sparse, is_unused};
ghost use Rattle.mz_events.specs.Placement.{is_placed_in_magazine};
ghost use Rattle.mz_events.specs.Standing.{IsOf};
ghost use Rattle.mz_magazine.specs.Keeping.{IsWholePages, run_from, freed_at};

use crate::row::Row;
use mz_events::Keep;
use mz_ground::Span;
use mz_region::Region;
use std::alloc::{AllocError, Global};
use std::marker::Model;

/// Regions of `N` quanta of `Q` bytes, from which blocks are served. A magazine keeps the block that was
/// freed last in mind, which serves the next request for its size; a depot doesn't.
///
/// Contracts see what it keeps: for how many regions it has room, their space, their runs of
/// pages, the live blocks, and the last freed block, which isn't live.
#[derive(Drop)]
pub struct Magazine<const Q: usize, const N: usize> {
    row: Row<Q, N>,
    // The address and the size of the last freed block, whose bytes are idle in their region.
    last_freed: Option<(u64, u64)>,
    depot: bool,
}

impl<const Q: usize, const N: usize> Model for Magazine<Q, N> {
    ghost use Rattle.mz_events.specs.Standing.{RegionsKept};
    ghost use Rattle.mz_magazine.specs.Keeping.{keeping_code};

    ghost Value = { RegionsKept };

    ghost coded = { keeping_code };

    ghost use Rattle.mz_magazine.specs.Keeping.{keeping_of, IsIdleFreed};

    ghost view = { λ m. keeping_of Q N m.depot m.row m.last_freed };

    ghost invariant = { λ m. IsIdleFreed Q N m.row m.last_freed };
}

impl<const Q: usize, const N: usize> Keep for Magazine<Q, N> {
    ghost use Rattle.mz_events.specs.Standing.{Keeping};
    ghost use Rattle.mz_events.specs.Standing.Keeping.{of_regions};

    ghost keeping = { λ m. of_regions m };
}

impl<const Q: usize, const N: usize> Magazine<Q, N> {
    /// A magazine, or a depot, without regions. All memory is taken here, for `most` regions.
    pub fn make(alloc: Global, most: u64, depot: bool) -> Result<Magazine<Q, N>, AllocError>
        ensures { IfOk result (λ m. m ≡ record { depot = depot; quantum = Q; pages = Q * N / PAGE; room = most; space = None; kept = nothing_kept }) }
    {
        Ok(Magazine {
            row: Row::make(alloc, most)?,
            last_freed: None,
            depot,
        })
    }

    /// How many regions it has.
    pub fn regions(&self) -> u64
        ensures { result ≡ length self.now.kept.runs }
    {
        self.row.len()
    }

    /// How many blocks are live.
    pub fn count(&self) -> u64
        ensures { result ≡ length self.now.kept.live }
    {
        self.row.count()
    }

    /// The bytes of the live block that begins at the address `a`, and 0 where none does.
    pub fn size_at(&self, a: u64) -> u64
        ensures { result ≡ size_at self.now.kept.live a }
    {
        self.row.size_at(a)
    }

    /// Whether the address `a` lies in a region.
    pub fn has(&self, a: u64) -> bool
        ensures { IsWholePages Q N → result ≡ list_any (λ r. lies_in r a (a + 1)) self.now.kept.runs }
    {
        let _regions = self.row.len();
        self.row.has(a)
    }

    /// The first address of the lowest region with room for `n` quanta at multiples of `al` bytes, or None
    /// where no region has room.
    pub fn fits(&self, n: u64, al: u64) -> Option<u64>
        requires quanta { IsFrom 1 64 n }
        requires power { IsPowerOfTwo al }
        requires range { al ≤ 16384 }
        ensures { IsWholePages Q N →
            result ≡ option_map (λ r. r.first * PAGE) (find (λ r. has_room r (wide self.now.kept) (Q * n) al) self.now.kept.runs) }
    {
        let _regions = self.row.len();
        self.row.fits(n, al)
    }

    /// The first address of the lowest region without live blocks, or None where each has one.
    pub fn empty(&self) -> Option<u64>
        ensures { IsWholePages Q N →
            result ≡ option_map (λ r. r.first * PAGE) (find (is_unused self.now.kept.live) self.now.kept.runs) }
    {
        let _regions = self.row.len();
        self.row.empty()
    }

    /// Whether it has more idle bytes than one and a half regions, and than a quarter of its bytes. It reads kept
    /// sums.
    pub fn excess(&self) -> bool
        ensures { IsWholePages Q N → result ≡ is_in_excess self.now.kept }
    {
        if self.row.len() == 0 {
            return false;
        }
        let region = (Q * N) as u64;
        let all = self.row.bytes();
        let live = self.row.live_bytes();
        all - live > region + region / 2 && live < all - all / 4
    }

    /// The first address of the lowest region of which less than three quarters are live, or None where there
    /// is none.
    pub fn sparse(&self) -> Option<u64>
        ensures { IsWholePages Q N →
            result ≡ option_map (λ r. r.first * PAGE) (find (is_sparse self.now.kept.live) self.now.kept.runs) }
    {
        let _regions = self.row.len();
        self.row.sparse()
    }

    /// A new block of `n` quanta at a multiple of `al` bytes: the last freed block where it has just that size
    /// and is aligned, and else one at the front of an idle run, where the last freed block counts as
    /// idle. None where no idle run has room.
    pub fn alloc(&mut self, n: u64, al: u64) -> Option<Span>
        requires quanta { IsFrom 1 64 n }
        requires power { IsPowerOfTwo al }
        requires range { al ≤ 16384 }
        ensures served { MatchOption result (self.new ≡ self.old)
            (λ s. let b = block_at s.first (Q * n) in
            (length s.bytes ≡ Q * n) × (self.old.space ≡ Some s.space) × (b.first % Q ≡ 0) × (b.first % al ≡ 0)
            × IsTrue (list_all (λ c. blocks_apart c b) self.old.kept.live)
            × (self.new ≡ record self.old { kept = with_block b self.old.kept })) }
        ensures placed { IsWholePages Q N → let room = any_has_room self.old.kept.runs (wide self.old.kept) (Q * n) al in MatchOption result (¬ IsTrue room)
            (λ s. let b = block_at s.first (Q * n) in
            IsTrue room × IsTrue (is_placed_in_magazine self.old.kept b al)
            × IsTrue (list_any (λ r. lies_in r b.first (block_end b)) self.old.kept.runs)) }
    {
        let _regions = self.row.len();
        if let Some((a, size)) = self.last_freed {
            if size / Q as u64 == n && a % al == 0 {
                self.last_freed = None;
                return self.row.alloc_at(a, n);
            }
        }
        let Some(span) = self.row.alloc(n, al) else {
            return None;
        };
        self.last_freed = apart_from(self.last_freed, span.first(), span.len());
        Some(span)
    }

    /// Takes a block back, which a magazine keeps as its last freed block. A span that isn't a live block comes
    /// back itself, and nothing changes.
    pub fn free(&mut self, s: Span) -> Result<(), Span>
        requires { IsOf self.old.space s.space }
        ensures { let b = block_at s.first (length s.bytes) in MatchResult result
            (λ _. IsTrue (has_block self.old.kept.live b) × ((q : place) → IsTrue (if self.old.depot then is_depot q else is_magazine q) →
            self.new ≡ record self.old { kept = without_block q b self.old.kept }))
            (λ t. ¬ IsTrue (has_block self.old.kept.live b) × (self.new ≡ self.old) × (t ≡ s)) }
    {
        let freed = (s.first(), s.len());
        if let Err(span) = self.row.free(s) {
            return Err(span);
        }
        self.last_freed = kept_aside(self.depot, freed);
        Ok(())
    }

    /// Makes a live block one of `n` quanta, in place. A growth over the last freed block leaves none. It
    /// answers false, and changes nothing, where one of the quanta that it would take is outside the
    /// region or in another live block; a shrink is always done. The bytes that stay are kept.
    pub fn resize(&mut self, s: &mut Span, n: u64) -> bool
        requires live { IsTrue (has_block self.old.kept.live (block_at s.old.first (length s.old.bytes))) }
        requires space { IsOf self.old.space s.old.space }
        requires quanta { IsFrom 1 64 n }
        ensures resized { let b = block_at s.old.first (length s.old.bytes) in let c = block_at b.first (Q * n) in MatchBool result
            ((s.new.space ≡ s.old.space) × (s.new.first ≡ s.old.first) × (length s.new.bytes ≡ Q * n)
            × (take (min b.size (Q * n)) s.new.bytes ≡ take (min b.size (Q * n)) s.old.bytes)
            × (self.new ≡ record self.old { kept = resized b c self.old.kept }))
            ((s.new ≡ s.old) × (self.new ≡ self.old)) }
        ensures fits { IsWholePages Q N → let c = block_at s.old.first (Q * n) in
            result ≡ (list_any (λ r. lies_in r c.first (block_end c)) self.old.kept.runs
            && list_all (λ d. (d.first == c.first) || blocks_apart d c) self.old.kept.live) }
        ensures shrinks { Q * n ≤ length s.old.bytes → IsTrue result }
    {
        let _regions = self.row.len();
        let resized = self.row.resize(s, n);
        if resized {
            self.last_freed = apart_from(self.last_freed, s.first(), s.len());
        }
        resized
    }

    /// Adds a region with its live blocks.
    pub fn adopt(&mut self, r: Region<Q, N>)
        requires room { length self.old.kept.runs < self.old.room }
        requires space { IsOf self.old.space r.space }
        requires apart { IsWholePages Q N → IsTrue (list_all (λ t. runs_apart t (run_from Q N r.first)) self.old.kept.runs) }
        ensures adopted { IsWholePages Q N → self.new ≡ record self.old { space = Some r.entry.space; kept = with_region (run_from Q N r.entry.first) r.entry.live self.old.kept } }
        ensures rest { self.new ≡ record self.old { space = Some r.entry.space; kept = self.new.kept } }
    {
        let _regions = self.row.len();
        self.row.insert(r);
    }

    /// Hands out the region that begins at the address `first`, with its live blocks, or None where none begins
    /// there. A last freed block in it is forgotten.
    pub fn yield_region(&mut self, first: u64) -> Option<Region<Q, N>>
        ensures yielded { MatchOption result (self.new ≡ self.old)
            (λ r. (r.first ≡ first) × (self.old.space ≡ Some r.space)
            × (self.new ≡ record self.old { space = (if length self.new.kept.runs == 0 then None else self.old.space); kept = self.new.kept })) }
        ensures exact { IsWholePages Q N → MatchOption result (¬ IsTrue (list_any (λ t. t.first * PAGE == first) self.old.kept.runs))
            (λ r. let run = run_from Q N first in
            IsTrue (has_run self.old.kept.runs run) × (r.live ≡ blocks_in self.old.kept.live run)
            × (self.new.kept ≡ without_run run self.old.kept)) }
    {
        let _regions = self.row.len();
        let Some(region) = self.row.remove(first) else {
            return None;
        };
        self.last_freed = apart_from(self.last_freed, first, (Q * N) as u64);
        Some(region)
    }
}

// The last freed block of a magazine; a depot has none.
fn kept_aside(depot: bool, freed: (u64, u64)) -> Option<(u64, u64)>
    ensures { result ≡ (if depot then None else Some freed) }
{
    if depot { None } else { Some(freed) }
}

// The last freed block, where it is apart from these bytes.
fn apart_from(freed: Option<(u64, u64)>, first: u64, len: u64) -> Option<(u64, u64)>
    requires { IfSome freed (λ p. 1 ≤ p.1) }
    ensures still { 1 ≤ len → freed_at result ≡ still_freed (block_at first len) (freed_at freed) }
    ensures was { IfSome result (λ p. freed ≡ Some p) }
{
    let Some((a, size)) = freed else {
        return None;
    };
    if a.saturating_sub(first) >= len {
        return freed;
    }
    if first.saturating_sub(a) >= size {
        return freed;
    }
    None
}
