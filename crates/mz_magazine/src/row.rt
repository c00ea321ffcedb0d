//! The regions of a magazine.
ghost use Rattle.std.specs.Prelude.{◌≡◌, ℕ, ◌+◌, ◌-◌, ◌*◌, ◌%◌, ◌^◌, ◌<◌, ◌≤◌, ◌==◌, ◌&&◌, ◌||◌, [], length, take, min, map, find, filter, fold, not, nat_lt, true, false, Some, None, IsTrue, IfOk, IfSome, IfNone, MatchOption, MatchResult, if◌then◌else◌};
ghost use Rattle.std.specs.Bool.{MatchBool};
ghost use Rattle.std.specs.Int.{IsPowerOfTwo};
ghost use Rattle.std.specs.List.{HoldsAt, list_any, list_all};
ghost use Rattle.std.specs.Option.{option_map};
ghost use Rattle.mz_base.specs.Limits.{IsFrom};
ghost use Rattle.mz_base.specs.Space.{block_at, block_end, blocks_apart};
ghost use Rattle.mz_base.specs.Room.{lies_within, is_front_within};
ghost use Rattle.mz_base.specs.Lists.{insert_by, add_block, drop_block, has_block, size_at, size_sum};
ghost use Rattle.mz_region.specs.Views.{IsRegion};
ghost use Rattle.mz_events.specs.Standing.{IsOf};
ghost use Rattle.mz_magazine.specs.Row.{IsRow, IsNewInRow, lies_in_row, is_idle_in, blocks_within, is_unused_at, is_sparse_at, has_room_at, with_region_at, without_region_at};

use crate::member::Member;
use crate::search::{alloc_in_lowest, count_below, lowest_sparse, lowest_unused, lowest_with_room};
use mz_ground::Span;
use mz_region::Region;
use std::alloc::{AllocError, Global};
use std::marker::Model;

/// Regions of one space, by address. Contracts see for how many there is room, their space, their first
/// addresses, and all their live blocks in the order of their addresses.
#[derive(Drop)]
pub(crate) struct Row<const Q: usize, const N: usize> {
    members: Vec<Member<Q, N>>,
    most: usize,
    live_bytes: u64,
    count: u64,
}

impl<const Q: usize, const N: usize> Model for Row<Q, N> {
    ghost use Rattle.std.specs.Prelude.{◌≤◌, vec_capacity};
    ghost use Rattle.mz_magazine.specs.Row.{RowView, row_code};

    ghost Value = { RowView };

    ghost coded = { row_code };

    ghost use Rattle.mz_magazine.specs.Members.{row_of, IsKept};

    ghost view = { λ r. row_of r.most r.members.items };

    ghost invariant = { λ r. IsKept Q N r.most r.members.items r.live_bytes r.count × (r.most ≤ vec_capacity r.members) };
}

impl<const Q: usize, const N: usize> Row<Q, N> {
    /// A row without regions, with room for `most`.
    pub(crate) fn make(alloc: Global, most: u64) -> Result<Row<Q, N>, AllocError>
        ensures { IfOk result (λ r. r ≡ record { room = most; space = None; firsts = []; live = [] }) }
    {
        let most = most as usize;
        let members = Vec::with_capacity(alloc, most)?;
        Ok(Row {
            members,
            most,
            live_bytes: 0,
            count: 0,
        })
    }

    /// How many regions it has. What holds of each row is said here.
    pub(crate) fn len(&self) -> u64
        ensures value { result ≡ length self.now.firsts }
        ensures is { IsRow Q N self.now }
    {
        self.members.len() as u64
    }

    /// The bytes of all regions.
    pub(crate) fn bytes(&self) -> u64
        ensures { result ≡ Q * N * length self.now.firsts }
    {
        let len = self.len();
        if len == 0 {
            return 0;
        }
        (Q * N) as u64 * len
    }

    /// The bytes of all live blocks.
    pub(crate) fn live_bytes(&self) -> u64
        ensures { result ≡ size_sum self.now.live }
    {
        self.live_bytes
    }

    /// How many blocks are live.
    pub(crate) fn count(&self) -> u64
        ensures { result ≡ length self.now.live }
    {
        self.count
    }

    /// The bytes of the live block that begins at the address `a`, and 0 where none does.
    pub(crate) fn size_at(&self, a: u64) -> u64
        ensures { result ≡ size_at self.now.live a }
    {
        match self.holding(a) {
            Some(i) => self.members[i].size_at(a),
            None => 0,
        }
    }

    /// Whether the byte at the address `a` lies in a region.
    pub(crate) fn has(&self, a: u64) -> bool
        ensures { result ≡ lies_in_row (Q * N) self.now.firsts a (a + 1) }
    {
        self.holding(a).is_some()
    }

    /// The first address of the lowest region with room for `n` quanta at multiples of `al` bytes.
    pub(crate) fn fits(&self, n: u64, al: u64) -> Option<u64>
        requires quanta { IsFrom 1 64 n }
        requires power { IsPowerOfTwo al }
        requires range { al ≤ 16384 }
        ensures { result ≡ find (has_room_at (Q * N) self.now.live (Q * n) al) self.now.firsts }
    {
        lowest_with_room(self.members.as_slice(), n, al)
    }

    /// That of the lowest region without live blocks.
    pub(crate) fn empty(&self) -> Option<u64>
        ensures { result ≡ find (is_unused_at (Q * N) self.now.live) self.now.firsts }
    {
        lowest_unused(self.members.as_slice())
    }

    /// That of the lowest region of which less than three quarters are live.
    pub(crate) fn sparse(&self) -> Option<u64>
        ensures { result ≡ find (is_sparse_at (Q * N) self.now.live) self.now.firsts }
    {
        lowest_sparse(self.members.as_slice())
    }

    /// A new block of `n` quanta, at the front at `al` bytes of an idle run in the lowest region with room,
    /// or None where no region has room.
    pub(crate) fn alloc(&mut self, n: u64, al: u64) -> Option<Span>
        requires quanta { IsFrom 1 64 n }
        requires power { IsPowerOfTwo al }
        requires range { al ≤ 16384 }
        ensures { MatchOption result
            ((self.new ≡ self.old) × (list_any (has_room_at (Q * N) self.old.live (Q * n) al) self.old.firsts ≡ false))
            (λ s. (list_any (λ a. is_front_within a (a + Q * N) self.old.live (block_at s.first (Q * n)) al) self.old.firsts ≡ true)
            × IsNewInRow Q N self.old s (Q * n) self.new) }
    {
        let Some(span) = alloc_in_lowest(self.members.as_mut_slice(), n, al) else {
            return None;
        };
        self.live_bytes += Q as u64 * n;
        self.count += 1;
        Some(span)
    }

    /// Makes the `n` quanta from the address `a` on one block, or answers None where one of them is in no
    /// region or in a live block.
    pub(crate) fn alloc_at(&mut self, a: u64, n: u64) -> Option<Span>
        requires at { a % Q ≡ 0 }
        requires quanta { IsFrom 1 64 n }
        ensures { MatchOption result
            ((self.new ≡ self.old) × (is_idle_in (Q * N) self.old.firsts self.old.live a (a + Q * n) ≡ false))
            (λ s. (s.first ≡ a) × IsNewInRow Q N self.old s (Q * n) self.new) }
    {
        let Some(i) = self.holding(a) else {
            return None;
        };
        let Some(span) = self.members[i].alloc_at(a, n) else {
            return None;
        };
        self.live_bytes += Q as u64 * n;
        self.count += 1;
        Some(span)
    }

    /// Takes a block back. A span that isn't a live block comes back itself, and nothing changes.
    pub(crate) fn free(&mut self, s: Span) -> Result<(), Span>
        requires { IsOf self.old.space s.space }
        ensures { let b = block_at s.first (length s.bytes) in MatchResult result
            (λ _. (has_block self.old.live b ≡ true) × (self.new ≡ record self.old { live = drop_block b self.old.live })
            × (b.first % Q ≡ 0) × (b.size % Q ≡ 0) × (0 < b.size)
            × (is_idle_in (Q * N) self.new.firsts self.new.live b.first (block_end b) ≡ true))
            (λ t. (has_block self.old.live b ≡ false) × (self.new ≡ self.old) × (t ≡ s)) }
    {
        let Some(i) = self.holding(s.first()) else {
            return Err(s);
        };
        let bytes = s.len();
        let freed = self.members[i].free(s);
        if freed.is_ok() {
            self.live_bytes -= bytes;
            self.count -= 1;
        }
        freed
    }

    /// Makes a block one of `n` quanta, in place. It answers false, and changes nothing, where one of the
    /// quanta that it would take is outside the region or in another live block. A shrink is always done.
    pub(crate) fn resize(&mut self, s: &mut Span, n: u64) -> bool
        requires live { IsTrue (has_block self.old.live (block_at s.old.first (length s.old.bytes))) }
        requires space { IsOf self.old.space s.old.space }
        requires quanta { IsFrom 1 64 n }
        ensures resized { let b = block_at s.old.first (length s.old.bytes) in
            let idle = is_idle_in (Q * N) self.old.firsts (drop_block b self.old.live) b.first (b.first + Q * n) in MatchBool result
            ((idle ≡ true) × (self.new ≡ record self.old { live = add_block (block_at b.first (Q * n)) (drop_block b self.old.live) })
            × (s.new.space ≡ s.old.space) × (s.new.first ≡ s.old.first) × (length s.new.bytes ≡ Q * n)
            × (take (min b.size (Q * n)) s.new.bytes ≡ take (min b.size (Q * n)) s.old.bytes) × (0 < Q * n))
            ((idle ≡ false) × (self.new ≡ self.old) × (s.new ≡ s.old)) }
        ensures fits { let c = block_at s.old.first (Q * n) in
            result ≡ (lies_in_row (Q * N) self.old.firsts c.first (block_end c) && list_all (λ d. (d.first == c.first) || blocks_apart d c) self.old.live) }
        ensures shrinks { Q * n ≤ length s.old.bytes → IsTrue result }
    {
        let Some(i) = self.holding(s.first()) else {
            return false;
        };
        let had = s.len();
        let resized = self.members[i].resize(s, n);
        if resized {
            self.live_bytes = self.live_bytes - had + Q as u64 * n;
        }
        resized
    }

    /// Adds a region with its live blocks, at its place. Where a region begins there already, which no
    /// caller brings about that has its regions from one span, the new one is forgotten.
    pub(crate) fn insert(&mut self, r: Region<Q, N>)
        requires room { length self.old.firsts < self.old.room }
        requires space { IsOf self.old.space r.space }
        ensures inserted { self.new ≡ (if list_any (λ a. a == r.entry.first) self.old.firsts then self.old else with_region_at r.entry self.old) }
        ensures is { IsRegion Q N r.entry }
        ensures space { self.new.space ≡ Some r.entry.space }
        ensures room { self.new.room ≡ self.old.room }
    {
        let i = count_below(self.members.as_slice(), r.first());
        if i > 0 && self.members[i - 1].first() == r.first() {
            return;
        }
        let (live_bytes, count) = (r.live_bytes(), r.count());
        match self.members.insert(i, Member::new(r)) {
            Ok(()) => {
                self.live_bytes += live_bytes;
                self.count += count;
            }
            Err(_) => unreachable!(),
        }
    }

    /// Takes out the region that begins at the address `first`, with its live blocks.
    pub(crate) fn remove(&mut self, first: u64) -> Option<Region<Q, N>>
        ensures removed { MatchOption result (self.new ≡ self.old)
            (λ r. (r.first ≡ first) × (self.old.space ≡ Some r.space)
            × (r.live ≡ blocks_within first (first + Q * N) self.old.live)
            × (self.new ≡ record self.old { space = (if length self.new.firsts == 0 then None else self.old.space); firsts = self.new.firsts; live = self.new.live })) }
        ensures exact { 0 < Q * N → MatchOption result (list_any (λ a. a == first) self.old.firsts ≡ false)
            (λ _. (list_any (λ a. a == first) self.old.firsts ≡ true) × (self.new ≡ without_region_at (Q * N) first self.old)) }
    {
        let Some(i) = self.holding(first) else {
            return None;
        };
        if self.members[i].first() != first {
            return None;
        }
        let region = self.members.remove(i).into_region();
        self.live_bytes -= region.live_bytes();
        self.count -= region.count();
        Some(region)
    }

    // The number of the region in which the byte at the address `a` lies.
    fn holding(&self, a: u64) -> Option<usize>
        ensures { MatchOption result (lies_in_row (Q * N) self.now.firsts a (a + 1) ≡ false)
            (λ i. (i < length self.now.firsts) × HoldsAt (λ f. (f ≤ a) × (a < f + Q * N)) self.now.firsts i) }
    {
        let below = count_below(self.members.as_slice(), a);
        if below == 0 {
            return None;
        }
        let last = below - 1;
        if a - self.members[last].first() < (Q * N) as u64 {
            Some(last)
        } else {
            None
        }
    }
}
