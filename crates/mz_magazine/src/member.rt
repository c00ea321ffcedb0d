//! A region of a row.
ghost use Rattle.std.specs.Prelude.{◌≡◌, ℕ, ◌+◌, ◌-◌, ◌*◌, ◌%◌, ◌^◌, ◌<◌, ◌≤◌, ◌==◌, length, take, min, IsTrue, MatchOption, MatchResult, IfOk};
ghost use Rattle.std.specs.Bool.{MatchBool};
ghost use Rattle.std.specs.Int.{IsPowerOfTwo};
ghost use Rattle.mz_base.specs.Limits.{IsFrom};
ghost use Rattle.mz_base.specs.Space.{block_at};
ghost use Rattle.mz_base.specs.Room.{is_idle, has_room_within, is_front_within};
ghost use Rattle.mz_base.specs.Lists.{add_block, drop_block, has_block, size_at, size_sum};
ghost use Rattle.mz_region.specs.Views.{IsRegion, IsNewBlock};

use mz_ground::Span;
use mz_region::Region;
use std::marker::Model;

/// A region, with what it was last found unable to serve. Contracts see the region.
#[derive(Drop)]
pub(crate) struct Member<const Q: usize, const N: usize> {
    region: Region<Q, N>,
    // No idle run has so many quanta.
    lacks: u64,
}

impl<const Q: usize, const N: usize> Model for Member<Q, N> {
    ghost use Rattle.std.specs.Prelude.{◌≡◌, ◌+◌, ◌*◌, ◌≤◌, false};
    ghost use Rattle.mz_base.specs.Room.{has_room_within};
    ghost use Rattle.mz_region.specs.Views.{RegionView, region_code};

    ghost Value = { RegionView };

    ghost coded = { region_code };

    ghost view = { λ m. m.region };

    ghost invariant = { λ m. (1 ≤ m.lacks) × (has_room_within m.region.first (m.region.first + Q * N) m.region.live (Q * m.lacks) Q ≡ false) };
}

impl<const Q: usize, const N: usize> Member<Q, N> {
    /// The region, of which nothing is found out yet: no region has more quanta than all.
    pub(crate) fn new(region: Region<Q, N>) -> Member<Q, N>
        ensures value { result ≡ region.entry }
        ensures is { IsRegion Q N region.entry }
    {
        let _first = region.first();
        Member {
            region,
            lacks: N as u64 + 1,
        }
    }

    /// Its first address. What holds of each region is said here.
    pub(crate) fn first(&self) -> u64
        ensures value { result ≡ self.now.first }
        ensures is { IsRegion Q N self.now }
    {
        self.region.first()
    }

    /// The bytes of its live blocks.
    pub(crate) fn live_bytes(&self) -> u64
        ensures value { result ≡ size_sum self.now.live }
        ensures is { IsRegion Q N self.now }
    {
        let _first = self.region.first();
        self.region.live_bytes()
    }

    /// How many blocks are live.
    pub(crate) fn count(&self) -> u64
        ensures value { result ≡ length self.now.live }
        ensures is { IsRegion Q N self.now }
    {
        let _first = self.region.first();
        self.region.count()
    }

    /// The bytes of the live block that begins at the address `a`, and 0 where none does.
    pub(crate) fn size_at(&self, a: u64) -> u64
        ensures { result ≡ size_at self.now.live a }
    {
        self.region.size_at(a)
    }

    /// Whether some idle run has room for `n` quanta at its first multiple of `al`, in bytes.
    pub(crate) fn has_room(&self, n: u64, al: u64) -> bool
        requires quanta { IsFrom 1 64 n }
        requires power { IsPowerOfTwo al }
        requires range { al ≤ 16384 }
        ensures { result ≡ has_room_within self.now.first (self.now.first + Q * N) self.now.live (Q * n) al }
    {
        let _first = self.region.first();
        if n >= self.lacks {
            false
        } else if al > Q as u64 {
            self.region.has_room_at(n, al)
        } else {
            self.region.has_room(n)
        }
    }

    /// A new block of `n` quanta at the front at `al`, in bytes, of an idle run with room, or None where
    /// none has room. Where it is known that none has, the region isn't searched.
    pub(crate) fn alloc(&mut self, n: u64, al: u64) -> Option<Span>
        requires quanta { IsFrom 1 64 n }
        requires power { IsPowerOfTwo al }
        requires range { al ≤ 16384 }
        ensures served { let end = self.old.first + Q * N in MatchOption result
            ((self.new ≡ self.old) × ¬ IsTrue (has_room_within self.old.first end self.old.live (Q * n) al))
            (λ s. IsTrue (is_front_within self.old.first end self.old.live (block_at s.first (Q * n)) al)
            × IsNewBlock self.old s (Q * n) self.new) }
        ensures is { IsRegion Q N self.new }
    {
        let _first = self.region.first();
        if n >= self.lacks {
            None
        } else if al > Q as u64 {
            self.alloc_aligned(n, al)
        } else {
            self.alloc_anywhere(n, al)
        }
    }

    // `alloc` at multiples of more than a quantum. What it can't serve at these says nothing of others.
    fn alloc_aligned(&mut self, n: u64, al: u64) -> Option<Span>
        requires quanta { IsFrom 1 64 n }
        requires power { IsPowerOfTwo al }
        requires range { IsFrom Q 16384 al }
        ensures served { let end = self.old.first + Q * N in MatchOption result
            ((self.new ≡ self.old) × ¬ IsTrue (has_room_within self.old.first end self.old.live (Q * n) al))
            (λ s. IsTrue (is_front_within self.old.first end self.old.live (block_at s.first (Q * n)) al)
            × IsNewBlock self.old s (Q * n) self.new) }
        ensures is { IsRegion Q N self.new }
    {
        let span = self.region.alloc_aligned(n, al);
        let _first = self.region.first();
        span
    }

    // `alloc` where each quantum is at a multiple of `al`. What it can't serve is kept in mind.
    fn alloc_anywhere(&mut self, n: u64, al: u64) -> Option<Span>
        requires quanta { IsFrom 1 64 n }
        requires power { IsPowerOfTwo al }
        requires range { al ≤ Q }
        requires region { IsRegion Q N self.old }
        ensures served { let end = self.old.first + Q * N in MatchOption result
            ((self.new ≡ self.old) × ¬ IsTrue (has_room_within self.old.first end self.old.live (Q * n) al))
            (λ s. IsTrue (is_front_within self.old.first end self.old.live (block_at s.first (Q * n)) al)
            × IsNewBlock self.old s (Q * n) self.new) }
        ensures is { IsRegion Q N self.new }
    {
        let span = self.region.alloc(n);
        let _first = self.region.first();
        if span.is_none() {
            self.lacks = n;
        }
        span
    }

    /// Makes the `n` quanta from the address `a` on one block, or answers None where one of them is
    /// outside the region or in a live block.
    pub(crate) fn alloc_at(&mut self, a: u64, n: u64) -> Option<Span>
        requires at { a % Q ≡ 0 }
        requires quanta { IsFrom 1 64 n }
        ensures served { let idle = is_idle self.old.first (self.old.first + Q * N) self.old.live a (a + Q * n) in MatchOption result
            ((self.new ≡ self.old) × ¬ IsTrue idle)
            (λ s. IsTrue idle × (s.first ≡ a) × IsNewBlock self.old s (Q * n) self.new) }
        ensures is { IsRegion Q N self.new }
    {
        let span = self.region.alloc_at(a, n);
        let _first = self.region.first();
        span
    }

    /// Takes a block back. A span that isn't a live block comes back itself, and nothing changes.
    pub(crate) fn free(&mut self, s: Span) -> Result<(), Span>
        requires { s.space ≡ self.old.space }
        ensures freed { let b = block_at s.first (length s.bytes) in MatchResult result
            (λ _. IsTrue (has_block self.old.live b) × (self.new ≡ record self.old { live = drop_block b self.old.live }))
            (λ t. ¬ IsTrue (has_block self.old.live b) × (self.new ≡ self.old) × (t ≡ s)) }
        ensures is { IsRegion Q N self.new }
    {
        let freed = self.region.free(s);
        let _first = self.region.first();
        if freed.is_ok() {
            self.lacks = N as u64 + 1;
        }
        freed
    }

    /// Makes a block one of `n` quanta, in place. It answers false, and changes nothing, where one of the
    /// quanta that it would take is outside the region or in another live block. A shrink is always done.
    pub(crate) fn resize(&mut self, s: &mut Span, n: u64) -> bool
        requires live { IsTrue (has_block self.old.live (block_at s.old.first (length s.old.bytes))) }
        requires space { s.old.space ≡ self.old.space }
        requires quanta { IsFrom 1 64 n }
        ensures resized { let b = block_at s.old.first (length s.old.bytes) in
            let idle = is_idle self.old.first (self.old.first + Q * N) (drop_block b self.old.live) b.first (b.first + Q * n) in MatchBool result
            (IsTrue idle × (self.new ≡ record self.old { live = add_block (block_at b.first (Q * n)) (drop_block b self.old.live) })
            × (s.new.space ≡ s.old.space) × (s.new.first ≡ s.old.first) × (length s.new.bytes ≡ Q * n)
            × (take (min b.size (Q * n)) s.new.bytes ≡ take (min b.size (Q * n)) s.old.bytes))
            (¬ IsTrue idle × (self.new ≡ self.old) × (s.new ≡ s.old)) }
        ensures shrinks { Q * n ≤ length s.old.bytes → IsTrue result }
        ensures is { IsRegion Q N self.new }
    {
        let resized = self.region.resize(s, n);
        let _first = self.region.first();
        if resized {
            self.lacks = N as u64 + 1;
        }
        resized
    }

    /// The region alone.
    pub(crate) fn into_region(self) -> Region<Q, N>
        ensures { result ≡ self.entry }
    {
        self.region
    }
}
