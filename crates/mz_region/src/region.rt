//! Bytes in quanta, of which blocks are live.
ghost use Rattle.std.specs.Prelude.{◌≡◌, ◌≢◌, ℕ, ◌+◌, ◌-◌, ◌*◌, ◌/◌, ◌%◌, ◌^◌, ◌<◌, ◌≤◌, ◌==◌, ◌⊎◌, [], length, take, min, true, false, IsTrue, IsSome, MatchOption, MatchResult};
ghost use Rattle.std.specs.Bool.{MatchBool};
ghost use Rattle.std.specs.Int.{IsPowerOfTwo};
ghost use Rattle.mz_base.specs.Limits.{IsFrom};
ghost use Rattle.mz_base.specs.Space.{block_at};
ghost use Rattle.mz_base.specs.Room.{is_idle, has_room_within, is_front_within};
ghost use Rattle.mz_base.specs.Lists.{add_block, drop_block, has_block, size_at, size_sum};
ghost use Rattle.mz_region.specs.Views.{IsRegion, IsNewBlock};

use crate::blank::Blank;
use crate::search::{block_len, front_of_room};
use mz_bits::Bits;
use mz_ground::{Ground, Span};
use std::marker::Model;

/// `N` quanta of `Q` bytes in a row, some of them in live blocks. Contracts see the region's space,
/// its first address there, and its live blocks in the order of their addresses.
///
/// A block is given out as the span of its bytes, so nobody else can reach them. What holds of each region
/// is a clause of `first`.
#[derive(Drop)]
pub struct Region<const Q: usize, const N: usize> {
    pub(crate) first: u64,
    // For each quantum, whether a block begins there, and whether it is in a block.
    pub(crate) begins: Bits,
    pub(crate) in_use: Bits,
    pub(crate) ground: Ground<Q>,
    pub(crate) live_bytes: u64,
    pub(crate) count: u64,
}

impl<const Q: usize, const N: usize> Model for Region<Q, N> {
    ghost use Rattle.mz_region.specs.Views.{RegionView, region_code};

    ghost Value = { RegionView };

    ghost coded = { region_code };

    ghost use Rattle.mz_region.specs.Quanta.{blocks_of};
    ghost use Rattle.mz_region.specs.Held.{IsHeld};

    ghost view = { λ r. record { space = r.ground.space; first = r.first; live = blocks_of Q r.first r.begins r.in_use } };

    ghost invariant = { λ r. IsHeld Q N r.first r.begins r.in_use r.ground r.live_bytes r.count };
}

impl<const Q: usize, const N: usize> Region<Q, N> {
    /// Its first address. What holds of each region is said here.
    pub fn first(&self) -> u64
        ensures value { result ≡ self.now.first }
        ensures is { IsRegion Q N self.now }
    {
        self.first
    }

    /// The bytes of its live blocks.
    pub fn live_bytes(&self) -> u64
        ensures { result ≡ size_sum self.now.live }
    {
        self.live_bytes
    }

    /// The bytes in none of its live blocks.
    pub fn idle_bytes(&self) -> u64
        ensures { result + size_sum self.now.live ≡ Q * N }
    {
        let live = self.live_bytes;
        (Q * N) as u64 - live
    }

    /// How many blocks are live.
    pub fn count(&self) -> u64
        ensures { result ≡ length self.now.live }
    {
        self.count
    }

    /// The bytes of the live block that begins at the address `a`, and 0 where none does.
    pub fn size_at(&self, a: u64) -> u64
        ensures { result ≡ size_at self.now.live a }
    {
        match self.quanta_at(a) {
            Some((_, n)) => n * Q as u64,
            None => 0,
        }
    }

    /// Whether some idle run has `n` quanta: whether `alloc` would answer a block.
    pub fn has_room(&self, n: u64) -> bool
        requires { IsFrom 1 64 n }
        ensures { result ≡ has_room_within self.now.first (self.now.first + Q * N) self.now.live (Q * n) Q }
    {
        self.front_of_room(n, Q as u64).is_some()
    }

    /// Whether some idle run has room for `n` quanta at its first multiple of `al`, in bytes: whether
    /// `alloc_aligned` would answer a block.
    pub fn has_room_at(&self, n: u64, al: u64) -> bool
        requires quanta { IsFrom 1 64 n }
        requires power { IsPowerOfTwo al }
        requires range { IsFrom Q 16384 al }
        ensures { result ≡ has_room_within self.now.first (self.now.first + Q * N) self.now.live (Q * n) al }
    {
        self.front_of_room(n, al).is_some()
    }

    /// A new block of `n` quanta at the front of an idle run, or None where no idle run has room.
    /// Today it is the lowest idle run with room. That is not promised: free lists by size, which
    /// are to take the place of the search, give another.
    pub fn alloc(&mut self, n: u64) -> Option<Span>
        requires { IsFrom 1 64 n }
        ensures { let end = self.old.first + Q * N in MatchOption result
            ((self.new ≡ self.old) × ¬ IsTrue (has_room_within self.old.first end self.old.live (Q * n) Q))
            (λ s. IsTrue (is_front_within self.old.first end self.old.live (block_at s.first (Q * n)) Q)
            × IsNewBlock self.old s (Q * n) self.new) }
    {
        self.alloc_at_multiple(n, Q as u64)
    }

    /// A new block of `n` quanta at the first multiple of `al`, in bytes, in an idle run with room,
    /// or None where none has room. The multiple is one of the address, not of the place in the
    /// region.
    pub fn alloc_aligned(&mut self, n: u64, al: u64) -> Option<Span>
        requires quanta { IsFrom 1 64 n }
        requires power { IsPowerOfTwo al }
        requires range { IsFrom Q 16384 al }
        ensures { let end = self.old.first + Q * N in MatchOption result
            ((self.new ≡ self.old) × ¬ IsTrue (has_room_within self.old.first end self.old.live (Q * n) al))
            (λ s. IsTrue (is_front_within self.old.first end self.old.live (block_at s.first (Q * n)) al)
            × IsNewBlock self.old s (Q * n) self.new) }
    {
        self.alloc_at_multiple(n, al)
    }

    /// Makes the `n` quanta from the address `a` on one block, or answers None where one of them is
    /// outside the region or in a live block.
    pub fn alloc_at(&mut self, a: u64, n: u64) -> Option<Span>
        requires at { a % Q ≡ 0 }
        requires quanta { IsFrom 1 64 n }
        ensures { let idle = is_idle self.old.first (self.old.first + Q * N) self.old.live a (a + Q * n) in MatchOption result
            ((self.new ≡ self.old) × ¬ IsTrue idle)
            (λ s. IsTrue idle × (s.first ≡ a) × IsNewBlock self.old s (Q * n) self.new) }
    {
        let q = self.idle_quantum(a, n)?;
        Some(self.take(q, n))
    }

    /// Takes a block back. A span that isn't a live block comes back itself, and nothing changes.
    pub fn free(&mut self, s: Span) -> Result<(), Span>
        requires { s.space ≡ self.old.space }
        ensures { let b = block_at s.first (length s.bytes) in MatchResult result
            (λ _. IsTrue (has_block self.old.live b) × (self.new ≡ record self.old { live = drop_block b self.old.live }))
            (λ t. ¬ IsTrue (has_block self.old.live b) × (self.new ≡ self.old) × (t ≡ s)) }
    {
        match self.quanta_at(s.first()) {
            Some((q, n)) if n * Q as u64 == s.len() => {
                self.put_back(q, n, s);
                Ok(())
            }
            _ => Err(s),
        }
    }

    /// Makes a block one of `n` quanta, in place. It answers false, and changes nothing, where one
    /// of the quanta that it would take is outside the region or in another live block. A shrink is
    /// always done. The bytes that stay are kept.
    pub fn resize(&mut self, s: &mut Span, n: u64) -> bool
        requires live { IsTrue (has_block self.old.live (block_at s.old.first (length s.old.bytes))) }
        requires space { s.old.space ≡ self.old.space }
        requires quanta { IsFrom 1 64 n }
        ensures resized { let b = block_at s.old.first (length s.old.bytes) in
            let idle = is_idle self.old.first (self.old.first + Q * N) (drop_block b self.old.live) b.first (b.first + Q * n) in MatchBool result
            (IsTrue idle × (self.new ≡ record self.old { live = add_block (block_at b.first (Q * n)) (drop_block b self.old.live) })
            × (s.new.space ≡ s.old.space) × (s.new.first ≡ s.old.first) × (length s.new.bytes ≡ Q * n)
            × (take (min b.size (Q * n)) s.new.bytes ≡ take (min b.size (Q * n)) s.old.bytes))
            (¬ IsTrue idle × (self.new ≡ self.old) × (s.new ≡ s.old)) }
        ensures shrinks { Q * n ≤ length s.old.bytes → IsTrue result }
    {
        let q = (s.first() - self.first) / Q as u64;
        let had = s.len() / Q as u64;
        if n <= had {
            self.shrink(q, had, n, s);
            true
        } else {
            self.grow(q, had, n, s)
        }
    }

    /// The span and the blank again. Where a block is live the region comes back.
    pub fn strip(self) -> Result<(Span, Blank<Q, N>), Region<Q, N>>
        ensures { MatchResult result
            (λ p. (self.entry.live ≡ []) × (p.0.space ≡ self.entry.space) × (p.0.first ≡ self.entry.first) × (length p.0.bytes ≡ Q * N))
            (λ r. (self.entry.live ≢ []) × (r ≡ self.entry)) }
    {
        if self.count > 0 {
            return Err(self);
        }
        let Region {
            first: _,
            begins,
            in_use,
            ground,
            live_bytes: _,
            count: _,
        } = self;
        match ground.into_span() {
            Ok((span, lent)) => Ok((
                span,
                Blank {
                    begins,
                    in_use,
                    lent,
                },
            )),
            Err(_) => unreachable!(),
        }
    }

    // `alloc` and `alloc_aligned`, at a multiple of `al` bytes.
    fn alloc_at_multiple(&mut self, n: u64, al: u64) -> Option<Span>
        requires quanta { IsFrom 1 64 n }
        requires multiple { (al ≡ Q) ⊎ (IsPowerOfTwo al × IsFrom Q 16384 al) }
        ensures { let end = self.old.first + Q * N in MatchOption result
            ((self.new ≡ self.old) × ¬ IsTrue (has_room_within self.old.first end self.old.live (Q * n) al))
            (λ s. IsTrue (is_front_within self.old.first end self.old.live (block_at s.first (Q * n)) al)
            × IsNewBlock self.old s (Q * n) self.new) }
    {
        let front = self.front_of_room(n, al)?;
        Some(self.take(front, n))
    }

    // The front of an idle run with room for `n` quanta at a multiple of `al` bytes.
    fn front_of_room(&self, n: u64, al: u64) -> Option<u64>
        requires quanta { IsFrom 1 64 n }
        requires multiple { (al ≡ Q) ⊎ (IsPowerOfTwo al × IsFrom Q 16384 al) }
        ensures { let end = self.now.first + Q * N in MatchOption result
            (¬ IsTrue (has_room_within self.now.first end self.now.live (Q * n) al))
            (λ q. let a = self.now.first + Q * q in
            IsTrue (is_front_within self.now.first end self.now.live (block_at a (Q * n)) al)
            × IsTrue (is_idle self.now.first end self.now.live a (a + Q * n))) }
    {
        front_of_room(&self.in_use, self.first / Q as u64, al / Q as u64, n)
    }

    // The number of the quantum at the address `a`, where it and those behind it are `n` idle ones.
    fn idle_quantum(&self, a: u64, n: u64) -> Option<u64>
        requires at { a % Q ≡ 0 }
        requires quanta { IsFrom 1 64 n }
        ensures { let idle = is_idle self.now.first (self.now.first + Q * N) self.now.live a (a + Q * n) in MatchOption result
            (¬ IsTrue idle) (λ q. IsTrue idle × (a ≡ self.now.first + Q * q)) }
    {
        if a < self.first {
            return None;
        }
        let q = (a - self.first) / Q as u64;
        if self.in_use.run_at(q, n) == n {
            Some(q)
        } else {
            None
        }
    }

    // Which quantum the live block at the address `a` begins with, and how many it has.
    fn quanta_at(&self, a: u64) -> Option<(u64, u64)>
        ensures found { MatchOption result (size_at self.now.live a ≡ 0)
            (λ p. (a ≡ self.now.first + Q * p.0) × (1 ≤ p.1) × (size_at self.now.live a ≡ Q * p.1) × IsFrom 1 (2 ^ 63) (Q * p.1)) }
        ensures is { IsRegion Q N self.now }
    {
        if a < self.first {
            return None;
        }
        let behind = a - self.first;
        let q = behind / Q as u64;
        if behind % Q as u64 != 0 || q >= N as u64 || !self.begins.get(q) {
            return None;
        }
        Some((q, block_len(&self.begins, &self.in_use, q)))
    }

    // Makes `n` idle quanta, from the `q`-th on, a block.
    fn take(&mut self, q: u64, n: u64) -> Span
        requires some { 1 ≤ n }
        requires idle { let a = self.old.first + Q * q in
            IsTrue (is_idle self.old.first (self.old.first + Q * N) self.old.live a (a + Q * n)) }
        ensures first { result.first ≡ self.old.first + Q * q }
        ensures new_block { IsNewBlock self.old result (Q * n) self.new }
    {
        let span = self.ground.lend(q, n);
        self.begins.set(q);
        self.in_use.set_run(q, n);
        self.live_bytes += n * Q as u64;
        self.count += 1;
        span
    }

    // Takes the live block of `n` quanta, from the `q`-th on, back.
    fn put_back(&mut self, q: u64, n: u64, s: Span)
        requires some { 1 ≤ n }
        requires space { s.space ≡ self.old.space }
        requires first { s.first ≡ self.old.first + Q * q }
        requires len { length s.bytes ≡ Q * n }
        requires live { size_at self.old.live s.first ≡ Q * n }
        ensures { self.new ≡ record self.old { live = drop_block (block_at s.first (length s.bytes)) self.old.live } }
    {
        self.ground.put_back(q, n, s);
        self.begins.clear(q);
        self.in_use.clear_run(q, n);
        self.live_bytes -= n * Q as u64;
        self.count -= 1;
    }

    // Makes the live block of `had` quanta, from the `q`-th on, one of `n`, which are no more.
    fn shrink(&mut self, q: u64, had: u64, n: u64, s: &mut Span)
        requires some { 1 ≤ n }
        requires fewer { n ≤ had }
        requires small { Q * had < 2 ^ 64 }
        requires space { s.old.space ≡ self.old.space }
        requires first { s.old.first ≡ self.old.first + Q * q }
        requires len { length s.old.bytes ≡ Q * had }
        requires live { size_at self.old.live s.old.first ≡ Q * had }
        ensures live { self.new ≡ record self.old { live = add_block (block_at s.old.first (Q * n)) (drop_block (block_at s.old.first (length s.old.bytes)) self.old.live) } }
        ensures space { s.new.space ≡ s.old.space }
        ensures first { s.new.first ≡ s.old.first }
        ensures bytes { s.new.bytes ≡ take (Q * n) s.old.bytes }
        ensures len { length s.new.bytes ≡ Q * n }
    {
        let rest = had - n;
        let tail = s.cut_off(n * Q as u64);
        self.ground.put_back(q + n, rest, tail);
        self.in_use.clear_run(q + n, rest);
        self.live_bytes -= rest * Q as u64;
    }

    // Makes the live block of `had` quanta, from the `q`-th on, one of `n`, which are more, where those
    // behind it are idle.
    fn grow(&mut self, q: u64, had: u64, n: u64, s: &mut Span) -> bool
        requires some { 1 ≤ had }
        requires more { had < n }
        requires few { n ≤ 64 }
        requires space { s.old.space ≡ self.old.space }
        requires first { s.old.first ≡ self.old.first + Q * q }
        requires len { length s.old.bytes ≡ Q * had }
        requires live { size_at self.old.live s.old.first ≡ Q * had }
        ensures { let b = block_at s.old.first (length s.old.bytes) in
            let idle = is_idle self.old.first (self.old.first + Q * N) (drop_block b self.old.live) b.first (b.first + Q * n) in MatchBool result
            (IsTrue idle × (self.new ≡ record self.old { live = add_block (block_at b.first (Q * n)) (drop_block b self.old.live) })
            × (s.new.space ≡ s.old.space) × (s.new.first ≡ s.old.first) × (length s.new.bytes ≡ Q * n)
            × (take (Q * had) s.new.bytes ≡ s.old.bytes))
            (¬ IsTrue idle × (self.new ≡ self.old) × (s.new ≡ s.old)) }
    {
        let more = n - had;
        if self.in_use.run_at(q + had, more) < more {
            return false;
        }
        s.extend(self.ground.lend(q + had, more));
        self.in_use.set_run(q + had, more);
        self.live_bytes += more * Q as u64;
        true
    }
}
