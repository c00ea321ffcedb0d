//! A run with the live blocks in it.
ghost use Rattle.std.specs.Prelude.{◌≡◌, ℕ, ◌+◌, ◌-◌, ◌*◌, ◌≤◌, nat_le, nat_lt, ◌&&◌};
ghost use Rattle.mz_base.specs.declared.range.TheConstants.{PAGE as page_bytes};
ghost use Rattle.mz_base.specs.Space.{least_multiple};
ghost use Rattle.mz_holding.specs.LiveBlocks.{IsHeld, held_once, IsIdleBound, bound_once, live_of, page_limit};
ghost use Rattle.mz_holding.specs.Gaps.{IsGap};

use crate::blocks::Blocks;
use crate::extent::Extent;
use mz_base::PAGE;
use std::alloc::{AllocError, Global};

/// A run of a place, and the live blocks that lie in it.
#[derive(Drop)]
pub struct Held {
    first: u64,
    pages: u64,
    // The bytes of the blocks.
    used: u64,
    // No idle run of it has more bytes.
    most: u64,
    blocks: Blocks,
    ghost sound: { IsHeld first pages used (live_of blocks) } by { held_once _ _ _ _ },
    ghost bound: { IsIdleBound first pages most (live_of blocks) } by { bound_once first pages most (live_of blocks) },
}

// How many bytes lie between `x` and the least multiple of `al` at or above it.
fn pad_to(x: u64, al: u64) -> u64
    requires { 1 ≤ al }
    ensures { x + result ≡ least_multiple al x }
{
    let over = x % al;
    if over == 0 { 0 } else { al - over }
}

// Whether `n` bytes at `al`, from `x` on, end at or below `high`.
fn fits_below(x: u64, high: u64, n: u64, al: u64) -> bool
    requires whole { 1 ≤ al }
    requires ordered { x ≤ high }
    ensures { result ≡ nat_le (least_multiple al x + n) high }
{
    let pad = pad_to(x, al);
    let room = high - x;
    pad <= room && n <= room - pad
}

// Whether the `n` bytes from `a` are at the front at `al` of the bytes from `low` to `high`.
fn is_near(low: u64, high: u64, a: u64, n: u64, al: u64) -> bool
    ensures { result ≡ (nat_le low a && nat_lt (a - low) al && nat_le a high && nat_le n (high - a)) }
{
    low <= a && a - low < al && a <= high && n <= high - a
}

// Whether the `n` bytes from `a` lie between `low` and `high`.
pub(crate) fn lies_between(low: u64, high: u64, a: u64, n: u64) -> bool
    ensures { result ≡ (nat_le low a && nat_le a high && nat_le n (high - a)) }
{
    low <= a && a <= high && n <= high - a
}

// The gap at `a` between blocks, within the bytes of a run.
fn gap_within(blocks: &Blocks, first: u64, pages: u64, a: u64) -> (u64, u64)
    requires { first + pages ≤ page_limit }
    ensures gap { IsGap (first * page_bytes) ((first + pages) * page_bytes) (live_of blocks.now) a result.0 result.1 }
    ensures from { first * page_bytes ≤ result.0 }
    ensures to { result.1 ≤ (first + pages) * page_bytes }
{
    let (low, high) = blocks.gap(a);
    let start = first * PAGE;
    let end = (first + pages) * PAGE;
    (low.max(start), high.min(end))
}

impl Held {
    ghost use Rattle.std.specs.Prelude.{◌*◌, ◌/◌, ◌%◌, ◌<◌, ◌||◌, ◌==◌, ◌++◌, List, [], map, length, Option, OnOk, OnErr, IfOk, IsTrue};
    ghost use Rattle.std.specs.List.{list_all};
    ghost use Rattle.std.specs.Option.{option_map, option_to_list, IfSome};
    ghost use Rattle.mz_base.specs.declared.range.TheConstants.{PAGE as page_bytes};
    ghost use Rattle.mz_base.specs.Space.{block_at, run_at, run_end, blocks_apart, same_run};
    ghost use Rattle.mz_base.specs.Lists.{has_block, add_block, drop_block};
    ghost use Rattle.mz_base.specs.Room.{lies_in, has_room as some_room, is_front_of};
    ghost use Rattle.mz_holding.specs.Gaps.{IsGap, far, size_found};
    ghost use Rattle.mz_holding.specs.LiveBlocks.{page_limit};
    ghost use Rattle.mz_holding.specs.HeldRuns.{block_of, run_of_held, live_of_held};

    /// A run without live blocks.
    pub fn empty(alloc: Global, first: u64, pages: u64) -> Held
        requires some { 1 ≤ pages }
        requires fits { first + pages ≤ page_limit }
        ensures run { run_of_held result ≡ run_at first pages }
        ensures blocks { live_of_held result ≡ [] }
        ensures used { result.used ≡ 0 }
    {
        Held {
            first,
            pages,
            used: 0,
            most: pages * PAGE,
            blocks: Blocks::new(alloc),
        }
    }

    /// The same again.
    pub fn copy(&self) -> Result<Held, AllocError>
        ensures run { IfOk result (λ h. run_of_held h ≡ run_of_held self.now) }
        ensures blocks { IfOk result (λ h. live_of_held h ≡ live_of_held self.now) }
        ensures used { IfOk result (λ h. h.used ≡ self.now.used) }
    {
        Ok(Held {
            first: self.first,
            pages: self.pages,
            used: self.used,
            most: self.most,
            blocks: self.blocks.copy()?,
        })
    }

    /// Its first page.
    pub fn first(&self) -> u64
        ensures { result ≡ self.now.first }
    {
        self.first
    }

    /// How many pages it has.
    pub fn pages(&self) -> u64
        ensures { result ≡ self.now.pages }
    {
        self.pages
    }

    /// The bytes of its live blocks.
    pub fn used(&self) -> u64
        ensures { result ≡ self.now.used }
    {
        self.used
    }

    /// Whether it is this run.
    pub fn is_run(&self, first: u64, pages: u64) -> bool
        ensures { result ≡ same_run (run_at first pages) (run_of_held self.now) }
    {
        first == self.first && pages == self.pages
    }

    /// Whether no block in it is live.
    pub fn is_empty(&self) -> bool
        ensures { result ≡ (length (live_of_held self.now) == 0) }
    {
        self.blocks.is_empty()
    }

    /// Whether the block is live in it.
    pub fn has_block(&self, a: u64, n: u64) -> bool
        ensures { result ≡ has_block (live_of_held self.now) (block_at a n) }
    {
        match self.blocks.find(a) {
            Some(size) => size == n,
            None => false,
        }
    }

    // The gap at `a` between its blocks, within its bytes.
    fn gap(&self, a: u64) -> (u64, u64)
        ensures gap { IsGap (self.now.first * page_bytes) (run_end (run_of_held self.now) * page_bytes) (live_of_held self.now) a result.0 result.1 }
        ensures from { self.now.first * page_bytes ≤ result.0 }
        ensures to { result.1 ≤ run_end (run_of_held self.now) * page_bytes }
    {
        gap_within(&self.blocks, self.first, self.pages, a)
    }

    /// Whether the `n` bytes from `a`, which is one of its addresses, lie in it and meet no live block.
    pub fn is_clear(&self, a: u64, n: u64) -> bool
        requires some { 1 ≤ n }
        requires above { self.now.first * page_bytes ≤ a }
        requires below { a < run_end (run_of_held self.now) * page_bytes }
        ensures { result ≡ (lies_in (run_of_held self.now) a (a + n) && list_all (λ c. blocks_apart c (block_at a n)) (live_of_held self.now)) }
    {
        let (low, high) = self.gap(a);
        lies_between(low, high, a, n)
    }

    /// The same, where a block that begins at `a` is left aside.
    pub fn is_clear_but(&self, a: u64, n: u64) -> bool
        requires some { 1 ≤ n }
        requires above { self.now.first * page_bytes ≤ a }
        requires below { a < run_end (run_of_held self.now) * page_bytes }
        ensures { result ≡ (lies_in (run_of_held self.now) a (a + n) && list_all (λ c. (c.first == a) || blocks_apart c (block_at a n)) (live_of_held self.now)) }
    {
        let (low, _) = self.gap(a);
        let (_, high) = self.gap(a + 1);
        lies_between(low, high, a, n)
    }

    /// Whether the `n` bytes from `a`, which is one of its addresses and a multiple of `al`, are at the front of an idle run
    /// of it, where the freed block is idle too or counts as live.
    pub fn is_at_front(&self, freed: Option<Extent>, a: u64, n: u64, al: u64) -> bool
        requires some { 1 ≤ n }
        requires whole { 1 ≤ al }
        requires aligned { a % al ≡ 0 }
        requires above { self.now.first * page_bytes ≤ a }
        requires below { a < run_end (run_of_held self.now) * page_bytes }
        requires byte { IfSome freed (λ e. 1 ≤ e.len) }
        requires fits { IfSome freed (λ e. e.first + e.len ≤ far) }
        ensures { result ≡ (is_front_of (run_of_held self.now) (live_of_held self.now) (block_at a n) al || is_front_of (run_of_held self.now) (option_to_list (option_map block_of freed) ++ live_of_held self.now) (block_at a n) al) }
    {
        let (low, high) = self.gap(a);
        if is_near(low, high, a, n, al) {
            return true;
        }
        match freed {
            None => false,
            Some(freed) => {
                if freed.first < a {
                    is_near(low.max(freed.first + freed.len), high, a, n, al)
                } else {
                    is_near(low, high.min(freed.first), a, n, al)
                }
            }
        }
    }

    /// Whether some idle run of it has room for `n` bytes at `al`. It passes over the blocks once, and where no idle run is known
    /// to have so many bytes, over none.
    pub fn has_room(&self, n: u64, al: u64) -> bool
        requires some { 1 ≤ n }
        requires whole { 1 ≤ al }
        ensures { result ≡ some_room (run_of_held self.now) (live_of_held self.now) n al }
    {
        if self.most < n {
            return false;
        }
        let end = (self.first + self.pages) * PAGE;
        let mut x = self.first * PAGE;
        while x < end {
            let (_, high) = self.blocks.gap(x);
            if fits_below(x, high.min(end), n, al) {
                return true;
            }
            if end <= high {
                return false;
            }
            let Some(size) = self.blocks.find(high) else {
                return false;
            };
            x = high + size;
        }
        false
    }

    /// Adds a block that lies in it and is apart from the others.
    pub fn add(&mut self, a: u64, n: u64) -> Result<(), AllocError>
        requires some { 1 ≤ n }
        requires lies { IsTrue (lies_in (run_of_held self.old) a (a + n)) }
        requires apart { IsTrue (list_all (λ c. blocks_apart c (block_at a n)) (live_of_held self.old)) }
        ensures run { run_of_held self.new ≡ run_of_held self.old }
        ensures ok { OnOk result (live_of_held self.new ≡ add_block (block_at a n) (live_of_held self.old)) }
        ensures err { OnErr result (live_of_held self.new ≡ live_of_held self.old) }
    {
        self.blocks.insert(a, n)?;
        self.used += n;
        Ok(())
    }

    /// Takes out the block of `n` bytes at `a`.
    pub fn remove(&mut self, a: u64, n: u64)
        requires { IsTrue (has_block (live_of_held self.old) (block_at a n)) }
        ensures run { run_of_held self.new ≡ run_of_held self.old }
        ensures blocks { live_of_held self.new ≡ drop_block (block_at a n) (live_of_held self.old) }
    {
        self.blocks.remove(a, n);
        self.used -= n;
        let (low, high) = gap_within(&self.blocks, self.first, self.pages, a);
        self.most = self.most.max(high.saturating_sub(low));
    }

    /// Gives the block of `n` bytes at `a` another size, at which it lies in the run and is apart from the others still.
    pub fn resize(&mut self, a: u64, n: u64, m: u64) -> Result<(), AllocError>
        requires there { IsTrue (has_block (live_of_held self.old) (block_at a n)) }
        requires some { 1 ≤ m }
        requires lies { IsTrue (lies_in (run_of_held self.old) a (a + m)) }
        requires apart { IsTrue (list_all (λ c. (c.first == a) || blocks_apart c (block_at a m)) (live_of_held self.old)) }
        ensures run { run_of_held self.new ≡ run_of_held self.old }
        ensures ok { OnOk result (live_of_held self.new ≡ add_block (block_at a m) (drop_block (block_at a n) (live_of_held self.old))) }
        ensures err { OnErr result (live_of_held self.new ≡ live_of_held self.old) }
    {
        self.blocks.resize(a, n, m)?;
        self.used = self.used - n + m;
        let (low, high) = gap_within(&self.blocks, self.first, self.pages, a + 1);
        self.most = self.most.max(high.saturating_sub(low));
        Ok(())
    }

    /// A request for `n` bytes found no room. Where no idle run has so many bytes, later searches for as many need no pass.
    pub fn learn(&mut self, n: u64)
        requires { 1 ≤ n }
        ensures run { run_of_held self.new ≡ run_of_held self.old }
        ensures blocks { live_of_held self.new ≡ live_of_held self.old }
        ensures used { self.new.used ≡ self.old.used }
    {
        if n <= self.most && !self.has_room(n, 1) {
            self.most = n - 1;
        }
    }

    /// Appends the blocks in order of their addresses. Where memory is wanted, some of them are there.
    pub fn push_to(&self, list: &mut Vec<Extent>) -> Result<(), AllocError>
        ensures { OnOk result (map block_of list.new.items ≡ map block_of list.old.items ++ live_of_held self.now) }
    {
        self.blocks.push_to(list)
    }
}
