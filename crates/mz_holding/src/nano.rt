//! What a page of nano keeps.
ghost use Rattle.std.specs.Prelude.{◌≡◌, ◌==◌, ◌&&◌, ◌+◌, ◌%◌, ◌≤◌, nat_le, ◌++◌, length, map, OnOk, OnErr, IfOk, IfSome, IsTrue};
ghost use Rattle.std.specs.List.{list_all};
ghost use Rattle.mz_base.specs.declared.range.TheConstants.{PAGE as page_bytes};
ghost use Rattle.mz_base.specs.Space.{block_at, blocks_apart};
ghost use Rattle.mz_base.specs.Lists.{has_block as some_block, size_sum};
ghost use Rattle.mz_events.specs.declared.place.Place.TheVariants.{Nano as nano};
ghost use Rattle.mz_events.specs.State.{nothing_kept};
ghost use Rattle.mz_events.specs.Placement.{is_placed_in_nano};
ghost use Rattle.mz_events.specs.Changes.{with_block, without_block};
ghost use Rattle.mz_holding.specs.Gaps.{far};
ghost use Rattle.mz_holding.specs.HeldRuns.{block_of};
ghost use Rattle.mz_holding.specs.NanoPages.{IsSlotAmong};

use crate::blocks::Blocks;
use crate::extent::Extent;
use crate::held::lies_between;
use mz_base::PAGE;
use std::alloc::{AllocError, Global};
use std::marker::Model;

/// The live blocks of a page of nano, all of one size.
#[derive(Drop)]
pub struct NanoPage {
    blocks: Blocks,
    // The size of each block, where there are any.
    size: u64,
}

impl Model for NanoPage {
    ghost use Rattle.mz_events.specs.State.{Kept, nothing_kept};
    ghost use Rattle.mz_holding.specs.LiveBlocks.{live_of};
    ghost use Rattle.mz_holding.specs.NanoPages.{AllOfSize};

    ghost Value = { Kept };

    ghost view = { λ n. record nothing_kept { live = live_of n.blocks } };

    ghost invariant = { λ n. AllOfSize n.size (live_of n.blocks) };
}

impl NanoPage {
    /// No live block.
    pub fn new(alloc: Global) -> NanoPage
        ensures { result ≡ nothing_kept }
    {
        NanoPage {
            blocks: Blocks::new(alloc),
            size: 0,
        }
    }

    /// The same again.
    pub fn copy(&self) -> Result<NanoPage, AllocError>
        ensures { IfOk result (λ n. n ≡ self.now) }
    {
        Ok(NanoPage {
            blocks: self.blocks.copy()?,
            size: self.size,
        })
    }

    /// Whether it has no run of its own.
    pub fn has_no_runs(&self) -> bool
        ensures is { result ≡ (length self.now.runs == 0) }
        ensures always { IsTrue result }
    {
        let _size = self.size;
        true
    }

    /// Whether no block is live.
    pub fn has_no_blocks(&self) -> bool
        ensures { result ≡ (length self.now.live == 0) }
    {
        self.blocks.is_empty()
    }

    /// The bytes of its live blocks, where they can be told.
    pub fn used(&self) -> Option<u64>
        ensures { IfSome result (λ n. n ≡ size_sum self.now.live) }
    {
        (self.blocks.len() as u64).checked_mul(self.size)
    }

    /// Whether the block is live.
    pub fn has_block(&self, a: u64, n: u64) -> bool
        ensures { result ≡ some_block self.now.live (block_at a n) }
    {
        match self.blocks.find(a) {
            Some(size) => size == n,
            None => false,
        }
    }

    /// Whether the `n` bytes from `a` meet no live block.
    pub fn is_apart(&self, a: u64, n: u64) -> bool
        requires some { 1 ≤ n }
        requires fits { a + n ≤ far }
        ensures { result ≡ list_all (λ c. blocks_apart c (block_at a n)) self.now.live }
    {
        let (low, high) = self.blocks.gap(a);
        lies_between(low, high, a, n)
    }

    /// Whether nano would place a block of `n` bytes at `a`: on a whole slot, in a page of that size.
    pub fn is_placed(&self, a: u64, n: u64) -> bool
        requires { 1 ≤ n }
        ensures { result ≡ is_placed_in_nano self.now (block_at a n) }
    {
        is_whole_slot(a % PAGE, n) && self.is_of_size(n)
    }

    // Whether each of its blocks has the size.
    fn is_of_size(&self, n: u64) -> bool
        ensures { result ≡ list_all (λ c. c.size == n) self.now.live }
    {
        self.size == n || self.blocks.is_empty()
    }

    /// A block becomes live.
    pub fn add_block(&mut self, a: u64, n: u64) -> Result<(), AllocError>
        requires { IsSlotAmong self.old.live a n }
        ensures ok { OnOk result (self.new ≡ with_block (block_at a n) self.old) }
        ensures err { OnErr result (self.new ≡ self.old) }
    {
        self.blocks.insert(a, n)?;
        self.size = n;
        Ok(())
    }

    /// A live block ends.
    pub fn end_block(&mut self, a: u64, n: u64)
        requires { IsTrue (some_block self.old.live (block_at a n)) }
        ensures { self.new ≡ without_block nano (block_at a n) self.old }
    {
        self.blocks.remove(a, n);
    }

    /// Appends its live blocks, in order of their addresses. Where memory is wanted, some of them are there.
    pub fn push_to(&self, list: &mut Vec<Extent>) -> Result<(), AllocError>
        ensures { OnOk result (map block_of list.new.items ≡ map block_of list.old.items ++ self.now.live) }
    {
        self.blocks.push_to(list)
    }
}

// Whether the `n` bytes from the byte `x` of a page are a whole slot of it.
fn is_whole_slot(x: u64, n: u64) -> bool
    requires { 1 ≤ n }
    ensures { result ≡ ((x % n == 0) && nat_le (x + n) page_bytes) }
{
    x % n == 0 && n <= PAGE && x <= PAGE - n
}
