//! Live blocks by address.
ghost use Rattle.std.specs.Prelude.{◌≡◌, ◌+◌, ◌/◌, ◌^◌, ◌<◌, ◌≤◌, [], length, true, false, IsTrue, IfOk, MatchOption};
ghost use Rattle.std.specs.Bool.{MatchBool};
ghost use Rattle.std.specs.List.{list_any, list_all};
ghost use Rattle.mz_base.specs.declared.range.TheConstants.{PAGE};
ghost use Rattle.mz_base.specs.Space.{block_at, block_end, blocks_apart, run_at};
ghost use Rattle.mz_base.specs.Lists.{has_block, add_block, drop_block, size_at};
ghost use Rattle.mz_events.specs.Separation.{has_page};
ghost use Rattle.mz_events.specs.Changes.{run_of};
ghost use Rattle.mz_large.specs.Blocks.{IsPaged, IsPlaceOf, IsPlaceBehind};

use mz_base::PAGE;
use mz_ground::Span;
use std::alloc::{AllocError, Global};
use std::marker::Model;

/// A block: its first address and its size, in bytes.
#[derive(Clone, Copy, Drop)]
pub(crate) struct Block {
    pub(crate) first: u64,
    pub(crate) size: u64,
}

impl Model for Block {
    ghost use Rattle.mz_base.specs.Space.{Block as block};

    ghost Value = { block };

    ghost view = { λ s. record { first = s.first; size = s.size } };

    ghost inverse = { λ v. record { first = v.first; size = v.size } };
}

impl Block {
    /// The bytes of a span.
    pub(crate) fn of(s: &Span) -> Block
        ensures value { result ≡ block_at s.now.first (length s.now.bytes) }
        ensures small { block_end result < 2 ^ 63 }
    {
        Block {
            first: s.first(),
            size: s.len(),
        }
    }
}

/// Live blocks of whole pages, by address. Contracts see them, and for how many there is room.
#[derive(Drop)]
pub(crate) struct Live {
    items: Vec<Block>,
    room: u64,
}

impl Model for Live {
    ghost use Rattle.mz_large.specs.Blocks.{BlocksView, blocks_code};

    ghost Value = { BlocksView };

    ghost coded = { blocks_code };

    ghost use Rattle.std.specs.Prelude.{◌^◌, ◌≤◌, vec_capacity};
    ghost use Rattle.mz_large.specs.Blocks.{IsTiled};

    ghost view = { λ l. record { room = l.room; blocks = l.items.items } };

    ghost invariant = { λ l. IsTiled (2 ^ 63) 0 l.items.items × (l.room ≤ vec_capacity l.items) };
}

impl Live {
    /// No blocks, and room for so many. All memory is taken here.
    pub(crate) fn make(alloc: Global, room: u64) -> Result<Live, AllocError>
        ensures { IfOk result (λ l. l ≡ record { room = room; blocks = [] }) }
    {
        let items = Vec::with_capacity(alloc, room as usize)?;
        Ok(Live { items, room })
    }

    /// How many blocks there are.
    pub(crate) fn len(&self) -> u64
        ensures { result ≡ length self.now.blocks }
    {
        self.items.len() as u64
    }

    /// The size of the block that begins at the address `a`, and 0 where none does.
    pub(crate) fn size_at(&self, a: u64) -> u64
        ensures { result ≡ size_at self.now.blocks a }
    {
        let place = self.place(a);
        if place < self.items.len() && self.items[place].first == a {
            self.items[place].size
        } else {
            0
        }
    }

    /// The block in whose run a page is.
    pub(crate) fn holding(&self, page: u64) -> Option<Block>
        ensures { MatchOption result (list_any (λ b. has_page (run_of b) page) self.now.blocks ≡ false)
            (λ b. (has_block self.now.blocks b ≡ true) × (has_page (run_of b) page ≡ true)) }
    {
        let behind = self.behind(page);
        if behind == 0 {
            return None;
        }
        let block = self.items[behind - 1];
        if page - block.first / PAGE < block.size / PAGE {
            Some(block)
        } else {
            None
        }
    }

    /// Adds a block at its place.
    pub(crate) fn insert(&mut self, b: Block)
        requires room { length self.old.blocks < self.old.room }
        requires paged { IsPaged b }
        requires small { block_end b < 2 ^ 63 }
        requires apart { IsTrue (list_all (λ c. blocks_apart c b) self.old.blocks) }
        ensures { self.new ≡ record self.old { blocks = add_block b self.old.blocks } }
    {
        let place = self.place(b.first);
        match self.items.insert(place, b) {
            Ok(()) => {}
            Err(_) => unreachable!(),
        }
    }

    /// Drops a block, or answers false where it isn't there.
    pub(crate) fn remove(&mut self, b: Block) -> bool
        ensures { MatchBool result
            ((has_block self.old.blocks b ≡ true) × (self.new ≡ record self.old { blocks = drop_block b self.old.blocks }))
            ((has_block self.old.blocks b ≡ false) × (self.new ≡ self.old)) }
    {
        let place = self.place(b.first);
        if place >= self.items.len() {
            return false;
        }
        let there = self.items[place];
        if there.first != b.first || there.size != b.size {
            return false;
        }
        self.items.remove(place);
        true
    }

    // The place of a block with this first address.
    fn place(&self, first: u64) -> usize
        ensures { IsPlaceOf self.now.blocks first result }
    {
        self.items.partition_point(|b| b.first < first)
    }

    // The place behind the blocks that begin in this page or before it.
    fn behind(&self, page: u64) -> usize
        ensures { IsPlaceBehind self.now.blocks page result }
    {
        self.items.partition_point(|b| b.first / PAGE <= page)
    }
}
