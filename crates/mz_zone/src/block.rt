//! A block with its bytes.
ghost use Rattle.std.specs.Prelude.{◌≡◌, length};
ghost use Rattle.std.specs.Option.{option_map};
ghost use Rattle.std.specs.Borrow.{Lends, Array, sem, u8};
ghost use Rattle.mz_nano.specs.SlotViews.{IsPlaced};
ghost use Rattle.mz_zone.specs.Blocks.{of_lot, of_slot, with_block_bytes, IsAtItsSlot};
ghost use Rattle.mz_zone.specs.contracts.block.Block.{the_row};

use mz_nano::SlotSpan;
use mz_rack::Lot;
use std::fmt;
use std::marker::Model;

/// What a block is made of.
#[derive(Drop)]
pub(crate) enum Inner {
    /// A block of tiny, small or large.
    Lot(Lot),
    /// A block of nano.
    Slot(SlotSpan),
}

/// One block with its bytes, which nothing else can reach. Contracts see the number of its zone, its span, and its slot where it is
/// a block of nano.
#[derive(Drop)]
pub struct Block {
    pub(crate) inner: Inner,
}

impl Model for Block {
    ghost use Rattle.mz_zone.specs.Blocks.{BlockView};
    ghost use Rattle.mz_zone.specs.Inners.{view_of, IsSound};

    ghost Value = { BlockView };

    ghost view = { λ b. view_of b.inner };

    ghost invariant = { λ b. IsSound b.inner };
}

impl Block {
    /// The block of a lot.
    pub(crate) fn of_lot(lot: Lot) -> Block
        ensures { result ≡ of_lot lot }
    {
        Block {
            inner: Inner::Lot(lot),
        }
    }

    /// The block of a slot of nano.
    pub(crate) fn of_slot(slot: SlotSpan) -> Block
        requires { IsPlaced slot }
        ensures { result ≡ of_slot slot }
    {
        Block {
            inner: Inner::Slot(slot),
        }
    }

    /// The zone that served it. All of nano is of zone 0.
    pub fn zone(&self) -> u32
        ensures { result ≡ self.now.zone }
    {
        match &self.inner {
            Inner::Lot(lot) => lot.zone(),
            Inner::Slot(_) => 0,
        }
    }

    /// Its first address.
    pub fn first(&self) -> u64
        ensures { result ≡ self.now.span.first }
    {
        match &self.inner {
            Inner::Lot(lot) => lot.first(),
            Inner::Slot(slot) => slot.first(),
        }
    }

    /// How many bytes it has.
    pub fn size(&self) -> u64
        ensures { result ≡ length self.now.span.bytes }
    {
        self.bytes().len() as u64
    }

    /// Where it is a block of nano, the number of its nano block and of its slot there.
    pub fn slot(&self) -> Option<(u64, u64)>
        ensures { result ≡ option_map (λ h. (h.block, h.slot)) self.now.slot }
    {
        match &self.inner {
            Inner::Lot(_lot) => None,
            Inner::Slot(slot) => Some((slot.block(), slot.slot())),
        }
    }

    /// Its bytes.
    pub fn bytes(&self) -> &[u8]
        ensures { result.now ≡ self.now.span.bytes }
    {
        match &self.inner {
            Inner::Lot(lot) => lot.bytes(),
            Inner::Slot(slot) => slot.bytes(),
        }
    }

    /// Its bytes, to be written.
    pub fn bytes_mut(&mut self) -> &mut [u8]
        ensures* writes_back { sem 𝓛
            (Lends the_row (Array u8 0) self.entry result (with_block_bytes self.old)) }
        ensures value { result.now ≡ self.old.span.bytes }
    {
        match &mut self.inner {
            Inner::Lot(lot) => lot.bytes_mut(),
            Inner::Slot(slot) => slot.bytes_mut(),
        }
    }

    /// A block of nano is where its slot is.
    pub fn keeps_its_place(&self)
        ensures { IsAtItsSlot self.now }
    {
        // The struct's invariant is known of a value whose field is named, and an empty body names none.
        let _ = &self.inner;
    }
}

impl fmt::Debug for Block {
    /// Its zone, its first address and its size. What its bytes are isn't told.
    fn fmt<W: fmt::Write>(&self, f: &mut fmt::Formatter<W>) -> fmt::Result {
        f.debug_struct("Block")
            .field("zone", &self.zone())
            .field("first", &self.first())
            .field("size", &self.size())
            .finish()
    }
}
