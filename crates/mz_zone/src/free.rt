//! The calls that end blocks.
ghost use Rattle.std.specs.Prelude.{◌↔◌, IsTrue};
ghost use Rattle.mz_nano.specs.SlotViews.{IsPlaced};
ghost use Rattle.mz_zone.specs.Blocks.{of_slot};
ghost use Rattle.mz_zone.specs.Calling.{seen, CanCall, IsHandedIn, KeepsReferences};
ghost use Rattle.mz_zone.specs.Freeing.{Frees, FreesOfSize, IsWrongSize};

use crate::at::At;
use crate::block::{Block, Inner};
use crate::fault::{NotLiveBlock, SizeFault};
use crate::laws::{of_book, of_zones};
use crate::nano::{end_block, put_back};
use crate::zone::Zone;
use mz_base::route;
use mz_book::Book;
use mz_events::{Event, Place};
use mz_nano::SlotSpan;
use mz_rack::Keeper;
use std::sync::Wait;

impl Zone {
    /// Ends a block of the zone.
    pub fn free<B: Book<Keeper>, R: Wait>(
        &self,
        rt: &R,
        at: &mut At<B>,
        b: Block,
    ) -> Result<(), NotLiveBlock>
        requires can { CanCall (seen B.account at.old) self.now.profile self.now.zone 40 }
        requires block { IsHandedIn (seen B.account at.old) b }
        ensures references { KeepsReferences at.old at.new }
        ensures frees { Frees (seen B.account at.old) self.now.zone b result (seen B.account at.new) }
    {
        self.take_back(rt, at, b)
    }

    // Ends a block of the zone, where there is room for its end and the duties that this calls for.
    pub(crate) fn take_back<B: Book<Keeper>, R: Wait>(
        &self,
        rt: &R,
        at: &mut At<B>,
        b: Block,
    ) -> Result<(), NotLiveBlock>
        requires can { CanCall (seen B.account at.old) self.now.profile self.now.zone 3 }
        requires block { IsHandedIn (seen B.account at.old) b }
        ensures references { KeepsReferences at.old at.new }
        ensures frees { Frees (seen B.account at.old) self.now.zone b result (seen B.account at.new) }
    {
        of_zones();
        match b.inner {
            Inner::Lot(lot) => match self.rack.free(rt, at.book, lot) {
                Ok(()) => Ok(()),
                Err(fault) => Err(NotLiveBlock {
                    block: Block::of_lot(fault.lot),
                    ticket: fault.ticket,
                }),
            },
            Inner::Slot(slot) => self.free_slot(rt, at, slot),
        }
    }

    // Ends a block of nano, and pushes its slot; or says that it is of another zone than this.
    fn free_slot<B: Book<Keeper>, R: Wait>(
        &self,
        rt: &R,
        at: &mut At<B>,
        slot: SlotSpan,
    ) -> Result<(), NotLiveBlock>
        requires can { CanCall (seen B.account at.old) self.now.profile self.now.zone 3 }
        requires block { IsHandedIn (seen B.account at.old) (of_slot slot) }
        requires placed { IsPlaced slot }
        ensures references { KeepsReferences at.old at.new }
        ensures frees { Frees (seen B.account at.old) self.now.zone (of_slot slot) result (seen B.account at.new) }
    {
        of_zones();
        of_book(at.book);
        if self.zone != 0 {
            let ticket = at.book.note(Event::No {
                k: Place::Nano,
                zone: self.zone,
                a: slot.first(),
                s: 16 * slot.class(),
            });
            return Err(NotLiveBlock {
                block: Block::of_slot(slot),
                ticket,
            });
        }
        let Some(both) = &mut at.nano else {
            unreachable!()
        };
        end_block(at.book, &slot);
        put_back(rt, both.0, both.1, slot);
        Ok(())
    }

    /// Ends a block of the zone that has the size `n`.
    pub fn free_definite_size<B: Book<Keeper>, R: Wait>(
        &self,
        rt: &R,
        at: &mut At<B>,
        b: Block,
        n: u64,
    ) -> Result<(), SizeFault>
        requires can { CanCall (seen B.account at.old) self.now.profile self.now.zone 40 }
        requires block { IsHandedIn (seen B.account at.old) b }
        ensures references { KeepsReferences at.old at.new }
        ensures frees { FreesOfSize (seen B.account at.old) self.now.zone b n result (seen B.account at.new) }
    {
        if b.zone() == self.zone && is_wrong_size(&b, n) {
            let held = b.size();
            return Err(SizeFault::WrongSize { block: b, held });
        }
        match self.free(rt, at, b) {
            Ok(()) => Ok(()),
            Err(fault) => Err(SizeFault::NotLive(fault)),
        }
    }
}

// Whether the block can't have the size `n`.
fn is_wrong_size(b: &Block, n: u64) -> bool
    ensures { IsTrue result ↔ IsWrongSize b.now n }
{
    let held = b.size();
    held < n || route(n) != route(held)
}
