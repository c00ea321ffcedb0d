//! The call that gives a block another size.
ghost use Rattle.std.specs.Prelude.{◌≡◌, ◌<◌, ◌≤◌, ◌++◌, length, drop, IfOk, IfSome};
ghost use Rattle.mz_zone.specs.Calling.{seen, CanCall, IsHandedIn, KeepsReferences};
ghost use Rattle.mz_zone.specs.Moving.{Reallocs};
ghost use Rattle.mz_zone.specs.Resizing.{StaysIf, MovesNow, MovesTo, CopiesInto};

use crate::at::At;
use crate::block::{Block, Inner};
use crate::fault::ReallocFault;
use crate::laws::{of_book, of_zones};
use crate::zone::Zone;
use mz_base::units;
use mz_book::Book;
use mz_rack::Keeper;
use std::sync::Wait;

impl Zone {
    /// Gives a block room for `n` bytes.
    pub fn realloc<B: Book<Keeper>, R: Wait>(
        &self,
        rt: &R,
        at: &mut At<B>,
        b: Option<Block>,
        n: u64,
    ) -> Result<Block, ReallocFault>
        requires can { CanCall (seen B.account at.old) self.now.profile self.now.zone 40 }
        requires block { IfSome b (IsHandedIn (seen B.account at.old)) }
        ensures references { KeepsReferences at.old at.new }
        ensures reallocs { Reallocs (seen B.account at.old) self.now.zone b n result (seen B.account at.new) }
        ensures handed { IfOk result (IsHandedIn (seen B.account at.new)) }
    {
        of_zones();
        let Some(mut b) = b else {
            return match self.malloc(rt, at, n) {
                Ok(block) => Ok(block),
                Err(null) => Err(ReallocFault::Null { block: None, null }),
            };
        };
        if b.zone() != self.zone {
            return match self.free(rt, at, b) {
                Ok(()) => unreachable!(),
                Err(fault) => Err(ReallocFault::NotLive(fault)),
            };
        }
        if self.stays(rt, at, &mut b, n) {
            return Ok(b);
        }
        self.move_on(rt, at, b, n)
    }

    // Gives the block room for `n` bytes where it is, if it has it there.
    fn stays<B: Book<Keeper>, R: Wait>(&self, rt: &R, at: &mut At<B>, b: &mut Block, n: u64) -> bool
        requires can { CanCall (seen B.account at.old) self.now.profile self.now.zone 40 }
        requires block { IsHandedIn (seen B.account at.old) b.old }
        requires of_zone { b.old.zone ≡ self.now.zone }
        ensures references { KeepsReferences at.old at.new }
        ensures stays { StaysIf (seen B.account at.old) b.old n result b.new (seen B.account at.new) }
    {
        of_zones();
        if n == 0 {
            return false;
        }
        match &mut b.inner {
            Inner::Lot(lot) => self.rack.resize(rt, at.book, lot, n),
            Inner::Slot(slot) => n <= 256 && units(n) == slot.class(),
        }
    }

    // Makes another block for `n` bytes, copies what it keeps, and ends the first.
    fn move_on<B: Book<Keeper>, R: Wait>(
        &self,
        rt: &R,
        at: &mut At<B>,
        b: Block,
        n: u64,
    ) -> Result<Block, ReallocFault>
        requires can { CanCall (seen B.account at.old) self.now.profile self.now.zone 40 }
        requires block { IsHandedIn (seen B.account at.old) b }
        requires of_zone { b.zone ≡ self.now.zone }
        requires moves { MovesNow (seen B.account at.old) b n }
        ensures references { KeepsReferences at.old at.new }
        ensures moves { MovesTo (seen B.account at.old) self.now.zone b n result (seen B.account at.new) }
    {
        of_zones();
        let mut new = match self.malloc(rt, at, n) {
            Ok(new) => new,
            Err(null) => {
                of_book(at.book);
                return Err(ReallocFault::Null {
                    block: Some(b),
                    null,
                });
            }
        };
        of_book(at.book);
        copy(&b, &mut new, n);
        match self.take_back(rt, at, b) {
            Ok(()) => {
                of_book(at.book);
                Ok(new)
            }
            Err(_fault) => unreachable!(),
        }
    }
}

// Copies the first `n` bytes, as many as there are.
fn copy(from: &Block, to: &mut Block, n: u64)
    requires { n ≤ length to.old.span.bytes }
    ensures { CopiesInto n from.now to.old to.new }
{
    let bytes = from.bytes();
    let len = bytes.len().min(n as usize);
    write_front(to.bytes_mut(), &bytes[..len]);
}

// Writes bytes over the first of others.
fn write_front(to: &mut [u8], from: &[u8])
    requires { length from.now ≤ length to.old }
    ensures { to.new ≡ from.now ++ drop (length from.now) to.old }
{
    to[..from.len()].copy_from_slice(from);
}
