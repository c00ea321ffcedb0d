//! A zone, and the calls that make blocks.
ghost use Rattle.std.specs.Prelude.{◌≡◌, ◌<◌, ◌≤◌, ◌++◌, ◌↔◌, length, replicate, drop, IfOk, IsTrue};
ghost use Rattle.std.specs.Coded.{Coded-set};
ghost use Rattle.std.specs.Int.{IsPowerOfTwo};
ghost use Rattle.mz_base.specs.Limits.{IsWithinLimits, IsFrom};
ghost use Rattle.mz_base.specs.Codes.{limits_once};
ghost use Rattle.mz_base.specs.Sizes.{good_size_within};
ghost use Rattle.mz_zone.specs.Profiles.{profile_code};
ghost use Rattle.mz_zone.specs.Calling.{seen, CanCall, KeepsReferences};
ghost use Rattle.mz_zone.specs.Blocks.{with_block_bytes};
ghost use Rattle.mz_zone.specs.Answering.{Answers, Callocs, IsAlignment, Memaligns};

use crate::at::At;
use crate::block::Block;
use crate::fault::{AlignFault, CallocFault};
use crate::laws::of_zones;
use crate::nano::{QUANTUM, try_nano};
use mz_base::{PAGE, Profile};
use mz_book::Book;
use mz_rack::{Keeper, Null, Rack};
use std::alloc::{AllocError, Global};
use std::sync::Wait;

/// A zone.
#[derive(Drop)]
pub struct Zone {
    pub(crate) rack: Rack,
    pub(crate) profile: Profile,
    pub(crate) zone: u32,
    ghost limits: { IsWithinLimits profile } by { limits_once profile },
    ghost of_profile: { rack.profile ≡ profile } by { Coded-set profile_code rack.profile profile },
    ghost of_zone: { rack.zone ≡ zone },
}

impl Zone {
    /// The zone of this number.
    pub fn new(alloc: Global, p: &Profile, zone: u32) -> Result<Zone, AllocError>
        requires limits { IsWithinLimits p.now }
        requires zone { zone < p.now.zones }
        ensures profile { IfOk result (λ z. z.profile ≡ p.now) }
        ensures zone { IfOk result (λ z. z.zone ≡ zone) }
    {
        let rack = Rack::new(alloc, p, zone)?;
        Ok(Zone {
            rack,
            profile: *p,
            zone,
        })
    }

    /// The least size of a block that serves a request of `n` bytes: its good size, where there can be a block of that size. Any
    /// block but a large one has just that; a cached run serves as a whole, and may have more.
    pub fn good_size(&self, n: u64) -> Option<u64>
        ensures { result ≡ good_size_within self.now.profile n }
    {
        mz_base::good_size(&self.profile, n)
    }

    /// A block of at least `n` bytes.
    pub fn malloc<B: Book<Keeper>, R: Wait>(
        &self,
        rt: &R,
        at: &mut At<B>,
        n: u64,
    ) -> Result<Block, Null>
        requires can { CanCall (seen B.account at.old) self.now.profile self.now.zone 40 }
        ensures references { KeepsReferences at.old at.new }
        ensures answers { Answers (seen B.account at.old) self.now.zone n 16 result (seen B.account at.new) }
    {
        self.serve(rt, at, n, QUANTUM)
    }

    /// A block of at least `n` bytes at the start of a page.
    pub fn valloc<B: Book<Keeper>, R: Wait>(
        &self,
        rt: &R,
        at: &mut At<B>,
        n: u64,
    ) -> Result<Block, Null>
        requires can { CanCall (seen B.account at.old) self.now.profile self.now.zone 40 }
        ensures references { KeepsReferences at.old at.new }
        ensures answers { Answers (seen B.account at.old) self.now.zone n 16384 result (seen B.account at.new) }
    {
        self.serve(rt, at, n, PAGE)
    }

    /// A block for `n` items of `m` bytes, all 0.
    pub fn calloc<B: Book<Keeper>, R: Wait>(
        &self,
        rt: &R,
        at: &mut At<B>,
        n: u64,
        m: u64,
    ) -> Result<Block, CallocFault>
        requires can { CanCall (seen B.account at.old) self.now.profile self.now.zone 40 }
        ensures references { KeepsReferences at.old at.new }
        ensures answers { Callocs (seen B.account at.old) self.now.zone n m result (seen B.account at.new) }
    {
        of_zones();
        let Some(len) = n.checked_mul(m) else {
            return Err(CallocFault::Overflow);
        };
        match self.serve(rt, at, len, QUANTUM) {
            Ok(mut block) => {
                clear(&mut block, len);
                Ok(block)
            }
            Err(null) => Err(CallocFault::Null(null)),
        }
    }

    /// A block of at least `n` bytes at an alignment.
    pub fn memalign<B: Book<Keeper>, R: Wait>(
        &self,
        rt: &R,
        at: &mut At<B>,
        al: u64,
        n: u64,
    ) -> Result<Block, AlignFault>
        requires can { CanCall (seen B.account at.old) self.now.profile self.now.zone 40 }
        ensures references { KeepsReferences at.old at.new }
        ensures answers { Memaligns (seen B.account at.old) self.now.zone al n result (seen B.account at.new) }
    {
        if !is_alignment(al) {
            return Err(AlignFault::BadAlign);
        }
        match self.serve(rt, at, n, al.max(QUANTUM)) {
            Ok(block) => Ok(block),
            Err(null) => Err(AlignFault::Null(null)),
        }
    }

    // Serves a request, by nano where it is one for it.
    pub(crate) fn serve<B: Book<Keeper>, R: Wait>(
        &self,
        rt: &R,
        at: &mut At<B>,
        n: u64,
        al: u64,
    ) -> Result<Block, Null>
        requires can { CanCall (seen B.account at.old) self.now.profile self.now.zone 40 }
        requires power { IsPowerOfTwo al }
        requires range { IsFrom 16 16384 al }
        ensures references { KeepsReferences at.old at.new }
        ensures answers { Answers (seen B.account at.old) self.now.zone n al result (seen B.account at.new) }
    {
        of_zones();
        if let Some(slot) = try_nano(rt, at, self.zone, n, al) {
            return Ok(Block::of_slot(slot));
        }
        match self.rack.alloc(rt, at.book, n, al) {
            Ok(lot) => Ok(Block::of_lot(lot)),
            Err(null) => Err(null),
        }
    }
}

// Whether this may be asked for as an alignment.
fn is_alignment(al: u64) -> bool
    ensures { IsTrue result ↔ IsAlignment al }
{
    if al < 8 || al > PAGE {
        return false;
    }
    al.next_power_of_two() == al
}

// Makes the first `n` bytes 0.
fn clear(block: &mut Block, n: u64)
    requires { n ≤ length block.old.span.bytes }
    ensures { block.new ≡ with_block_bytes block.old (replicate n 0 ++ drop n block.old.span.bytes) }
{
    clear_front(block.bytes_mut(), n as usize);
}

// Makes the first `n` of these bytes 0.
fn clear_front(bytes: &mut [u8], n: usize)
    requires { n ≤ length bytes.old }
    ensures { bytes.new ≡ replicate n 0 ++ drop n bytes.old }
{
    bytes[..n].fill(0);
}
