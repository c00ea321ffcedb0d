//! The calls on many blocks.
ghost use Rattle.std.specs.Prelude.{◌≡◌, ◌*◌, ◌+◌, ◌≤◌, ◌++◌, List, vec_len, length};
ghost use Rattle.std.specs.Vec.{vec_capacity};
ghost use Rattle.mz_zone.specs.Blocks.{BlockView};
ghost use Rattle.mz_zone.specs.Calling.{seen, CanCall, KeepsReferences};
ghost use Rattle.mz_zone.specs.Batches.{AnswersBatch, AreHandedIn, FreesBatch};

use crate::at::At;
use crate::block::Block;
use crate::fault::NotLiveBlock;
use crate::laws::{of_book, of_zones};
use crate::zone::Zone;
use mz_book::Book;
use mz_rack::{Keeper, Null};
use std::sync::Wait;

impl Zone {
    /// Blocks of at least `n` bytes, until there are `count` more in `out`.
    pub fn batch_malloc<B: Book<Keeper>, R: Wait>(
        &self,
        rt: &R,
        at: &mut At<B>,
        n: u64,
        count: u64,
        out: &mut Vec<Block>,
    ) -> Result<(), Null>
        requires can { CanCall (seen B.account at.old) self.now.profile self.now.zone (40 * count) }
        requires room { vec_len out.old + count ≤ vec_capacity out.old }
        ensures references { KeepsReferences at.old at.new }
        ensures answers { (bs : List BlockView) × (out.new.items ≡ out.old.items ++ bs) × AnswersBatch (seen B.account at.old) self.now.zone n count bs result (seen B.account at.new) }
    {
        of_zones();
        for _ in 0..count {
            match self.malloc(rt, at, n) {
                Ok(block) => out.push_reserved(block),
                Err(null) => {
                    of_book(at.book);
                    return Err(null);
                }
            }
        }
        of_book(at.book);
        Ok(())
    }

    /// Ends blocks, from the first on, up to the first of another zone: that one comes back, and those behind it are left.
    pub fn batch_free<B: Book<Keeper>, R: Wait>(
        &self,
        rt: &R,
        at: &mut At<B>,
        all: &mut Vec<Block>,
    ) -> Result<(), NotLiveBlock>
        requires can { CanCall (seen B.account at.old) self.now.profile self.now.zone (40 * vec_len all.old) }
        requires blocks { AreHandedIn (seen B.account at.old) all.old.items }
        ensures references { KeepsReferences at.old at.new }
        ensures frees { FreesBatch (seen B.account at.old) self.now.zone all.old.items result all.new.items (seen B.account at.new) }
    {
        of_zones();
        of_book(at.book);
        // Each pop takes the last.
        all.reverse();
        while let Some(b) = all.pop() {
            b.keeps_its_place();
            let freed = self.free(rt, at, b);
            of_book(at.book);
            match freed {
                Ok(()) => {}
                Err(fault) => {
                    all.reverse();
                    return Err(fault);
                }
            }
        }
        Ok(())
    }
}
