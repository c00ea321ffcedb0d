//! The commands that end blocks.

ghost use Rattle.std.specs.Prelude.{◌≡◌, ◌<◌, [], ◌∷◌, IfOk, IfSome, OnOk};
ghost use Rattle.mz_lines.specs.declared.command.Command.TheVariants as command;
ghost use Rattle.mz_words.specs.declared.count.TheConstants.{MOST_IN_BATCH};
ghost use Rattle.mz_session.specs.Names.{IsBehind, IsFirstInBatch};
ghost use Rattle.mz_session.specs.Sessions.{Keeps, IsKept};
ghost use Rattle.mz_session.specs.Serving.{Ends, EndsOfSize, Serves};

use crate::calling::{Free, FreeBatchOfOne, FreeOfSize};
use crate::laws::{of_book, of_sessions};
use crate::session::Session;
use mz_events::laws::separation::live_bytes_fit_the_space;
use mz_trace::Answer;
use mz_words::{BaseName, BatchIndex, BatchName, BlockName, Name};
use mz_zone::{Block, SizeFault};
use std::alloc::AllocError;
use std::sync::Wait;

impl Session {
    /// Ends the block that has the name. After want of memory the session may be any.
    pub fn free<R: Wait>(&mut self, rt: &R, name: BlockName) -> Result<Answer, AllocError>
        requires { IsKept self.old }
        ensures { IfOk result (λ answer. Serves self.old (command.Free name) answer self.new) }
    {
        let Some(block) = self.take(&name.get()) else {
            return Ok(Answer::NotHeld);
        };
        self.end(rt, block)?;
        Ok(Answer::Done)
    }

    /// Ends the block of the caller that begins `off` bytes behind the start of the named one. After want of memory the session may
    /// be any.
    pub fn free_at<R: Wait>(
        &mut self,
        rt: &R,
        name: BlockName,
        off: u64,
    ) -> Result<Answer, AllocError>
        requires { IsKept self.old }
        ensures { IfOk result (λ answer. Serves self.old (command.FreeAt name off) answer self.new) }
    {
        let Some(there) = self.name_behind(&name.get(), off) else {
            return Ok(Answer::NotHeld);
        };
        let Some(block) = self.take(&there) else {
            unreachable!();
        };
        self.end(rt, block)?;
        Ok(Answer::Done)
    }

    /// Ends the block that has the name, where it can have been asked for with `n` bytes. After want of memory the session may be
    /// any.
    pub fn free_of_size<R: Wait>(
        &mut self,
        rt: &R,
        name: BlockName,
        n: u64,
    ) -> Result<Answer, AllocError>
        requires { IsKept self.old }
        ensures { IfOk result (λ answer. Serves self.old (command.SizedFree name n) answer self.new) }
    {
        let name = name.get();
        let Some(block) = self.take(&name) else {
            return Ok(Answer::NotHeld);
        };
        match self.end_of_size(rt, block, n)? {
            Ok(()) => Ok(Answer::Done),
            Err(SizeFault::WrongSize { block, held }) => {
                self.put(name, block)?;
                Ok(Answer::WrongSize { s: held })
            }
            Err(SizeFault::NotLive(_)) => unreachable!(),
        }
    }

    /// Ends the blocks of the batch, by number. After want of memory the session may be any.
    pub fn unbatch<R: Wait>(&mut self, rt: &R, name: BaseName) -> Result<Answer, AllocError>
        requires { IsKept self.old }
        ensures { IfOk result (λ answer. Serves self.old (command.Unbatch name) answer self.new) }
    {
        of_sessions();
        let mut freed = 0;
        while let Some(index) = self.first_of(&name) {
            let Some(block) = self.take(&Name::Batch(BatchName { base: name, index })) else {
                unreachable!();
            };
            self.end_of_batch(rt, block)?;
            self.is_lawful();
            freed += 1;
        }
        Ok(Answer::Freed { n: freed })
    }

    // The least number of a block of the batch.
    fn first_of(&self, name: &BaseName) -> Option<BatchIndex>
        ensures first { IsFirstInBatch self.now.blocks name.now result }
        ensures limit { IfSome result (λ i. i < MOST_IN_BATCH) }
    {
        let first = self.blocks.first_in_batch(name)?;
        let _number = first.number();
        Some(first)
    }

    // The name whose block begins `off` bytes behind the start of the named one.
    fn name_behind(&self, name: &Name, off: u64) -> Option<Name>
        requires { IsKept self.now }
        ensures { IsBehind self.now.blocks name.now off result }
    {
        live_bytes_fit_the_space();
        of_sessions();
        of_book(&self.book);
        let block = self.blocks.get(name)?;
        let address = block.first().checked_add(off)?;
        self.blocks.name_from(address)
    }

    // Ends a block of the caller.
    fn end<R: Wait>(&mut self, rt: &R, block: Block) -> Result<(), AllocError>
        requires { Keeps self.old (block ∷ []) }
        ensures { OnOk result (Ends self.old block self.new) }
    {
        of_sessions();
        match self.ask(rt, Free { block })? {
            Ok(()) => Ok(()),
            Err(_not_live) => unreachable!(),
        }
    }

    // Ends a block of the caller, as a batch of one.
    fn end_of_batch<R: Wait>(&mut self, rt: &R, block: Block) -> Result<(), AllocError>
        requires { Keeps self.old (block ∷ []) }
        ensures { OnOk result (Ends self.old block self.new) }
    {
        of_sessions();
        let all = Vec::with_capacity(*self.parcels.allocator(), 1)?;
        match self.ask(rt, FreeBatchOfOne { block, all })? {
            Ok(()) => Ok(()),
            Err(_not_live) => unreachable!(),
        }
    }

    // Ends a block of the caller where it can have been asked for with `n` bytes.
    fn end_of_size<R: Wait>(
        &mut self,
        rt: &R,
        block: Block,
        n: u64,
    ) -> Result<Result<(), SizeFault>, AllocError>
        requires { Keeps self.old (block ∷ []) }
        ensures { IfOk result (λ got. EndsOfSize self.old block n got self.new) }
    {
        of_sessions();
        let got = self.ask(rt, FreeOfSize { block, n })?;
        Ok(got)
    }
}
