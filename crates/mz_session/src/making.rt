//! The commands that make blocks.

ghost use Rattle.std.specs.Prelude.{◌≡◌, is_some, IfOk};
ghost use Rattle.mz_base.specs.declared.range.TheConstants.{PAGE};
ghost use Rattle.mz_lines.specs.declared.command.Command.TheVariants as command;
ghost use Rattle.mz_session.specs.Names.{block_with, HasSomeOfBatch};
ghost use Rattle.mz_session.specs.Sessions.{IsKept};
ghost use Rattle.mz_session.specs.Serving.{Makes, MakesCleared, MakesAligned, Serves};

use crate::calling::{BatchOfOne, Calloc, Malloc, Memalign, Valloc, is_placed};
use crate::laws::of_sessions;
use crate::session::Session;
use mz_rack::Null;
use mz_trace::Answer;
use mz_words::{BaseName, BatchCount, BatchIndex, BatchName, Name};
use mz_zone::{AlignFault, Block, CallocFault};
use std::alloc::AllocError;
use std::sync::Wait;

impl Session {
    /// Serves a request for a block of `n` bytes that is to have the name. After want of memory the session may be any.
    pub fn malloc<R: Wait>(&mut self, rt: &R, name: BaseName, n: u64) -> Result<Answer, AllocError>
        requires { IsKept self.old }
        ensures { IfOk result (λ answer. Serves self.old (command.Malloc name n) answer self.new) }
    {
        of_sessions();
        let name = Name::Base(name);
        if self.holds(&name) {
            return Ok(Answer::Held);
        }
        match self.make(rt, n)? {
            Ok(block) => self.hold(name, block),
            Err(_null) => Ok(Answer::Null),
        }
    }

    /// Serves a request for `n` times `m` bytes, all 0. After want of memory the session may be any.
    pub fn calloc<R: Wait>(
        &mut self,
        rt: &R,
        name: BaseName,
        n: u64,
        m: u64,
    ) -> Result<Answer, AllocError>
        requires { IsKept self.old }
        ensures { IfOk result (λ answer. Serves self.old (command.Calloc name n m) answer self.new) }
    {
        of_sessions();
        let name = Name::Base(name);
        if self.holds(&name) {
            return Ok(Answer::Held);
        }
        match self.make_cleared(rt, n, m)? {
            Ok(block) => self.hold(name, block),
            Err(CallocFault::Overflow) => Ok(Answer::Overflow),
            Err(CallocFault::Null(_null)) => Ok(Answer::Null),
        }
    }

    /// Serves a request for a block of `n` bytes at the start of a page. After want of memory the session may be any.
    pub fn valloc<R: Wait>(&mut self, rt: &R, name: BaseName, n: u64) -> Result<Answer, AllocError>
        requires { IsKept self.old }
        ensures { IfOk result (λ answer. Serves self.old (command.Valloc name n) answer self.new) }
    {
        of_sessions();
        let name = Name::Base(name);
        if self.holds(&name) {
            return Ok(Answer::Held);
        }
        match self.make_at_page(rt, n)? {
            Ok(block) => self.hold(name, block),
            Err(_null) => Ok(Answer::Null),
        }
    }

    /// Serves a request for a block of `n` bytes at a multiple of `al`. After want of memory the session may be any.
    pub fn memalign<R: Wait>(
        &mut self,
        rt: &R,
        name: BaseName,
        al: u64,
        n: u64,
    ) -> Result<Answer, AllocError>
        requires { IsKept self.old }
        ensures { IfOk result (λ answer. Serves self.old (command.Memalign name al n) answer self.new) }
    {
        of_sessions();
        let name = Name::Base(name);
        if self.holds(&name) {
            return Ok(Answer::Held);
        }
        match self.make_aligned(rt, al, n)? {
            Ok(block) => self.hold(name, block),
            Err(AlignFault::BadAlign) => Ok(Answer::BadAlign),
            Err(AlignFault::Null(_null)) => Ok(Answer::Null),
        }
    }

    /// Serves `count` requests for `n` bytes, up to the first for which there is no room. The blocks get the names of the batch, by
    /// number. After want of memory the session may be any.
    pub fn batch<R: Wait>(
        &mut self,
        rt: &R,
        name: BaseName,
        count: BatchCount,
        n: u64,
    ) -> Result<Answer, AllocError>
        requires { IsKept self.old }
        ensures { IfOk result (λ answer. Serves self.old (command.Batch name count n) answer self.new) }
    {
        of_sessions();
        if self.holds_some(&name, count) {
            return Ok(Answer::Held);
        }
        let mut got = 0;
        while got < count.number() {
            let Some(index) = BatchIndex::new(got) else {
                unreachable!();
            };
            let made = self.make_of_batch(rt, n)?;
            self.is_lawful();
            let Ok(block) = made else {
                return Ok(Answer::Got { n: got });
            };
            self.hold(Name::Batch(BatchName { base: name, index }), block)?;
            got += 1;
        }
        Ok(Answer::Got { n: got })
    }

    // Whether the name has a block.
    fn holds(&self, name: &Name) -> bool
        ensures { result ≡ is_some (block_with self.now.blocks name.now) }
    {
        self.blocks.get(name).is_some()
    }

    // Whether one of the first so many names of the batch has a block.
    fn holds_some(&self, name: &BaseName, count: BatchCount) -> bool
        ensures { HasSomeOfBatch self.now.blocks name.now count result }
    {
        match self.blocks.first_in_batch(name) {
            Some(first) => first.number() < count.number(),
            None => false,
        }
    }

    // A block of `n` bytes.
    fn make<R: Wait>(&mut self, rt: &R, n: u64) -> Result<Result<Block, Null>, AllocError>
        requires { IsKept self.old }
        ensures { IfOk result (λ got. Makes self.old n 16 got self.new) }
    {
        of_sessions();
        let got = self.ask(rt, Malloc { n })?;
        is_placed(&got);
        Ok(got)
    }

    // A block of `n` bytes, as a batch of one.
    fn make_of_batch<R: Wait>(&mut self, rt: &R, n: u64) -> Result<Result<Block, Null>, AllocError>
        requires { IsKept self.old }
        ensures { IfOk result (λ got. Makes self.old n 16 got self.new) }
    {
        of_sessions();
        let out = Vec::with_capacity(*self.parcels.allocator(), 1)?;
        let got = self.ask(rt, BatchOfOne { n, out })?;
        is_placed(&got);
        Ok(got)
    }

    // A block of `n` bytes at the start of a page.
    fn make_at_page<R: Wait>(&mut self, rt: &R, n: u64) -> Result<Result<Block, Null>, AllocError>
        requires { IsKept self.old }
        ensures { IfOk result (λ got. Makes self.old n PAGE got self.new) }
    {
        of_sessions();
        let got = self.ask(rt, Valloc { n })?;
        is_placed(&got);
        Ok(got)
    }

    // A block of `n` times `m` bytes, all 0.
    fn make_cleared<R: Wait>(
        &mut self,
        rt: &R,
        n: u64,
        m: u64,
    ) -> Result<Result<Block, CallocFault>, AllocError>
        requires { IsKept self.old }
        ensures { IfOk result (λ got. MakesCleared self.old n m got self.new) }
    {
        of_sessions();
        let got = self.ask(rt, Calloc { n, m })?;
        is_placed(&got);
        Ok(got)
    }

    // A block of `n` bytes at a multiple of `al`.
    fn make_aligned<R: Wait>(
        &mut self,
        rt: &R,
        al: u64,
        n: u64,
    ) -> Result<Result<Block, AlignFault>, AllocError>
        requires { IsKept self.old }
        ensures { IfOk result (λ got. MakesAligned self.old al n got self.new) }
    {
        of_sessions();
        let got = self.ask(rt, Memalign { al, n })?;
        is_placed(&got);
        Ok(got)
    }
}
