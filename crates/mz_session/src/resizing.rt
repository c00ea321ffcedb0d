//! The command that gives a block another size.

ghost use Rattle.std.specs.Prelude.{[], ◌∷◌, IfOk};
ghost use Rattle.mz_lines.specs.declared.command.Command.TheVariants as command;
ghost use Rattle.mz_session.specs.Sessions.{Keeps, IsKept};
ghost use Rattle.mz_session.specs.Serving.{RemakesOrNot, Serves, ServesResize, IsKeptOrBase};

use crate::calling::Realloc;
use crate::laws::of_sessions;
use crate::session::Session;
use mz_rack::Null;
use mz_trace::{Answer, Names, Renaming};
use mz_words::Name;
use mz_zone::{Block, ReallocFault};
use std::alloc::AllocError;
use std::sync::Wait;

impl Session {
    /// Gives a block `n` bytes and maybe another name, or makes one where there is none. After want of memory the session may be any.
    pub fn realloc<R: Wait>(
        &mut self,
        rt: &R,
        names: Renaming,
        n: u64,
    ) -> Result<Answer, AllocError>
        requires { IsKept self.old }
        ensures { IfOk result (λ answer. Serves self.old (command.Realloc names n) answer self.new) }
    {
        match names.get() {
            Names::Fresh { new } => self.malloc(rt, new, n),
            Names::Renamed { old, new } => self.resize(rt, &old, &Name::Base(new), n),
            Names::KeptBatch { name } => {
                let name = Name::Batch(name);
                self.resize(rt, &name, &name, n)
            }
            Names::KeptGiven { name } => {
                let name = Name::Given(name);
                self.resize(rt, &name, &name, n)
            }
        }
    }

    // Gives the block with the name `old` `n` bytes, and the name `new`.
    fn resize<R: Wait>(
        &mut self,
        rt: &R,
        old: &Name,
        new: &Name,
        n: u64,
    ) -> Result<Answer, AllocError>
        requires kept { IsKept self.old }
        requires new { IsKeptOrBase old.now new.now }
        ensures { IfOk result (λ answer. ServesResize self.old old.now new.now n answer self.new) }
    {
        if *new != *old && self.blocks.get(new).is_some() && self.blocks.get(old).is_some() {
            return Ok(Answer::Held);
        }
        of_sessions();
        let Some(block) = self.take(old) else {
            return Ok(Answer::NotHeld);
        };
        match self.remake(rt, block, n)? {
            Ok(block) => self.hold(*new, block),
            Err((block, _null)) => {
                self.put(*old, block)?;
                Ok(Answer::Null)
            }
        }
    }

    // Gives a block of the caller `n` bytes, or gives it back.
    fn remake<R: Wait>(
        &mut self,
        rt: &R,
        block: Block,
        n: u64,
    ) -> Result<Result<Block, (Block, Null)>, AllocError>
        requires { Keeps self.old (block ∷ []) }
        ensures { IfOk result (λ got. RemakesOrNot self.old block n got self.new) }
    {
        of_sessions();
        let got = self.ask(rt, Realloc { block, n })?;
        let fault = match got {
            Ok(block) => {
                block.keeps_its_place();
                return Ok(Ok(block));
            }
            Err(fault) => fault,
        };
        let ReallocFault::Null { block, null } = fault else {
            unreachable!();
        };
        let Some(block) = block else {
            unreachable!();
        };
        Ok(Err((block, null)))
    }
}
