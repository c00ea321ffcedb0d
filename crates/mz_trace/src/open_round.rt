//! The round to which lines are still added.

ghost use Rattle.std.specs.Prelude.{◌≡◌, ◌<◌, ◌++◌, ◌∷◌, [], OnOk, OnErr, IfOk, length, slice_index_or, slice_set, replicate};

use crate::round::Round;
use mz_base::Items;
use mz_lines::{Command, RoundLine};
use std::alloc::{AllocError, Global};
use std::marker::Model;

/// The commands of each caller, caller 0's first. Contracts see them as a list of lists.
#[derive(Drop)]
pub struct CallerLists {
    lists: Vec<Items<Command>>,
}

impl Model for CallerLists {
    ghost use Rattle.std.specs.Prelude.{List};
    ghost use Rattle.mz_lines.specs.declared.command.Command.{Command};

    ghost Value = { List (List Command) };

    ghost view = { λ s. s.lists.items };
}

impl CallerLists {
    /// No commands, for so many callers.
    pub fn new(alloc: Global, callers: u32) -> Result<CallerLists, AllocError>
        ensures { IfOk result (λ lists. lists ≡ replicate callers []) }
    {
        let mut lists = Vec::new(alloc);
        for _ in 0..callers {
            lists.push(Items::new(alloc))?;
        }
        Ok(CallerLists { lists })
    }

    /// One more command of a caller, behind its others.
    pub fn push(&mut self, caller: u32, command: Command) -> Result<(), AllocError>
        requires { caller < length self.old }
        ensures ok { OnOk result (self.new ≡ slice_set self.old caller (slice_index_or self.old caller [] ++ command ∷ [])) }
        ensures err { OnErr result (self.new ≡ self.old) }
    {
        let list = &mut self.lists[caller as usize];
        list.push(command)?;
        Ok(())
    }

    /// The lists, in this order.
    pub fn into_items(self) -> Items<Items<Command>>
        ensures { result ≡ self }
    {
        Items::of(self.lists)
    }
}

/// A round so far.
#[derive(Drop)]
pub struct OpenRound {
    pub lines: Items<RoundLine>,
    pub commands: CallerLists,
}

impl OpenRound {
    ghost use Rattle.mz_trace.specs.Readers.{blank, rounded};

    /// Nothing yet, for so many callers.
    pub fn new(alloc: Global, callers: u32) -> Result<OpenRound, AllocError>
        ensures { IfOk result (λ r. r ≡ blank callers) }
    {
        Ok(OpenRound {
            lines: Items::new(alloc),
            commands: CallerLists::new(alloc, callers)?,
        })
    }

    /// The round, to which nothing more is added.
    pub fn close(self) -> Round
        ensures { result ≡ rounded self }
    {
        Round {
            lines: self.lines,
            commands: self.commands.into_items(),
        }
    }
}
