//! The two names of a `realloc`.

ghost use Rattle.std.specs.Prelude.{◌≡◌};
ghost use Rattle.mz_lines.specs.Commands.{old_name, new_name};

use mz_words::{BaseName, BatchName, BlockName, GivenName, Name, OldName};
use std::marker::Model;

/// The two names of a `realloc`: the one that the block has, or the word `null` for no block yet, and
/// the one that it is to have, which is a base name or the same name again.
#[derive(Clone, Copy, Debug, PartialEq, Eq)]
pub enum Names {
    /// `null`, and a base name: a new block.
    Fresh { new: BaseName },
    /// A name, and a base name, which may be the same.
    Renamed { old: Name, new: BaseName },
    /// The name of a block of a batch, twice.
    KeptBatch { name: BatchName },
    /// A given name, twice.
    KeptGiven { name: GivenName },
}

/// The two names of a `realloc`, as a line has them. Contracts see the `Names`.
#[derive(Clone, Copy, Debug, PartialEq, Eq)]
pub struct Renaming {
    names: Names,
}

impl Model for Renaming {
    ghost use Rattle.mz_lines.specs.declared.renaming.Names.{Names};

    ghost Value = { Names };

    ghost view = { λ s. s.names };

    ghost inverse = { λ v. record { names = v } };
}

impl Renaming {
    /// These names.
    pub fn new(names: Names) -> Renaming
        ensures { result ≡ names }
    {
        Renaming { names }
    }

    /// Which names they are.
    pub fn get(self) -> Names
        ensures { result ≡ self }
    {
        self.names
    }
}

/// The name that the block of a `realloc` has.
pub fn old_name(names: &Names) -> OldName
    ensures { result ≡ old_name names.now }
{
    match *names {
        Names::Fresh { .. } => OldName::new(None),
        Names::Renamed { old, .. } => OldName::new(Some(BlockName::new(old))),
        Names::KeptBatch { name } => OldName::new(Some(BlockName::new(Name::Batch(name)))),
        Names::KeptGiven { name } => OldName::new(Some(BlockName::new(Name::Given(name)))),
    }
}

/// The name that it is to have.
pub fn new_name(names: &Names) -> BlockName
    ensures { result ≡ new_name names.now }
{
    match *names {
        Names::Fresh { new } => BlockName::new(Name::Base(new)),
        Names::Renamed { new, .. } => BlockName::new(Name::Base(new)),
        Names::KeptBatch { name } => BlockName::new(Name::Batch(name)),
        Names::KeptGiven { name } => BlockName::new(Name::Given(name)),
    }
}
