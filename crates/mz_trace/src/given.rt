//! The names under which blocks were given, so that none is given twice.

ghost use Rattle.std.specs.Prelude.{◌≡◌, [], OnOk};
ghost use Rattle.mz_lines.specs.Lines.{given_by};
ghost use Rattle.mz_trace.specs.Given.{has_name, with_name};

use mz_lines::Command;
use mz_words::BaseName;
use std::alloc::{AllocError, Global};
use std::collections::BTreeSet;
use std::marker::Model;

/// Names under which blocks were given. Contracts see a list.
#[derive(Drop)]
pub struct GivenNames {
    names: BTreeSet<BaseName>,
}

impl Model for GivenNames {
    ghost use Rattle.std.specs.Prelude.{List, ℕ};

    ghost Value = { List (List ℕ) };

    ghost view = { λ s. s.names.keys };
}

impl GivenNames {
    /// No names.
    pub fn new(alloc: Global) -> GivenNames
        ensures { result ≡ [] }
    {
        GivenNames {
            names: BTreeSet::new(alloc),
        }
    }

    /// Whether the name is one of them.
    pub fn contains(&self, name: &BaseName) -> bool
        ensures { result ≡ has_name self.now name.now }
    {
        self.names.contains(name)
    }

    /// One more name.
    pub fn insert(&mut self, name: BaseName) -> Result<(), AllocError>
        ensures { OnOk result (self.new ≡ with_name self.old name) }
    {
        self.names.insert(name)?;
        Ok(())
    }
}

/// The name under which a command gives a block.
pub fn given_by(command: &Command) -> Option<BaseName>
    ensures { result ≡ given_by command.now }
{
    match command {
        Command::Give { given, .. } => Some(given.base),
        _ => None,
    }
}
