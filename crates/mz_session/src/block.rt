//! A live block.

ghost use Rattle.std.specs.Prelude.{◌≡◌};
ghost use Rattle.mz_base.specs.Space.{block_at};

use std::marker::Model;

/// A block: its first address and its size, in bytes.
#[derive(Clone, Copy, Debug, PartialEq, Eq)]
pub(crate) struct Block {
    first: u64,
    size: u64,
}

impl Model for Block {
    ghost use Rattle.mz_base.specs.Space.{Block as block};

    ghost Value = { block };

    ghost view = { λ s. record { first = s.first; size = s.size } };

    ghost inverse = { λ v. record { first = v.first; size = v.size } };
}

impl Block {
    /// The `size` bytes from `first` on.
    pub(crate) fn new(first: u64, size: u64) -> Block
        ensures { result ≡ block_at first size }
    {
        Block { first, size }
    }

    /// The first address.
    pub(crate) fn first(self) -> u64
        ensures { result ≡ self.first }
    {
        self.first
    }

    /// The size in bytes.
    pub(crate) fn size(self) -> u64
        ensures { result ≡ self.size }
    {
        self.size
    }
}
