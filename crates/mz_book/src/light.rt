//! Lights of nano's slots, and what a call answers where it finds another word than it asked for.
ghost use Rattle.std.specs.Prelude.{◌≡◌};
ghost use Rattle.mz_book.specs.Lights.{light_at};

/// The held word of one slot of nano. A book's `hold_light` makes it, and `release_light` takes it back. If it is dropped the slot stays
/// held.
#[derive(Drop)]
pub struct Light {
    pub(crate) block: u64,
    pub(crate) slot: u64,
}

impl Light {
    /// The light of the slot `j` of the block `b` of nano, for a book that took it. Nobody else has a use for it: a book gives back
    /// only lights that it holds.
    pub fn taken(b: u64, j: u64) -> Light
        ensures { result ≡ light_at b j }
    {
        Light { block: b, slot: j }
    }

    /// The block of nano.
    pub fn block(&self) -> u64
        ensures { result ≡ self.now.block }
    {
        self.block
    }

    /// The slot of the block.
    pub fn slot(&self) -> u64
        ensures { result ≡ self.now.slot }
    {
        self.slot
    }
}

/// The word that a call found in place of the one that it asked for.
#[derive(Clone, Copy, Debug, PartialEq, Eq)]
pub struct Found {
    pub word: u64,
}

/// An exchange that found another word than it expected, at the place `word` of a table of words. It is for proofs alone: no value of it is
/// made.
pub struct Clash {
    pub word: usize,
    pub expected: u64,
    pub found: u64,
}

/// What a call asked for.
#[derive(Clone, Copy, Debug, PartialEq, Eq)]
pub enum Asked {
    /// That a block of nano has this class.
    Settle { block: u64, class: u64 },
    /// That a slot's word is `expect`.
    HoldLight { block: u64, slot: u64, expect: u64 },
}
