//! Why a call is refused. Each refusal has a number: 1 null, 2 not live, 3 overflow, 4 bad alignment, 5 wrong size.
ghost use Rattle.std.specs.Prelude.{◌≡◌};
ghost use Rattle.mz_zone.specs.Numbers.{calloc_number, align_number, realloc_number, size_number};

use crate::block::Block;
use mz_rack::Null;

/// That a block is of another zone: the block, as it was handed in, and the ticket of the entry that says so.
#[derive(Debug, Drop)]
pub struct NotLiveBlock {
    pub block: Block,
    pub ticket: u64,
}

impl NotLiveBlock {
    /// 2.
    pub fn number(&self) -> u8
        ensures { result ≡ 2 }
    {
        2
    }
}

/// Why a request for several items of one size got no block.
#[derive(Clone, Copy, Debug, PartialEq, Eq)]
pub enum CallocFault {
    /// So many bytes have no number.
    Overflow,
    /// No place had room.
    Null(Null),
}

impl CallocFault {
    /// 3 for an overflow, 1 for a null.
    pub fn number(&self) -> u8
        ensures { result ≡ calloc_number self.now }
    {
        match self {
            CallocFault::Overflow => 3,
            CallocFault::Null(null) => null.number(),
        }
    }
}

/// Why a request at an alignment got no block.
#[derive(Clone, Copy, Debug, PartialEq, Eq)]
pub enum AlignFault {
    /// The alignment is no power of two from 8 to 16,384.
    BadAlign,
    /// No place had room.
    Null(Null),
}

impl AlignFault {
    /// 4 for a bad alignment, 1 for a null.
    pub fn number(&self) -> u8
        ensures { result ≡ align_number self.now }
    {
        match self {
            AlignFault::BadAlign => 4,
            AlignFault::Null(null) => null.number(),
        }
    }
}

/// Why a block didn't get another size. It comes back as it was.
#[derive(Debug, Drop)]
pub enum ReallocFault {
    /// It is of another zone.
    NotLive(NotLiveBlock),
    /// It would have to move, and no place had room.
    Null { block: Option<Block>, null: Null },
}

impl ReallocFault {
    /// 2 for a block that isn't live in the zone, 1 for a null.
    pub fn number(&self) -> u8
        ensures { result ≡ realloc_number self.now }
    {
        match self {
            ReallocFault::NotLive(fault) => fault.number(),
            ReallocFault::Null { null, .. } => null.number(),
        }
    }
}

/// Why a block wasn't freed by its size. It comes back as it was.
#[derive(Debug, Drop)]
pub enum SizeFault {
    /// It is of another zone.
    NotLive(NotLiveBlock),
    /// It doesn't have this size: `held` is the one that it has.
    WrongSize { block: Block, held: u64 },
}

impl SizeFault {
    /// 2 for a block that isn't live in the zone, 5 for a wrong size.
    pub fn number(&self) -> u8
        ensures { result ≡ size_number self.now }
    {
        match self {
            SizeFault::NotLive(fault) => fault.number(),
            SizeFault::WrongSize { .. } => 5,
        }
    }
}
