//! What a seat knows. No value of these types is made but a `Geometry` and a `Held`: the others are
//! for proofs.

use mz_ground::Parcel;
use std::collections::LinkedList;

/// What a nano was opened with: how many blocks, the generation at which they retire, how many
/// seats, and a parcel of no bytes where the first block begins.
#[derive(Drop)]
pub struct Geometry {
    pub blocks: u64,
    pub most_gen: u64,
    pub seats: u32,
    pub edge: Parcel,
}

/// A slot by its block, its number there and its class.
#[derive(Clone, Copy, PartialEq, Eq, Debug)]
pub struct Held {
    pub block: u64,
    pub slot: u64,
    pub class: u64,
}

/// A slot whose place in the table the seat has taken.
pub struct Vacant {
    pub block: u64,
    pub slot: u64,
}

/// A block's word as the seat loaded it, or stored it by `make-ready`.
pub struct Known {
    pub block: u64,
    pub word: u64,
}

/// The link of the first slot of a known word.
pub struct KnownLink {
    pub block: u64,
    pub word: u64,
    pub link: u64,
}

/// A link that the seat stored in a slot of its hand.
pub struct StoredLink {
    pub block: u64,
    pub slot: u64,
    pub link: u64,
}

/// A block that the seat is making ready, and how many of its slots are cut.
pub struct Claim {
    pub block: u64,
    pub class: u64,
    pub cut: u64,
}

/// A load of a word, and what it found.
pub struct Load {
    pub word: usize,
    pub found: u64,
}

/// An exchange that found the word that it expected, and what it put there.
pub struct Win {
    pub word: usize,
    pub from: u64,
    pub to: u64,
}

/// An exchange that found another word than it expected.
pub struct Clash {
    pub word: usize,
    pub expected: u64,
    pub found: u64,
}

/// The view of a seat. Each list has its newest first.
pub struct View {
    /// False once the seat was taken into another.
    pub live: bool,
    pub geometry: Geometry,
    /// Of twice as many as there are seats. A seat with all of them is the only one.
    pub parts: u64,
    pub hand: LinkedList<Held>,
    pub vacant: LinkedList<Vacant>,
    pub known: LinkedList<Known>,
    pub first_links: LinkedList<KnownLink>,
    pub stored: LinkedList<StoredLink>,
    pub claim: LinkedList<Claim>,
    /// The blocks that it ever claimed.
    pub claimed: LinkedList<u64>,
    pub loads: LinkedList<Load>,
    pub wins: LinkedList<Win>,
    pub clashes: LinkedList<Clash>,
}
