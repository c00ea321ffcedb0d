//! What a register is opened with, and what a seat of it knows. Of all types here but `Opening` no value is made: they are for proofs
//! alone.

use mz_base::Profile;
use mz_book::{Clash, Light, Pair};
use mz_events::Entry;
use std::collections::LinkedList;
use std::snapshot::Snapshot;

/// What a register is opened with: the profile, the history so far, for each quantum the caller who owns the block that begins there, for
/// each block of nano its class, and a keeper of the space of all, for contracts alone.
#[derive(Drop)]
pub struct Opening<V> {
    pub profile: Profile,
    pub history: Vec<Entry>,
    pub quanta: Vec<u8>,
    pub classes: Vec<u64>,
    pub site: Snapshot<V>,
}

/// The space in which the keepers stand for their places.
pub struct SpaceName {
    pub name: u64,
    pub block: u64,
    pub origin: u64,
    pub size: u64,
}

/// From which entry on no other caller touched the place of a keeper.
pub struct Since {
    pub keeper: usize,
    pub from: u64,
}

/// A load of a word, and what it found.
pub struct Load {
    pub word: usize,
    pub found: u64,
}

/// An exchange that found the word that it expected, and what it put there.
pub struct Win {
    pub word: usize,
    pub from: u64,
    pub to: u64,
}

/// A seat that was taken in: its number, what it had seen, its record, its pairs, and the classes that it knew.
pub struct TakenIn {
    pub caller: u32,
    pub seen: LinkedList<Entry>,
    pub noted: LinkedList<Entry>,
    pub pairs: LinkedList<Pair>,
    pub settled: LinkedList<u64>,
}

/// The view of a seat. Lists of loads, wins and clashes have the newest first.
pub struct View {
    /// False once the seat was taken into another.
    pub live: bool,
    pub profile: Profile,
    pub space: SpaceName,
    /// The opening history, and the pairs of all callers at the opening.
    pub start: LinkedList<Entry>,
    pub dealt: LinkedList<Pair>,
    /// Its number, which is that of its caller.
    pub caller: u32,
    /// Of seat 0: how many numbers are given.
    pub given: u32,
    /// The keepers that it locked and took, and the one that it locked and hasn't taken yet.
    pub held: LinkedList<usize>,
    pub taking: LinkedList<usize>,
    /// For each of these, since when nobody else touched its place.
    pub since: LinkedList<Since>,
    pub seen: LinkedList<Entry>,
    pub noted: LinkedList<Entry>,
    /// Its caller's pairs; of seat 0 also those of the numbers that aren't given yet, and of the seats that it took in.
    pub pairs: LinkedList<Pair>,
    pub lights: LinkedList<Light>,
    /// For each block of nano its class, and 0 where the seat knows of none.
    pub settled: LinkedList<u64>,
    pub loads: LinkedList<Load>,
    pub wins: LinkedList<Win>,
    pub clashes: LinkedList<Clash>,
    /// The seats that it took in, newest first.
    pub joined: LinkedList<TakenIn>,
}
