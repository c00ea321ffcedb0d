//! What a history of the allocator is, and when it is lawful.
//!
//! - `place`: the places between which the pages of a space move.
//! - `event`: what can happen to them.
//! - `entry`: an event with its ticket and its caller.
//! - `keep`: what stands for a place.
//! - `laws`: what holds of every history.
//!
//! The definitions stand in `specs/`, each file below those that it speaks of:
//!
//! - `Places`: the kinds of places, and the spots at which a state keeps its values.
//! - `State`: what a history leaves.
//! - `Room`: which blocks count as live where room is looked for, and which cached runs fit; `BestFit` says the latter in
//!   words. What an idle run is, and when it has room, stands in `mz_base`.
//! - `Duties`: what has to come next.
//! - `Changes`: what an event makes of what a place keeps.
//! - `Effect`: what an event touches, and what it leaves there.
//! - `Placement`, `Rules`: when an event is lawful, rule by rule.
//! - `History`: lawful histories, and the first breach of one that isn't.
//! - `Locality`: what an event depends on.
//! - `Separation`, `Forms`, `Bounds`: what holds of each state that lawful entries leave: pages are in one place, blocks are
//!   apart, lists are ascending; what a live block looks like; and that all of it fits the space.
//! - `Sameness`: when two states are the same for code.
//! - `Hands`: a caller's own entries, and the pairs in its hand.
//! - `Holding`: what a caller knows of the spots that it holds.
//! - `Magazines`: magazines with their depots.
//! - `Fitting`, `Leaving`: event by event, when it fits and what it leaves.
//! - `Codes`: what a place keeps as numbers, for ghost fields.
//! - `Standing`: when a keeper stands for a place.
//!
//! To the crates above, this one promises that the laws hold of just those definitions. Worked
//! histories, lawful and spoiled, stand in `mz_examples`.
#![tactic(auto)]

pub mod entry;
pub mod event;
pub mod keep;
pub mod laws;
pub mod place;

pub use entry::Entry;
pub use event::Event;
pub use keep::Keep;
pub use place::Place;
