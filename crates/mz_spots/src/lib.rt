//! The spots of a state, and what stands at each.
//!
//! - `Key`: a spot by its name: a place that has a keeper, or a page of nano.
//! - `Slot`: a spot with what it keeps, its duty and the last entry that touched it.
//! - `Done`: an entry without its ticket.
//! - `Slots`: the slots of a state, and what an entry makes of them.
//!
//! ```text
//! Slots     list      | Slot | Slot | Slot | ..      in the order in which they came
//!           places    spot -> index                  an ordered map
//!           used                                     the bytes of all live blocks
//! Slot      key keeping duty last                    keeping: FreePages, Holding or NanoPage
//! ```
//!
//! To the crates above, this one promises that a `Slot` is a spot with its value as `mz_events` has it, and changes as the
//! definitions there say.
#![tactic(auto)]

mod key;
mod slot;
mod slots;

pub use key::{Key, is_same_place, spots_of_zone, touched};
pub use slot::{Done, Slot};
pub use slots::Slots;
