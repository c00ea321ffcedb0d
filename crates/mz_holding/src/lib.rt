//! What places keep, for code that goes over long histories.
//!
//! - `Holding`: the runs, the live blocks, the last freed block and the cached runs of one place.
//! - `FreePages`: the free pages, by the runs that are taken from them.
//! - `NanoPage`: the live blocks of a page of nano.
//! - `Held`: a run with the live blocks in it.
//! - `Blocks`: live blocks by address.
//! - `Extent`: a first number and a length.
//! - `runs`, `placing`: searches over the runs, and where a block may lie and be placed.
//!
//! ```text
//! Holding   runs      | Held | Held | Held | ..      ascending by first page
//!           used                                     the bytes of all live blocks
//!           freed     | Extent |                     the last freed block
//!           cached    | Extent | Extent | ..         in order of freeing
//! Held      first pages used | Blocks                a run, its live bytes, its live blocks
//!           most                                     no idle run of it has more bytes
//! Blocks    address -> size                          an ordered map
//! FreePages taken     | Taken | Taken | ..           ascending by first page
//!           tiny small                               how many of them are regions of each range
//! ```
//!
//! A block lies in one run of its place, and no rule needs more than the run that holds it. So each run has a map of its own:
//! what happens to a block costs a search for its run and one in its map, and a region that moves takes its map along.
//! A search for room goes over the blocks of a run only where as many bytes may be idle there: once a place was found full, later
//! searches for as many bytes are a comparison for each run, until one gains room.
//!
//! To the crates above, this one promises that a `Holding` answers the rules and changes as the definitions of `mz_events`
//! say of what it keeps.
#![tactic(auto)]

mod blocks;
mod extent;
mod held;
mod holding;
mod nano;
mod pages;
mod placing;
mod runs;

pub use blocks::Blocks;
pub use extent::Extent;
pub use held::Held;
pub use holding::Holding;
pub use nano::NanoPage;
pub use pages::{FreePages, Taken};
