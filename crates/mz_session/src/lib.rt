//! One caller's session over a space of its own.
//!
//! ```text
//!  command  ->  Session  ->  Zone       makes a block, ends one, or gives it another size
//!                  |           |
//!                  |           +---- Nano         with the caller's seat, where it has pages
//!                  |           +---- PlainBook    the keepers of all places, and all entries so far
//!                  v
//!               Blocks                 name -> block, with its bytes
//!               parcels                blocks on their way to the end of the round
//! ```
//!
//! - `Session`: a call for each command that it serves, and what stands at its end. `making` has the commands that make blocks,
//!   `ending` those that end them, `resizing` the one that changes a size, `reading` those that read and write, `giving` the one that
//!   gives and the end of a round.
//! - `blocks`: the names that are held, each with its block; `parcel`: a block on its way.
//! - `listing`, `statistics`: the live blocks by address, and the numbers behind a run.
//!
//! The pairs in the caller's hand are just the blocks that have names and those on their way. So a name that is held can be freed,
//! and what is written to one block stays in all others.
//!
//! To the crates above, this one promises of each command that its record fits: the entries that it adds to the history, its
//! answer, and the bytes that it shows (`mz_lawful` says which these are).
#![tactic(auto)]

mod block;
mod blocks;
mod calling;
mod ending;
mod giving;
mod laws;
mod listing;
mod making;
mod parcel;
mod reading;
mod resizing;
mod session;
mod statistics;

pub use session::Session;
