//! Magazines and depots: keepers of regions, from which blocks are served.
//!
//! - `Magazine`: a magazine or a depot, with its last freed block.
//! - `row`: its regions, by address.
//! - `search`: what is looked for over all regions.
//! - `member`: a region of a row, with what it was last found unable to serve.
//! - `laws`: what the definitions mean, as a contract of a function that does nothing.
//!
//! ```text
//! address   0          L          2 L         ..       5 L
//! row       [ region ]  [ region ]                     [ region ]
//! lacks       3 quanta    17 quanta                      64 quanta
//! live        # ## #      ##  #  #                       #
//! last freed                 o
//! ```
//!
//! `L` is the bytes of a region. A region that `lacks` 3 quanta has no idle run of 3, so a request for
//! as many or more passes it by, and no bitmap is read. It is found out when a search fails, and is
//! forgotten when the region gains room. The last freed block is idle in its region, and is known
//! by its address and its size.
//!
//! To the crates above, this one promises that a magazine is what a place of a history keeps: each
//! call does with the runs, the live blocks and the last freed block what the definitions of
//! `mz_events` say of its event, and refuses just where they do. Runs are counted in pages; where
//! a region isn't whole pages, clauses that say where something lies don't speak of it.
#![tactic(auto)]

pub mod laws;
mod magazine;
mod member;
mod row;
mod search;

pub use magazine::Magazine;
