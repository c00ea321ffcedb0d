//! The calls of a zone: blocks are made, freed, and given other sizes, with nano before the rack for small requests.
//!
//! ```text
//! malloc, calloc,    at most 256 bytes      nano: pop, settle, hold_light, note new, release_light
//! memalign, realloc  at 16 in zone 0          |
//!                                           miss, or Found (and then the slot is pushed back)
//!                                             |
//! valloc, others  ------------------------->  rack: magazine, depot, fresh region; or cache, fresh run
//!
//! free               block of nano          nano: hold_light, note end, release_light, push
//!                    others                 rack
//!
//! realloc            stays where it is; else a new block, the bytes, and then the old block ends
//! ```
//!
//! - `At`: what a call is made with, a book and maybe nano with a seat.
//! - `Block`: one block with its bytes, a lot of the rack or a slot of nano.
//! - `Zone`: the calls. `zone` has those that make blocks, `free` those that end them, `realloc` the one that changes a size, `batch`
//!   those on many blocks.
//! - `fault`: why a call is refused, and its number.
//! - `shared`: that a zone may be shared between threads, and that blocks may move.
//! - `nano`: how a slot becomes a block, and how that ends.
//!
//! Nothing is held between two calls. To the crates above, this one promises that a call adds to the record just the entries that `mz_record`
//! names for it, and to the hand just the blocks that it answers; that bytes are kept as it says there; and that nano is tried once for
//! each request that it may serve.
#![tactic(auto)]

mod at;
mod batch;
mod block;
mod fault;
mod free;
mod laws;
mod nano;
mod realloc;
pub mod shared;
mod zone;

pub use at::At;
pub use block::Block;
pub use fault::{AlignFault, CallocFault, NotLiveBlock, ReallocFault, SizeFault};
pub use zone::Zone;
