//! The rack: a request for a block is served, and a block is freed or gets another size, with keepers that are taken one after
//! another.
//!
//! - `Keeper`: what stands for a place: the free pages, a magazine, a depot, or large of a zone.
//! - `Rack`: a zone's requests, served over any book.
//! - `Lot`: one block with its bytes. `Null` says that no place had room, and `NotLive` that a block is of another zone.
//! - `way`: the places that serve a caller, and the numbers of their keepers.
//! - `serve`: how a request for tiny or small goes from place to place.
//! - `large`: how one for large does.
//! - `flush`: how they find pages, for which cached runs of large go back where the pages are dry.
//! - `home`: in which place a block lives.
//! - `free`: how a block ends there, and what its end calls for.
//! - `resize`: how a block gets another size there.
//! - `shelf`, `stock`, `region`: the parts of a keeper.
//! - `shared`: that keepers may move between threads, and be shared.
//!
//! ```text
//! request  ->  0t1   full?  ->  0td   full?  ->  0l, p   dry, and nothing cached?  ->  null
//!              |                |                |  \
//!              new              move, new        |   dry, back: the run that was cached first
//!                                                take, new
//! held         1                2                4 keepers
//!
//! large    ->  0l    none fits?  ->  p   dry, and nothing cached?  ->  null
//!              |                     |  \
//!              new                   |   dry, back: the run that was cached first
//!                                    take, new
//! held         1                     2 keepers
//!
//! free     ->  0t0 or 0td?  another zone  ->  no
//!              |
//!              end          excess?  ->  0td   bare?  ->  p
//!                                        |                |
//!                                        move             back
//! held         1                         2                3 keepers
//!
//!          ->  0l?          another zone  ->  no
//!              |
//!              end          17 cached?  ------------>  p
//!                                                      |
//!                                                      back: the run that was cached first
//! held         1                                       2 keepers
//!
//! resize   ->  0t0 or 0td?  no room behind it  ->  false, and the block has to move
//!              |
//!              size
//! held         1 keeper, and none where the two sizes alone tell whether it moves
//! ```
//!
//! A keeper that an entry was noted for stays held until the last entry of the call is noted, so that nobody else
//! touches these places in between. While a free or a resize looks for its block, it holds one
//! keeper at a time.
//!
//! To the crates above, this one promises that a request adds to the record just the entries that serve it
//! (`mz_record` says which these are), and that the lot is the block of its last entry; and that a free adds just those that
//! drop the block, or the one that says that it is of another zone. A resize adds the one that gives the block its size, or none,
//! and says exactly where the block has to move.
#![tactic(auto)]

mod flush;
mod free;
mod home;
mod keeper;
mod large;
mod laws;
mod lot;
mod rack;
mod region;
mod resize;
mod serve;
pub mod shared;
mod shelf;
mod stock;
mod way;

pub use keeper::Keeper;
pub use lot::{Lot, NotLive, Null};
pub use rack::Rack;
