//! Regions: bytes in a row, in quanta of one size, from which blocks are taken.
//!
//! - `Blank`: a region's metadata, which is made before the region and outlives it.
//! - `Region`: a blank over a span. It gives blocks out as spans, and takes them back.
//! - `search`: the idle run that serves a request.
//!
//! ```text
//! quantum    0   1   2   3   4   5   6   7   8   ..      N - 1
//! in use     1   1   1   1   .   .   1   1   .            .
//! begins     1   .   .   1   .   .   1   .   .            .
//!            block       block   idle    block   idle run ..
//!            of 3        of 1    run     of 2
//! ```
//!
//! To the crates above, this one promises that a region is its list of live blocks, and that each
//! call does with that list what its name says: a request is refused exactly where no idle run has
//! room, so idle neighbours are always one run. A block's bytes belong to whoever has its span.
#![tactic(auto)]

mod blank;
mod region;
mod search;

pub use blank::Blank;
pub use region::Region;
