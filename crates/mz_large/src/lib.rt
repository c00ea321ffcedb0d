//! Large of a zone: blocks that are whole runs of pages, and the runs that were freed last.
//!
//! - `Large`: the runs, which are live or cached.
//! - `live`: the live blocks, by address.
//! - `cache`: the cached runs, in order of freeing.
//!
//! ```text
//! page      3         7      9         14        19    21
//! runs      [ live    ]      [ cached  ]         [ live ]
//! live      (3, 4)                               (19, 2)        by address
//! cached                     (9, 5)                             the one freed first before the others
//! ```
//!
//! A run is with the caller as the span of its block while that is live, and is owned here while it is
//! cached. At most 16 runs are cached: the next one that is freed pushes out the one freed first. So
//! a live block is found by its address in logarithmic time, and the cached runs are searched.
//!
//! To the crates above, this one promises that `Large` is what large of a zone keeps in a history: each call
//! does with the runs, the live blocks and the cached runs what the definitions of `mz_events` say of its
//! events, and that the run which serves again is the best fit. All memory is taken by `make`.
#![tactic(auto)]

mod cache;
mod large;
mod live;

pub use large::Large;
