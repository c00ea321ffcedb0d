//! A count of steps that costs nothing at run time.
//!
//! - `Steps`: how many steps were taken, as contracts see it.
//!
//! To the crates above, this one promises that a count begins at 0 and grows by one with each
//! `tick`, in any ledger; no other call changes it, and none takes memory. What a step is, each of
//! them says for itself. A caller hands one count to all that it calls.
#![tactic(auto)]

mod steps;

pub use steps::Steps;
