//! What the entries of one request may be: which blocks and which entries fit a request, a block that
//! ends, and a block that is to have another size; and what is known of a block's bytes.
//!
//! ```text
//!  request (caller, zone, bytes, alignment)
//!     |
//!     v
//!  full K, full d, dry z, back, .. , take K, new K      served: one of eight ways
//!  end K, then its duties: move, back                   dropped
//!  nothing, or size K                                   resized where it is
//!  served in the block's zone, then dropped             moved
//! ```
//!
//! The definitions stand in `specs/`, each file below those that it speaks of:
//!
//! - `Moments`: the state at an entry of a history, and the duty that an entry leaves and another one meets.
//! - `Served`: the eight ways of serving a request, undisturbed by other callers.
//! - `Dropped`: the end of a block, and what comes with it.
//! - `Resized`: when a block stays, changes its size in place, or moves.
//! - `Bytes`: what is known of a block's bytes.
//! - `Zones`: the blocks and runs of a zone, and how it is destroyed.
//! - `Listing`: the live blocks of a state by address, and its statistics.
//!
//! To the crates above, this one promises that the laws hold of just those definitions. Worked
//! examples, of what fits and of what stands just beside it, stand in `mz_examples`.
//!
//! - `laws`: what holds of these definitions.
#![tactic(auto)]

pub mod laws;
