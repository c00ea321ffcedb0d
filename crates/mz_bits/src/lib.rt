//! Bits by number, in words of 64.
//!
//! - `Bits`: truth values that are read, changed and searched.
//! - `words`: the same over a slice of words, a word at a time.
//! - `laws`: what the definitions mean, as contracts of functions that do nothing.
//!
//! ```text
//! word    0                      1                      2
//! bit     0 1 2 ..            63 64 65 ..           127 128 ..  len   padding
//!         lowest bit .. highest  lowest bit .. highest
//! ```
//!
//! To the crates above, this one promises that `Bits` is a list of truth values, and that each call
//! does with that list what its name says. What the bits behind the last one are is never seen.
//!
//! It is made so that a search reads whole words, and a test or a change of one bit reads one; no clause
//! counts that yet.
#![tactic(auto)]

mod bits;
pub mod laws;
mod words;

pub use bits::Bits;
