//! The one word of a nano block.
//!
//! - `NanoWord`: what the word says, as four numbers; packed into a `u64` and unpacked again.
//! - `laws`: that packing and unpacking undo each other, as contracts of functions that do nothing.
//!
//! ```text
//! bit    63   62 .. 27     26 .. 22   21 .. 11   10 .. 0
//!       +---+------------+----------+----------+---------+
//!       | 0 | generation |  state   |   free   |  next   |
//!       +---+------------+----------+----------+---------+
//!              36 bits      5 bits     11 bits    11 bits
//! ```
//!
//! A block changes in one exchange of this word, so all that an exchange has to compare stands in
//! it. The word and the widths of its fields are this project's own.
//!
//! To the crates above, this one promises that a word with bit 63 clear and its fields fix each
//! other.
#![tactic(auto)]

pub mod laws;
mod word;

pub use word::NanoWord;
