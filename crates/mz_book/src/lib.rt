//! One caller's access to keepers and history.
//!
//! - `book`: the trait `Book`, whose clauses are relations over a plain record, the book's account.
//! - `light`: lights of nano's slots, and what is answered where a word is another than was asked for.
//! - `pair`: who owns which live block.
//! - `plain`: `PlainBook`, a book with no atomics.
//! - `parts`: what a plain book is made of, while nothing is held.
//! - `laws`: the numbers of keepers, and what several calls add up to.
//!
//! ```text
//! history   | 0 | 1 | 2 | 3 | 4 | 5 | ..  limit        entries by ticket, and room for more
//! caller      0   1   1   0   1   0                    the record of 1 is 1, 2, 4
//!
//! keepers   | 0t0 | 0td | 0s0 | 0sd | 0l | .. | p |    one a number; one that is held is out
//! held      [ 0, 3 ]                                   numbers, ascending
//! pairs     (1, a, s)  (0, b, s) ..                    the owner of each live block
//! classes   | 4 | 0 | ..                               one word for each block of nano
//! slots     | 1 | 0 | 3 | 0 | ..                       1,024 words for each: 1 live, 0 not, 2 + caller held
//! ```
//!
//! A caller takes the keepers of the places that an event reads, notes the event, and gives them
//! back. What it learns of a place it learns from the account: while it holds the keeper, nobody else
//! touches the place.
//!
//! To the crates above, this one promises that what is noted is lawful, that a keeper which is taken stands for its place, and
//! that hands and words tell what is live.
#![tactic(auto)]

pub mod book;
pub mod laws;
pub mod light;
pub mod pair;
pub mod parts;
pub mod plain;

pub use book::Book;
pub use light::{Asked, Clash, Found, Light};
pub use pair::Pair;
pub use parts::Parts;
pub use plain::PlainBook;
