//! Free lists by size: runs of quanta, and one of a length that serves without a search.
//!
//! - `FreeLists`: members by place, each in the list of those of its length.
//! - `Steps`, of `mz_steps`: here a count of the links and bitmap words that were read.
//! - `heads`: the first member of each list.
//! - `links`: links and the bitmap, of which no word is read without a step.
//! - `numbers`: numbers by place, as narrow as serves.
//! - `words`: the bits of one word.
//!
//! ```text
//! place      | 0 | 1 | 2 | 3 | 4 | 5 | 6 | 7 | 8 | 9 | 10| 11|        here N is 3
//! members    | 1 |       | 2     |   | 1 |   | 4             |
//! length - 1 | 0 |       | 1 |       | 0 |   | 3 |
//! next       | 6 | 0 | 0 | 3 | 0 | 0 | 6 | 0 | 8 | 0 | 0 | 0 |        its own place: the last
//! prev       | 0 | 0 | 0 | 3 | 0 | 0 | 0 | 0 | 8 | 0 | 0 | 0 |        its own place: the first
//!
//! bitmap       bit 0: 1       bit 1: 1       bit 2: 1
//! list         length 1       length 2       3 and more
//! first        0              3              8
//! ```
//!
//! A place without a member leads both ways to one place, and not to its own: to place 0, or from
//! there to place 1. No member does, so the links alone say where members are. Neither the end of
//! a list nor the want of a member takes a value of its own, and 16 bits serve for 65,536 places.
//!
//! To the crates above, this one promises that `FreeLists` is its members, by place, that the member
//! which it answers is of the least length that serves, and how many steps each call takes at most.
#![tactic(auto)]

mod heads;
mod links;
mod lists;
mod numbers;
mod words;

pub use lists::FreeLists;
pub use mz_steps::Steps;
