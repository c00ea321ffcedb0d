//! The free pages of a span.
//!
//! - `Pages`: lends the lowest free run of pages at an alignment, and takes runs back.
//! - `search`: finds that run.
//!
//! ```text
//! the space   | 0 | 1 | 2 | 3 | 4 | 5 | 6 | 7 | 8 | 9 | ..      pages, counted from its start
//! the span            | 2 | 3 | 4 | 5 | 6 | 7 | 8 |             first = 2
//! out                 | . | X | X | . | . | . | X |             one bit a page, by its place here
//! free                | y | n | n | y | y | y | n |             what contracts see
//! ```
//!
//! To the crates above, this one promises that a run is refused exactly where none is free, that
//! it is the lowest, and that no page is in two runs.
//!
//! It is made so that a search passes over words of the map and over free runs, and never over pages one
//! by one; no clause counts that yet.
#![tactic(auto)]

mod pages;
mod search;

pub use pages::Pages;
