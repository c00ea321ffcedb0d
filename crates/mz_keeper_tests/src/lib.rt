//! Tests of what keeps a zone's memory: its pages, a region, a magazine or a depot, and its large runs.
//!
//! - `pages`: the free pages of a span, by rows.
//! - `region`, `magazine`: many calls of each, beside a plain list that answers the same.
//! - `large`: its live and its cached runs, by rows of calls.
//! - `plain`, `dice`, `spans`: the plain list, numbers that look random, and the spans of live blocks.
//!
//! They stand in a crate of their own since each test is proved too, and the crates that they test are proved
//! without them then. The library itself is empty.
#![tactic(auto)]

#[cfg(test)]
mod dice;
#[cfg(test)]
mod large;
#[cfg(test)]
mod magazine;
#[cfg(test)]
mod pages;
#[cfg(test)]
mod plain;
#[cfg(test)]
mod region;
#[cfg(test)]
mod spans;
