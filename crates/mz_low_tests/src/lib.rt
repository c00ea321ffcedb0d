//! Tests of the crates that stand lowest: sizes, bits, free lists, the nano word, the outside, and spans.
//!
//! - `base`, `bits`, `lists`, `nanoword`, `io`, `ground`: what no clause of the crate of that name says, and rows that
//!   its clauses are to agree with.
//! - `crossing`: what may go from one thread to another.
//!
//! They stand apart from these crates, so that each of those is proved once, and not a second time with its tests.
#![tactic(auto)]

#[cfg(test)]
mod base;
#[cfg(test)]
mod bits;
#[cfg(test)]
mod crossing;
#[cfg(test)]
mod ground;
#[cfg(test)]
mod io;
#[cfg(test)]
mod lists;
#[cfg(test)]
mod nanoword;
