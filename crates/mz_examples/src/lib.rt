//! Worked examples of the definitions, in both directions: what has to be lawful is, and what is spoiled isn't, by
//! the rule that is named. Each function's contract is such a fact. Its body is empty, or names the law that the fact rests on.
//!
//! - `histories`: lists of entries, as lawful histories.
//! - `runs`: requests, blocks that end or get another size, and whole runs, as what fits a history.
#![tactic(auto)]

pub mod histories;
pub mod runs;
