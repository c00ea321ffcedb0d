//! What a lawful run of a trace is: what each line is to do, which records fit, and what stands between
//! two lines.
//!
//! ```text
//!  round       lines at the start      caller 0        caller 1        ..   the gifts come
//!    |           |    |                 |   |           |   |                 |
//!  standing -> standing -> standing -> standing ->  ..  each record in its setting
//!
//!  setting:  the entries that come before, and what stands
//!  task:     what the line is to do there, or the answer by which it is refused
//!  record:   its answer, its entries, the bytes that it shows, its tickets: each fits the task
//! ```
//!
//! The definitions stand in `specs/`, each file below those that it speaks of:
//!
//! - `Records`: the records of a run, with their lines and entries.
//! - `Names`: names of blocks.
//! - `Standing`: the open zones, what each caller holds and knows, and what is on its way to one.
//! - `Settings`: what comes before a line, and the state that it finds.
//! - `Tasks`: what each line is to do, or the first test that refuses it.
//! - `Fitting`: when a record fits.
//! - `After`: what stands after a record.
//! - `LawfulRun`: when a run of a trace is lawful.
//! - `Tail`: the listing and the statistics behind it.
//! - `FirstUnfit`: the first record that doesn't fit, and the first wrong line behind a run.
//!
//! To the crates above, this one promises that the laws hold of just those definitions. Worked runs,
//! lawful and spoiled, stand in `mz_examples`.
//!
//! - `laws`: what holds of these definitions.
#![tactic(auto)]

pub mod laws;
