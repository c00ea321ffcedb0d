//! Whether entries are a lawful history of a space, and what state they leave.
//!
//! - `audit`: of entries in any order.
//! - `State`, `step`: a state that lawful entries leave, and one more entry.
//! - `books`: a state as a list of slots.
//! - `rules`: the first rule that an event breaks.
//! - `changes`: what an event leaves.
//! - `lists`: all runs and all live blocks.
//!
//! ```text
//! State     books runs live cached                   the books, and the lists that readers show
//! Books     slots     | Slot | Slot | Slot | ..      in the order in which they were first touched
//!           zones entries size greatest
//! ```
//!
//! To the crates above, this one promises that `step` and `audit` answer by the definitions of `mz_events`, and that a
//! `State` is the one that they say.
#![tactic(auto)]

mod books;
mod changes;
pub mod listing;
mod lists;
mod rules;
pub mod state;
pub mod verdict;

pub use listing::{LiveAt, RunAt};
pub use mz_events::{Entry, Event, Keep, Place, laws};
pub use state::{State, StepFault, step};
pub use verdict::{Verdict, audit};
