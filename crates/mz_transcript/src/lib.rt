//! From the bytes of a printed run to the run that they are, with the listing and the statistics behind
//! it.
//!
//! What the layers above can rely on: `parse_run` answers a run and a tail exactly where the bytes are
//! their text, and then those; else it tells the first line that can't stand where it stands. Beside
//! that it may only answer that memory is short. Printed bytes fix the run (`laws::one_run`).
//!
//! - `entries`, `listings`: what the lines of a run have that `mz_lines` has not, from their words.
//! - `line`: the lines of a run, from their words, and which of them may come next.
//! - `book`, `part`, `tail`, `stage`: what stands of a run so far: the rounds that are closed, what is
//!   open of one, and what stands behind the rounds.
//! - `rounds`: what the next line adds to the rounds.
//! - `parser`: the whole text.
//! - `fault`: why bytes are no printed run.
//! - `laws`: what the definitions mean, as contracts of functions that do nothing.
#![tactic(auto)]

mod book;
mod entries;
pub mod fault;
pub mod laws;
mod line;
mod listings;
mod parser;
mod part;
mod rounds;
mod stage;
mod tail;

pub use fault::RunFault;
pub use parser::parse_run;
