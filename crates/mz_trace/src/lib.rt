//! The texts of traces, and the texts that are printed of runs: what is to be run, and what became of
//! it, as lines of words.
//!
//! What the layers above can rely on: `parse` answers a trace exactly where the bytes are a text of
//! one, and then that one; else it tells the first bad line and the number of its first why.
//! `print_trace` writes a text of a trace. `print_run` writes the text of a run, and `Tail::bytes`
//! is what stands behind it. Beside that each of them may only answer that memory is short. Traces and
//! runs are plain values: a contract sees each of their lists as a list.
//!
//! What stands in one line, `mz_lines` reads and writes; its types are named here too.
//!
//! - `round`, `trace`: what a trace is made of.
//! - `run`, `tail`: what a run adds, and what stands behind it.
//! - `open_round`, `given`, `reader`, `parser`: from bytes to a trace.
//! - `fault`: what can be wrong with a text.
//! - `printer`, `run_printer`: from a trace to its text in normal form, and from a run to its text.
//! - `laws`: what the definitions of texts mean, as contracts of functions that do nothing.
#![tactic(auto)]

pub mod fault;
pub mod given;
pub mod laws;
mod open_round;
mod parser;
mod printer;
mod reader;
pub mod round;
pub mod run;
mod run_printer;
pub mod tail;
pub mod trace;

pub use fault::TraceFault;
pub use mz_lines::{Answer, Command, Line, Names, Renaming, RoundLine, Why};
pub use parser::parse;
pub use printer::print_trace;
pub use round::Round;
pub use run::{CallRecord, Run, RunEntry, RunRound, StartRecord};
pub use run_printer::print_run;
pub use tail::{Figures, Listed, Statistics, Tail};
pub use trace::Trace;
