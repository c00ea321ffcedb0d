//! Worked examples of what fits, and of what stands just beside it: each function's contract is a
//! fact about the definitions. The lists and runs stand in the files of `specs/` that begin with `Runs`.
//!
//! - `served`, `dropped`, `resized`: the entries of one request.
//! - `rows`, `zones`, `rounds`, `bytes`: whole runs, lawful ones and such as have a record that doesn't
//!   fit, by the part of it that is wrong.
//! - `spoiled`: a run with such a record isn't lawful.
//! - `unfit`: the first such record, and the first wrong line behind a run.

pub mod bytes;
pub mod dropped;
pub mod resized;
pub mod rounds;
pub mod rows;
pub mod served;
pub mod spoiled;
pub mod unfit;
pub mod zones;
