//! The work of the program, from the bytes that come in to the bytes that go out.
//!
//! What the program can rely on: where `mzone_main` ends with status 0 on the word `run`, what it
//! has written is the text of one lawful history of a plain allocator, with the blocks that are live
//! at its end; each other status says why it came and what was written then.
//!
//! - `top`, `job`, `status`: the calls, what they are asked to do, and how they end.
//! - `input`, `reply`: what is read, and what there is to say.
//! - `built`: the first line of a trace that isn't served yet.
//! - `allocator`: from a trace to a run of it; `told`: what a run tells has numbers that a line can have.
//! - `laws`: what the definitions mean, as contracts of functions that do nothing.
#![tactic(auto)]

mod allocator;
mod built;
mod input;
pub mod job;
pub mod laws;
mod reply;
pub mod status;
mod told;
mod top;

pub use job::{Job, RunJob, Tool};
pub use status::Status;
pub use top::{mzone_main, run_call, tool_call};
