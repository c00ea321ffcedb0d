//! The outside: where the bytes come from, where they go, and the gate that callers pass.
//!
//! - `source`: what gives bytes, and `Failed`, the one error of this crate.
//! - `sink`: what takes bytes, and `write_all`, which writes a whole output to it.
//! - `gate`: what a caller passes before each command, and the open gate.
//! - `mem_source`, `mem_sink`: in memory, with short calls and calls that fail, for tests.
//! - `sure_source`, `fixed_sink`: in memory, and never failing.
//! - `std_source`, `std_sink`: over a reader and a writer of std, for the real input and output.
//!
//! To the crates above, this one promises two things of each source and sink. Where it tells its
//! bytes, a call moves just the bytes that it answers, and a call that fails moves none. And a call
//! fails only where the count of faults rose (it is greater, or stands at the greatest 64-bit number), so whoever sees a
//! fault can point at its cause.
#![tactic(auto)]

mod copy;
pub mod fixed_sink;
pub mod gate;
pub mod mem_sink;
pub mod mem_source;
pub mod sink;
pub mod source;
pub mod std_sink;
pub mod std_source;
pub mod sure_source;

pub use fixed_sink::FixedSink;
pub use gate::{Gate, OpenGate};
pub use mem_sink::MemSink;
pub use mem_source::MemSource;
pub use sink::{Sink, write_all};
pub use source::{Failed, Source};
pub use std_sink::StdSink;
pub use std_source::StdSource;
pub use sure_source::SureSource;
