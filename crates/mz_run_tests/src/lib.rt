//! Tests of the program's calls of what no trace can say: sources and sinks that fail, the gate, the longest input, and
//! the words and statuses. They stand apart, since a crate with tests is proved twice. What a trace can say is a row of
//! `mz_rows`.
#![tactic(auto)]

#[cfg(test)]
mod calls;
#[cfg(test)]
mod faults;
#[cfg(test)]
mod first_block;
#[cfg(test)]
mod gate;
#[cfg(test)]
mod inputs;
