//! Tests of what is written as text or as a list of entries, of which no trace of the program can say: a holding by itself, audits of
//! lists of entries, sentences, and the texts of traces and runs that can't be read. They read no private name, and stand apart so
//! that none of those crates is proved with them.
//!
//! - `history`: lawful lists with the states that they leave, lists that aren't lawful, and one entry at a time.
//! - `holding`: a magazine from its first run on.
//! - `trace`: traces, and the first bad line of texts that are none.
//! - `transcript`: runs, and the first bad line of texts that are none.
//! - `words`: sentences of each family.
#![tactic(auto)]

#[cfg(test)]
mod history;
#[cfg(test)]
mod holding;
#[cfg(test)]
mod trace;
#[cfg(test)]
mod transcript;
#[cfg(test)]
mod words;
