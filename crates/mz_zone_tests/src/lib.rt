//! Tests of the calls of a zone and of a rack, of which no trace of one caller can say: what comes back where a call is refused,
//! callers and zones beside each other, what is counted at a seat, and a rack by itself. They read no private name, and stand apart so
//! that neither crate is proved with them.
//!
//! - `setting`: a book of two zones that are open, and nano with two seats.
//! - `steps`: what is done at a zone, and how it is answered.
//! - `zones`: blocks that come back.
//! - `nano`: two seats in turn, and a slot that can't be a block.
//! - `rack`: a rack over a plain book.
#![tactic(auto)]

#[cfg(test)]
mod nano;
#[cfg(test)]
mod rack;
#[cfg(test)]
mod setting;
#[cfg(test)]
mod steps;
#[cfg(test)]
mod zones;
