//! Laws for those who stand on a register: each function's contract is a law, and its body does nothing.
//!
//! - `records`: what callers noted, one caller behind the other.
//! - `hand_in`: what passes that are handed in give, and when they can be.

pub mod hand_in;
pub mod records;
