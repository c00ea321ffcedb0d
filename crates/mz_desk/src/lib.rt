//! A register: callers in threads, one history.
//!
//! - `view`: what a register is opened with, and what each seat of the table knows.
//! - `law`: the rule and the kinds of steps, by the names that the table's calls take.
//! - `laws`: that the rule holds at the opening, and that every kind of step keeps it.
#![tactic(auto)]

pub mod law;
pub mod laws;
pub mod view;
