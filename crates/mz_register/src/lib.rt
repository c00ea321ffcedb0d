//! The register: callers in threads, one history.
//!
//! - `register`: `Register`, which threads share.
//! - `steps`: the single steps, each one call of the table.
//! - `hold`: a keeper is locked and taken, by one try or by waiting.
//! - `pass`: `Pass`, a caller's right to use the register, with its record.
//! - `calls`: what a caller does with its pass.
//! - `find`: where a number stands.
//! - `desk`: `Desk`, at which a pass is a book.
//! - `open`: a plain book is taken apart into a register and a pass for each caller.
//! - `records`: records are put together by ticket.
//! - `hand_in`: all passes come in, and the register is a plain book again.
//! - `laws`: what follows for those who stand on a register.
//! - `shared`: when a register is Send and Sync, and that a pass may move.
//!
//! ```text
//! words    | counter | lock of 0 | lock of 1 | .. | class of block 0 | .. | slot (0, 0) | slot (0, 1) | ..
//!               |          0 free, or 1 + caller       0, or 1 to 16        0, 1, or 2 + caller
//!               |
//!          how many entries there are; a note adds one, and finds its ticket
//!
//! homes    | 0t0 | 0td | -   | 0sd | .. | p |       a keeper is at home, or out with the pass that has its lock
//!
//! seats    pass of 0        pass of 1        ..     each has its own record, and in its view what it has
//!          held [2]         held []                 seen of the history, its pairs, lights and classes
//! ```
//!
//! To the crates above, this one promises that what was proved over any book runs in threads: a desk has the clauses of a plain
//! book. Waiting is in `hold` alone, which tries again, and lets other threads run between two tries.
#![tactic(auto)]

mod calls;
pub mod desk;
mod find;
pub mod hand_in;
mod hold;
pub mod laws;
pub mod open;
pub mod pass;
mod records;
pub mod register;
pub mod shared;
mod steps;

pub use desk::Desk;
pub use mz_book::{Asked, Book, Found, Light, Pair, PlainBook};
pub use pass::{Pass, Taken};
pub use register::Register;
