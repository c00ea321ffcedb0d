//! The lines of traces and of printed runs: what is asked, what is done at the start of a round, what
//! becomes of it, and the numbers of the space, each to and from the words of a line.
//!
//! ```text
//! 0 realloc null b 7        Line::Call { caller: 0, command: Command::Realloc { .. } }
//! zone z                    Line::Start(RoundLine::Zone { .. })
//! new 0t0 0 112 16          Event::New { .. }
//! block 0 112               Answer::Block { a: 0, s: 112 }
//! ```
//!
//! What the layers above can rely on: each reader answers a value exactly where the words are those
//! that are written of it, and then that one; words are a line of a trace exactly where no why of a
//! line's words holds, and `word_why` tells the first that does (`laws`). Beside that a reader may
//! only answer that memory is short.
//!
//! Each line is a sentence of `mz_words`: a row of the table there says what its words are, and a
//! conversion here what they mean.
//!
//! - `command`, `renaming`, `round_line`: what a trace asks for.
//! - `event`, `answer`: what becomes of it.
//! - `space`: the numbers of the space.
//! - `line`: a line of a trace behind its first two.
//! - `why`, `checks`: what can be wrong with a line, and with its words wherever it stands.
//! - `laws`: what the definitions mean, as a contract of a function that does nothing.
#![tactic(auto)]

pub mod answer;
pub mod checks;
pub mod command;
pub mod event;
pub mod laws;
pub mod line;
pub mod renaming;
pub mod round_line;
pub mod space;
pub mod why;

pub use answer::Answer;
pub use command::Command;
pub use line::Line;
pub use renaming::{Names, Renaming};
pub use round_line::RoundLine;
pub use why::Why;
