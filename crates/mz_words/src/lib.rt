//! Lines and their words: bytes are cut into lines, and lines into words; a table says of each form of
//! a line what its word is, and of which kinds the words behind it are.
//!
//! ```text
//! 0 realloc null b 7        a line of a trace
//!   |       |    | |
//!   form    Old  New Number     its row of the table: ("realloc", [Old, New, Number])
//! ```
//!
//! What the layers above can rely on: `read_sentence` answers a form and its words exactly where texts
//! are those of one, and `write_sentence` adds just these texts; a text is read as one word of a kind at
//! most, what is written of a word is read as that word again, and a word that can't be read has one of
//! four flaws, which `some_wrong` tells (`laws`). A crate above gives its values as sentences: a new form
//! is a line in the table and a conversion to and from its words, and no law of this crate looks at forms.
//!
//! - `line`: bytes, cut into lines and words.
//! - `numbers`, `count`, `name`, `shown`: what words stand for.
//! - `kind`: the kinds of words, and a word of each kind; `reading` and `printing` do the work.
//! - `table`, `sentence`: the forms, and a form with its words.
//! - `flaw`: what can be wrong with a word in its place.
//! - `laws`: what the definitions mean, as a contract of a function that does nothing.
#![tactic(auto)]

pub mod count;
pub mod flaw;
pub mod kind;
pub mod laws;
pub mod line;
pub mod name;
pub mod numbers;
mod printing;
mod reading;
pub mod sentence;
pub mod shown;
pub mod table;

pub use count::{BatchCount, BatchIndex, ShowCount};
pub use flaw::{Flaw, some_wrong};
pub use kind::{Kind, Word};
pub use line::{RawLine, next_line, words};
pub use name::{BaseName, BatchName, BlockName, GivenName, Name, OldName};
pub use sentence::{Sentence, read_sentence, write_sentence};
pub use shown::Shown;
pub use table::{Form, Row, form_among};
