//! What stands of a printed run so far, and what the next line adds.

ghost use Rattle.std.specs.Prelude.{◌≡◌, IfOk, MatchResult};
ghost use Rattle.mz_words.specs.Lines.{cut_of, words_of};
ghost use Rattle.mz_transcript.specs.Stages.{due_of, finished, with_line, words_read, stage_read, good, FaultIs};

use crate::book::Book;
use crate::fault::RunFault;
use crate::line::{Due, RunLine, read_text};
use crate::part::{Part, due_in};
use crate::rounds::rounds_with;
use crate::tail::{Known, due_statistic, in_tail};
use mz_base::Items;
use mz_trace::{Figures, Listed, Run};
use mz_words::RawLine;
use mz_words::line::is_short;
use std::alloc::{AllocError, Global};

/// What stands of a printed run so far.
#[derive(Drop)]
pub enum Stage {
    /// Nothing.
    First,
    /// The first line.
    Second,
    /// Rounds.
    Rounds {
        book: Book,
        part: Part,
    },
    /// The run, and a part of what stands behind it.
    Tail {
        run: Run,
        listing: Items<Listed>,
        known: Known,
    },
}

impl Stage {
    /// Reads one more line, unless it may not stand there.
    pub fn read(self, alloc: Global, line: &RawLine<'_>) -> Result<Option<Stage>, AllocError>
        ensures { IfOk result (λ s. s ≡ stage_read self (cut_of line.now)) }
    {
        if is_short(line) {
            self.read_words(alloc, line.text)
        } else {
            Ok(None)
        }
    }

    /// Reads a line of this text.
    fn read_words(self, alloc: Global, text: &[u8]) -> Result<Option<Stage>, AllocError>
        ensures { IfOk result (λ s. s ≡ words_read self (words_of text.now)) }
    {
        let due = self.due();
        match read_text(alloc, due, text) {
            Err(e) => Err(e),
            Ok(None) => Ok(None),
            Ok(Some(line)) => self.with_line(alloc, line),
        }
    }

    /// What may come next.
    fn due(&self) -> Due
        ensures { result ≡ due_of self.now }
    {
        match self {
            Stage::First => Due::First,
            Stage::Second => Due::Space,
            Stage::Rounds { book, part } => due_in(book.profile.callers, part),
            Stage::Tail { known, .. } => due_statistic(*known),
        }
    }

    /// With one more line, unless it may not stand there.
    fn with_line(self, alloc: Global, line: RunLine) -> Result<Option<Stage>, AllocError>
        ensures { IfOk result (λ s. s ≡ with_line self line) }
    {
        match self {
            Stage::First => match line {
                RunLine::First => Ok(Some(Stage::Second)),
                _ => Ok(None),
            },
            Stage::Second => match line {
                RunLine::Space { profile } => Ok(Some(Stage::Rounds {
                    book: Book::new(alloc, profile),
                    part: Part::Outside,
                })),
                _ => Ok(None),
            },
            Stage::Rounds { book, part } => rounds_with(alloc, book, part, line),
            Stage::Tail {
                run,
                listing,
                known,
            } => in_tail(run, listing, known, line),
        }
    }

    /// The run and what stands behind it, where it is whole. The line that is missing has this number.
    pub fn finish(self, number: u64) -> Result<(Run, Figures), RunFault>
        ensures { MatchResult result (λ x. finished self number ≡ good (x.0, x.1)) (FaultIs (finished self number)) }
    {
        match self {
            Stage::Tail {
                run,
                listing,
                known,
            } => match known {
                Known::All { statistics } => {
                    let figures = Figures {
                        listing,
                        statistics,
                    };
                    Ok((run, figures))
                }
                _ => Err(RunFault::Bad { line: number }),
            },
            _ => Err(RunFault::Bad { line: number }),
        }
    }
}
