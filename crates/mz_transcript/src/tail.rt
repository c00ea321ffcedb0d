//! What stands of the listing and the statistics behind a printed run, and what the next line adds.

ghost use Rattle.std.specs.Prelude.{◌≡◌, IfOk};
ghost use Rattle.mz_transcript.specs.Stages.{due_statistic, in_tail, known_with};

use crate::line::{Counter, Due, RunLine};
use crate::stage::Stage;
use mz_base::Items;
use mz_trace::{Listed, Run, Statistics};
use std::alloc::AllocError;

/// The statistics so far.
#[derive(Clone, Copy)]
pub enum Known {
    Nothing,
    Blocks { blocks: u64 },
    Size { blocks: u64, size: u64 },
    MaxSize { blocks: u64, size: u64, most: u64 },
    All { statistics: Statistics },
}

/// What may come next behind the rounds.
pub fn due_statistic(known: Known) -> Due
    ensures { result ≡ due_statistic known }
{
    match known {
        Known::Nothing => Due::Block,
        Known::Blocks { .. } => Due::Statistic {
            counter: Counter::SizeInUse,
        },
        Known::Size { .. } => Due::Statistic {
            counter: Counter::MaxSizeInUse,
        },
        Known::MaxSize { .. } => Due::Statistic {
            counter: Counter::SizeAllocated,
        },
        Known::All { .. } => Due::Nothing,
    }
}

/// One more line behind the rounds.
pub fn in_tail(
    run: Run,
    listing: Items<Listed>,
    known: Known,
    line: RunLine,
) -> Result<Option<Stage>, AllocError>
    ensures { IfOk result (λ s. s ≡ in_tail run listing known line) }
{
    match line {
        RunLine::Block { block } => match known {
            Known::Nothing => {
                let mut listing = listing;
                listing.push(block)?;
                Ok(Some(Stage::Tail {
                    run,
                    listing,
                    known,
                }))
            }
            _ => Ok(None),
        },
        RunLine::Statistic { counter, value } => match known_with(known, counter, value) {
            None => Ok(None),
            Some(known) => Ok(Some(Stage::Tail {
                run,
                listing,
                known,
            })),
        },
        _ => Ok(None),
    }
}

/// The statistics with one more, if that is the next one.
fn known_with(known: Known, counter: Counter, value: u64) -> Option<Known>
    ensures { result ≡ known_with known counter value }
{
    match known {
        Known::Nothing => match counter {
            Counter::BlocksInUse => Some(Known::Blocks { blocks: value }),
            _ => None,
        },
        Known::Blocks { blocks } => match counter {
            Counter::SizeInUse => Some(Known::Size {
                blocks,
                size: value,
            }),
            _ => None,
        },
        Known::Size { blocks, size } => match counter {
            Counter::MaxSizeInUse => Some(Known::MaxSize {
                blocks,
                size,
                most: value,
            }),
            _ => None,
        },
        Known::MaxSize { blocks, size, most } => match counter {
            Counter::SizeAllocated => Some(Known::All {
                statistics: Statistics {
                    blocks_in_use: blocks,
                    size_in_use: size,
                    max_size_in_use: most,
                    size_allocated: value,
                },
            }),
            _ => None,
        },
        Known::All { .. } => None,
    }
}
