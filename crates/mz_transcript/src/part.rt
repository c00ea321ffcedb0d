//! What is open of a round of a printed run.

ghost use Rattle.std.specs.Prelude.{◌≡◌};
ghost use Rattle.mz_transcript.specs.Stages.{due_in};

use crate::line::Due;
use mz_base::Items;
use mz_trace::{CallRecord, Command, RoundLine, RunEntry, StartRecord};

/// What is open of a round.
#[derive(Drop)]
pub enum Part {
    /// No round was begun.
    Outside,
    /// The records of the lines at its start.
    Starts {
        starts: Items<StartRecord>,
    },
    /// The record of one of these lines.
    Start {
        starts: Items<StartRecord>,
        line: RoundLine,
        steps: Items<RunEntry>,
    },
    /// A caller's section, behind those that are closed.
    Section {
        starts: Items<StartRecord>,
        lists: Items<Items<CallRecord>>,
        calls: Items<CallRecord>,
    },
    /// The record of a command in this section.
    Call {
        starts: Items<StartRecord>,
        lists: Items<Items<CallRecord>>,
        calls: Items<CallRecord>,
        command: Command,
        steps: Items<RunEntry>,
    },
}

/// What may come next within the rounds.
pub fn due_in(callers: u32, part: &Part) -> Due
    ensures { result ≡ due_in callers part.now }
{
    match part {
        Part::Outside => Due::Heading,
        Part::Starts { .. } => Due::Start,
        Part::Start { .. } => Due::Told,
        Part::Section { .. } => Due::Call { callers },
        Part::Call { .. } => Due::Told,
    }
}
