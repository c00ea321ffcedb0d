use mz_base::{Items, Profile};
use mz_events::Event;
use mz_lines::{Answer, Command, RoundLine};

/// An event with its ticket. Whose it is, the section in which it stands says.
#[derive(Clone, Copy, Debug, PartialEq, Eq)]
pub struct RunEntry {
    pub ticket: u64,
    pub event: Event,
}

/// What became of one line at the start of a round: the entries behind it, and its answer.
#[derive(Drop, Debug)]
pub struct StartRecord {
    pub line: RoundLine,
    pub steps: Items<RunEntry>,
    pub answer: Answer,
}

/// What became of one command: the entries behind it, and its answer.
#[derive(Drop, Debug)]
pub struct CallRecord {
    pub command: Command,
    pub steps: Items<RunEntry>,
    pub answer: Answer,
}

/// What became of one round: the records of the lines at its start, and those of each caller, caller 0
/// first.
#[derive(Drop, Debug)]
pub struct RunRound {
    pub starts: Items<StartRecord>,
    pub callers: Items<Items<CallRecord>>,
}

/// A trace with what became of each of its lines. Each line stands in its record.
#[derive(Drop, Debug)]
pub struct Run {
    pub profile: Profile,
    pub rounds: Items<RunRound>,
}
