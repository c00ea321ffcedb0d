use mz_base::Items;
use mz_lines::{Command, RoundLine};

/// The most rounds of a trace.
pub const MOST_ROUNDS: u64 = 4_096;

/// One round: what is done at its start, and what each caller asks for, caller 0 first.
#[derive(Drop, Debug)]
pub struct Round {
    pub lines: Items<RoundLine>,
    pub commands: Items<Items<Command>>,
}
