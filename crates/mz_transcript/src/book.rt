//! The rounds of a printed run that are closed.

ghost use Rattle.std.specs.Prelude.{◌≡◌, IfOk};
ghost use Rattle.mz_transcript.specs.Stages.{blank_book, closed, ended, is_full, opened};

use crate::part::Part;
use crate::stage::Stage;
use crate::tail::Known;
use mz_base::{Items, Profile};
use mz_trace::given::GivenNames;
use mz_trace::round::MOST_ROUNDS;
use mz_trace::{CallRecord, Run, RunRound, StartRecord};
use std::alloc::{AllocError, Global};

/// The profile, the names under which blocks were given, and the rounds that are closed.
#[derive(Drop)]
pub struct Book {
    pub profile: Profile,
    pub given: GivenNames,
    pub rounds: Items<RunRound>,
}

impl Book {
    /// No rounds.
    pub fn new(alloc: Global, profile: Profile) -> Book
        ensures { result ≡ blank_book profile }
    {
        Book {
            profile,
            given: GivenNames::new(alloc),
            rounds: Items::new(alloc),
        }
    }

    /// The first of a further round's parts, if there may be one more.
    pub fn open(self, alloc: Global) -> Option<Stage>
        ensures { result ≡ opened self }
    {
        if is_full(&self.rounds) {
            None
        } else {
            let starts = Items::new(alloc);
            Some(Stage::Rounds {
                book: self,
                part: Part::Starts { starts },
            })
        }
    }

    /// No further round.
    pub fn end(self, alloc: Global) -> Stage
        ensures { result ≡ ended self }
    {
        let run = Run {
            profile: self.profile,
            rounds: self.rounds,
        };
        Stage::Tail {
            run,
            listing: Items::new(alloc),
            known: Known::Nothing,
        }
    }

    /// With a round, if it has a section for each caller.
    pub fn close(
        mut self,
        starts: Items<StartRecord>,
        lists: Items<Items<CallRecord>>,
        calls: Items<CallRecord>,
    ) -> Result<Option<Book>, AllocError>
        ensures { IfOk result (λ b. b ≡ closed self starts lists calls) }
    {
        if lists.as_slice().len() + 1 != self.profile.callers as usize {
            return Ok(None);
        }
        let mut callers = lists;
        callers.push(calls)?;
        self.rounds.push(RunRound { starts, callers })?;
        Ok(Some(self))
    }
}

/// Whether there are as many rounds as there may be.
fn is_full(rounds: &Items<RunRound>) -> bool
    ensures { result ≡ is_full rounds.now }
{
    rounds.as_slice().len() as u64 >= MOST_ROUNDS
}
