//! A state that lawful entries leave, and one step of it.
ghost use Rattle.std.specs.Prelude.{◌≡◌, ◌==◌, ◌≢◌, ◌<◌, None, Some, OnOk, OnErr, IfOk, MatchResult};
ghost use Rattle.std.specs.Option.{option_map};
ghost use Rattle.mz_base.specs.declared.profile.Profile.{Profile as profile};
ghost use Rattle.mz_base.specs.Limits.{IsWithinLimits};
ghost use Rattle.mz_history.specs.declared.state.StepFault.TheVariants.{NoMemory as no_memory};
ghost use Rattle.mz_events.specs.Places.{spot_of};
ghost use Rattle.mz_events.specs.State.{opening, kept_at, value_at, is_open as is_zone_open};
ghost use Rattle.mz_events.specs.History.{IsLawful, after_entry};
ghost use Rattle.mz_history.specs.Listed.{IsListOfRuns, IsListOfBlocks, cached_pages};
ghost use Rattle.mz_history.specs.Steps.{block_of_pair, IsStep};

use crate::books::Books;
use crate::listing::{LiveAt, RunAt};
use mz_base::Profile;
use mz_events::{Entry, Event, Place};
use mz_spots::Key;
use std::alloc::{AllocError, Global};
use std::marker::Model;
use thiserror::Error;

/// Why a step changes nothing.
#[derive(Clone, Copy, Debug, PartialEq, Eq, Error)]
pub enum StepFault {
    /// The entry isn't lawful on the state. The whys are numbered from 1 to 14, and this is the first.
    #[error("unlawful: why {why}")]
    Unlawful { why: u8 },
    /// Memory is wanted, or there are 2^64 - 1 entries.
    #[error("out of memory")]
    NoMemory,
}

impl From<AllocError> for StepFault {
    ghost from_gives = { λ _ e. e ≡ no_memory };

    fn from(_e: AllocError) -> StepFault {
        StepFault::NoMemory
    }
}

/// A state that lawful entries leave from the opening state. Contracts see it as the definition has it, with its profile.
#[derive(Drop)]
pub struct State {
    books: Books,
    // All runs and all live blocks, ascending, and for each zone the first pages of its cached runs.
    runs: Vec<RunAt>,
    live: Vec<LiveAt>,
    cached: Vec<Vec<u64>>,
}

impl Model for State {
    ghost use Rattle.std.specs.Prelude.{map};
    ghost use Rattle.mz_history.specs.Booked.{Booked};
    ghost use Rattle.mz_history.specs.Listed.{IsListOfRuns, IsListOfBlocks};
    ghost use Rattle.mz_history.specs.CachedLists.{AreCached};

    ghost Value = { Booked };

    ghost view = { λ s. s.books };

    ghost invariant = { λ s. IsListOfRuns s.books.profile s.books.state s.runs.items × IsListOfBlocks s.books.state s.live.items × AreCached s.books (map (λ v. v.items) s.cached.items) };
}

impl State {
    /// All pages below nano's are free, zone 0 is open, and there is nothing else.
    pub fn open(alloc: Global, p: &Profile) -> Result<State, AllocError>
        requires { IsWithinLimits p.now }
        ensures { IfOk result (λ s. s ≡ record { profile = p.now; state = opening }) }
    {
        State::of(Books::open(alloc, p)?)
    }

    /// The numbers of its space.
    pub fn profile(&self) -> &Profile
        ensures { result.now ≡ self.now.profile }
    {
        self.books.profile()
    }

    /// The runs of all places but the free pages, ascending.
    pub fn runs(&self) -> &[RunAt]
        ensures { IsListOfRuns self.now.profile self.now.state result.now }
    {
        &self.runs
    }

    /// The live blocks, ascending.
    pub fn live(&self) -> &[LiveAt]
        ensures { IsListOfBlocks self.now.state result.now }
    {
        &self.live
    }

    /// The first pages of the cached runs of large of the zone, in order of freeing.
    pub fn cached(&self, zone: u32) -> &[u64]
        ensures { result.now ≡ cached_pages self.now.state zone }
    {
        if self.books.has_zone(zone) {
            &self.cached[zone as usize]
        } else {
            &[]
        }
    }

    /// The last freed block of a place: its address and its size.
    pub fn last_freed(&self, k: Place) -> Option<(u64, u64)>
        ensures { option_map block_of_pair result ≡ (kept_at self.now.state (spot_of k)).last_freed }
    {
        self.books.last_freed(k)
    }

    /// The duty that stands at a place.
    pub fn owes(&self, k: Place) -> Option<Event>
        ensures { result ≡ (value_at self.now.state (spot_of k)).duty }
    {
        self.books.duty(Key::of(k))
    }

    /// Whether the zone is open.
    pub fn is_open(&self, zone: u32) -> bool
        ensures { result ≡ is_zone_open self.now.state zone }
    {
        self.books.is_open(zone)
    }

    /// How many entries there are so far.
    pub fn entries(&self) -> u64
        ensures { result ≡ self.now.state.entries }
    {
        self.books.entries()
    }

    /// The greatest sum of live bytes so far.
    pub fn max_size(&self) -> u64
        ensures { result ≡ self.now.state.greatest }
    {
        self.books.greatest()
    }

    // The state with its lists.
    pub(crate) fn of(books: Books) -> Result<State, AllocError>
        ensures { IfOk result (λ s. s ≡ books) }
    {
        let runs = books.list_runs()?;
        let live = books.list_live()?;
        let cached = books.list_cached()?;
        Ok(State {
            books,
            runs,
            live,
            cached,
        })
    }
}

/// One more entry. Ok leaves the state after it; an error leaves the state as it was.
pub fn step(s: &mut State, e: &Entry) -> Result<(), StepFault>
    ensures { IsStep s.old e.now result s.new }
{
    if e.ticket != s.books.entries() {
        return Err(StepFault::Unlawful { why: 1 });
    }
    if let Some(why) = s.books.breach(e.caller, &e.event)? {
        return Err(StepFault::Unlawful { why });
    }
    let copy = s.books.copy()?;
    let books = copy.apply(e.caller, &e.event)?;
    *s = State::of(books)?;
    Ok(())
}
