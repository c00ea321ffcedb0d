//! Large of a zone.
ghost use Rattle.std.specs.Prelude.{◌≡◌, ◌<◌, ◌==◌, [], ◌∷◌, length, find, Some, None, IsTrue, IfOk, MatchOption, MatchResult};
ghost use Rattle.std.specs.Option.{option_map};
ghost use Rattle.std.specs.List.{list_any, list_all};
ghost use Rattle.mz_base.specs.Space.{runs_apart};
ghost use Rattle.mz_base.specs.Lists.{has_run, has_block, size_at};
ghost use Rattle.mz_events.specs.declared.place.Place.{Place as place};
ghost use Rattle.mz_events.specs.Places.{is_large};
ghost use Rattle.mz_events.specs.State.{nothing_kept};
ghost use Rattle.mz_events.specs.Room.{any_fits, best_fit};
ghost use Rattle.mz_events.specs.Changes.{with_block, without_block, with_run};
ghost use Rattle.mz_events.specs.Separation.{has_page};
ghost use Rattle.mz_events.specs.Standing.{IsOf};
ghost use Rattle.mz_large.specs.Blocks.{IsPaged};
ghost use Rattle.mz_large.specs.Large.{block_of, run_of_span, HandsOut, Reuses};

use crate::cache::Cache;
use crate::live::{Block, Live};
use mz_base::PAGE;
use mz_events::Keep;
use mz_events::laws::best_fits;
use mz_ground::Span;
use std::alloc::{AllocError, Global};
use std::marker::Model;

/// The large runs of a zone: those of live blocks, whose spans are with the callers, and up to 16 cached ones,
/// which were freed and whose spans are owned here.
///
/// Contracts see what it keeps: for how many runs it has room, the space of the cached ones where there are
/// some, all runs, the live blocks, and the cached runs, the one freed first before the others.
#[derive(Drop)]
pub struct Large {
    live: Live,
    cache: Cache,
}

impl Model for Large {
    ghost use Rattle.mz_events.specs.Standing.{LargeKept};
    ghost use Rattle.mz_large.specs.Large.{large_code};

    ghost Value = { LargeKept };

    ghost coded = { large_code };

    ghost use Rattle.mz_large.specs.Large.{keeping_of, IsLarge};

    ghost view = { λ l. keeping_of l.live.room l.live.blocks l.cache };

    ghost invariant = { λ l. IsLarge l.live.room l.live.blocks l.cache };
}

impl Keep for Large {
    ghost use Rattle.mz_events.specs.Standing.{Keeping};
    ghost use Rattle.mz_events.specs.Standing.Keeping.{of_large};

    ghost keeping = { λ l. of_large l };
}

impl Large {
    /// No runs, and room for `most`. All memory is taken here.
    pub fn make(alloc: Global, most: u64) -> Result<Large, AllocError>
        ensures { IfOk result (λ l. l ≡ record { room = most; space = None; kept = nothing_kept }) }
    {
        Ok(Large {
            live: Live::make(alloc, most)?,
            cache: Cache::make(alloc)?,
        })
    }

    /// How many blocks are live.
    pub fn count(&self) -> u64
        ensures { result ≡ length self.now.kept.live }
    {
        self.live.len()
    }

    /// The bytes of the live block that begins at the address `a`, and 0 where none does.
    pub fn size_at(&self, a: u64) -> u64
        ensures { result ≡ size_at self.now.kept.live a }
    {
        self.live.size_at(a)
    }

    /// The first page and the number of pages of the run that holds a page, or None where none does.
    pub fn run_of(&self, page: u64) -> Option<(u64, u64)>
        ensures { result ≡ option_map (λ r. (r.first, r.pages)) (find (λ r. has_page r page) self.now.kept.runs) }
    {
        if let Some(block) = self.live.holding(page) {
            return Some((block.first / PAGE, block.size / PAGE));
        }
        let i = self.cache.holding(page)?;
        Some(self.cache.pages(i))
    }

    /// Makes a cached run the block that serves a request for `w` pages: the best fit, which has fewest pages of those that
    /// have `w` and waste fewer than `w`, and of equals the one freed first. None where no cached run fits.
    pub fn reuse(&mut self, w: u64) -> Option<Span>
        ensures { MatchOption result ((self.new ≡ self.old) × ¬ IsTrue (any_fits self.old.kept.cached w))
            (λ s. (best_fit self.old.kept.cached w ≡ Some (run_of_span s)) × Reuses self.old s self.new) }
    {
        best_fits();
        let i = self.cache.best(w)?;
        let span = self.cache.take(i);
        self.live.insert(Block::of(&span));
        Some(span)
    }

    /// Makes a run that comes from the free pages a live block.
    pub fn enter(&mut self, s: &Span)
        requires room { length self.old.kept.runs < self.old.room }
        requires paged { IsPaged (block_of s.now) }
        requires apart { IsTrue (list_all (λ r. runs_apart r (run_of_span s.now)) self.old.kept.runs) }
        ensures { self.new ≡ record self.old { kept = with_block (block_of s.now) (with_run (run_of_span s.now) self.old.kept) } }
    {
        self.live.insert(Block::of(s));
    }

    /// Takes a block back, whose run is the newest cached one then. Where 16 runs were cached, the one freed first
    /// comes out. A span that isn't a live block comes back itself, and nothing changes.
    pub fn free(&mut self, s: Span) -> Result<Option<Span>, Span>
        requires { IsOf self.old.space s.space }
        ensures { let b = block_of s in MatchResult result
            (λ pushed. IsTrue (has_block self.old.kept.live b) × ((q : place) → IsTrue (is_large q) →
            let freed = record self.old { space = Some s.space; kept = without_block q b self.old.kept } in
            MatchOption pushed ((length self.old.kept.cached < 16) × (self.new ≡ freed))
            (λ t. (length self.old.kept.cached ≡ 16) × (freed.kept.cached ≡ run_of_span t ∷ self.new.kept.cached) × HandsOut freed t self.new)))
            (λ t. ¬ IsTrue (has_block self.old.kept.live b) × (self.new ≡ self.old) × (t ≡ s)) }
    {
        if self.live.remove(Block::of(&s)) {
            Ok(self.cache.push(s))
        } else {
            Err(s)
        }
    }

    /// Hands out the cached run that was freed first, or None where none is cached.
    pub fn flush_one(&mut self) -> Option<Span>
        ensures { MatchOption result ((self.new ≡ self.old) × (self.old.kept.cached ≡ []))
            (λ s. (self.old.kept.cached ≡ run_of_span s ∷ self.new.kept.cached) × HandsOut self.old s self.new) }
    {
        self.cache.pop_oldest()
    }

    /// Hands out the cached run that begins at a page, or None where none does.
    pub fn take_out(&mut self, first: u64) -> Option<Span>
        ensures { MatchOption result ((self.new ≡ self.old) × ¬ IsTrue (list_any (λ r. r.first == first) self.old.kept.cached))
            (λ s. ((run_of_span s).first ≡ first) × HandsOut self.old s self.new) }
    {
        let i = self.cache.at(first)?;
        Some(self.cache.take(i))
    }
}
