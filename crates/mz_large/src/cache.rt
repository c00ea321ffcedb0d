//! The runs that were freed last.
ghost use Rattle.std.specs.Prelude.{◌≡◌, ℕ, ◌+◌, ◌==◌, ◌<◌, ◌≤◌, [], ◌∷◌, ◌++◌, length, map, true, false, Some, None, IsTrue, IfOk, MatchOption};
ghost use Rattle.std.specs.List.{All, AllWithin, HoldsAt, list_any, remove};
ghost use Rattle.mz_base.specs.Space.{run_at};
ghost use Rattle.mz_base.specs.declared.range.TheConstants.{PAGE};
ghost use Rattle.mz_events.specs.Separation.{has_page};
ghost use Rattle.mz_events.specs.Room.{best_fit, run_fits};
ghost use Rattle.mz_large.specs.Best.{fewer_of};
ghost use Rattle.mz_large.specs.Large.{run_of_span};

use mz_base::PAGE;
use mz_ground::Span;
use std::alloc::{AllocError, Global};
use std::marker::Model;

/// How many freed runs are kept (our own number).
pub(crate) const MOST: usize = 16;

/// The spans of cached runs, the one freed first before the others, at most 16. Contracts see them as a list.
#[derive(Drop)]
pub(crate) struct Cache {
    spans: Vec<Span>,
}

impl Model for Cache {
    ghost use Rattle.std.specs.Prelude.{List};
    ghost use Rattle.mz_ground.specs.Views.{SpanView};
    ghost use Rattle.mz_large.specs.Large.{spans_code};

    ghost Value = { List SpanView };

    ghost coded = { spans_code };

    ghost use Rattle.std.specs.Prelude.{◌≤◌, length, vec_capacity};

    ghost view = { λ c. c.spans.items };

    ghost invariant = { λ c. (length c.spans.items ≤ 16) × (16 ≤ vec_capacity c.spans) };
}

impl Cache {
    /// No runs. All memory is taken here.
    pub(crate) fn make(alloc: Global) -> Result<Cache, AllocError>
        ensures { IfOk result (λ c. c ≡ []) }
    {
        let spans = Vec::with_capacity(alloc, MOST)?;
        Ok(Cache { spans })
    }

    /// Adds a run that is freed, and answers the one freed first where there were 16.
    pub(crate) fn push(&mut self, s: Span) -> Option<Span>
        ensures { MatchOption result ((length self.old < 16) × (self.new ≡ self.old ++ s ∷ []))
            (λ t. (length self.old ≡ 16) × (t ∷ self.new ≡ self.old ++ s ∷ [])) }
    {
        let oldest = if self.spans.len() < MOST {
            None
        } else {
            self.pop_oldest()
        };
        match self.spans.push(s) {
            Ok(()) => oldest,
            Err(_) => unreachable!(),
        }
    }

    /// Takes out the run that was freed first.
    pub(crate) fn pop_oldest(&mut self) -> Option<Span>
        ensures { MatchOption result ((self.old ≡ []) × (self.new ≡ [])) (λ s. self.old ≡ s ∷ self.new) }
    {
        if self.spans.is_empty() {
            None
        } else {
            Some(self.spans.remove(0))
        }
    }

    /// Takes out the `i`-th run.
    pub(crate) fn take(&mut self, i: usize) -> Span
        requires { i < length self.old }
        ensures value { HoldsAt (λ s. s ≡ result) self.old i }
        ensures left { self.new ≡ remove self.old i }
    {
        self.spans.remove(i)
    }

    /// The first page and the number of pages of the `i`-th run.
    pub(crate) fn pages(&self, i: usize) -> (u64, u64)
        requires { i < length self.now }
        ensures { HoldsAt (λ s. run_at result.0 result.1 ≡ run_of_span s) self.now i }
    {
        (self.spans[i].first() / PAGE, self.spans[i].len() / PAGE)
    }

    /// The place of the run with the fewest pages of those that have `w` and waste fewer than `w`; of
    /// equals, of the one freed first.
    pub(crate) fn best(&self, w: u64) -> Option<usize>
        ensures { MatchOption result (best_fit (map run_of_span self.now) w ≡ None)
            (λ i. (i < length self.now) × HoldsAt (λ s. best_fit (map run_of_span self.now) w ≡ Some (run_of_span s)) self.now i) }
    {
        let mut best = None;
        let mut i = self.spans.len();
        while i > 0 {
            i -= 1;
            let pages = self.spans[i].len() / PAGE;
            if fits(pages, w) {
                best = Some(fewer(best, (i, pages)));
            }
        }
        match best {
            Some((place, _)) => Some(place),
            None => None,
        }
    }

    /// The place of the run that begins at a page.
    pub(crate) fn at(&self, first: u64) -> Option<usize>
        ensures { MatchOption result (All (λ s. ((run_of_span s).first == first) ≡ false) self.now)
            (λ i. (i < length self.now) × HoldsAt (λ s. (run_of_span s).first ≡ first) self.now i) }
    {
        for i in 0..self.spans.len() {
            if self.spans[i].first() / PAGE == first {
                return Some(i);
            }
        }
        None
    }

    /// The place of the run in which a page is.
    pub(crate) fn holding(&self, page: u64) -> Option<usize>
        ensures { MatchOption result (All (λ s. has_page (run_of_span s) page ≡ false) self.now)
            (λ i. (i < length self.now) × HoldsAt (λ s. has_page (run_of_span s) page ≡ true) self.now i) }
    {
        for i in 0..self.spans.len() {
            let first = self.spans[i].first() / PAGE;
            if first <= page && page - first < self.spans[i].len() / PAGE {
                return Some(i);
            }
        }
        None
    }
}

// Whether a run of so many pages has `w` and wastes fewer than `w`.
fn fits(pages: u64, w: u64) -> bool
    ensures { (f : ℕ) → result ≡ run_fits w (run_at f pages) }
{
    w <= pages && pages - w < w
}

// Of places with their pages the one with fewer; of equals the second.
fn fewer(best: Option<(usize, u64)>, other: (usize, u64)) -> (usize, u64)
    ensures { result ≡ fewer_of best other }
{
    match best {
        Some(first) if first.1 < other.1 => first,
        _ => other,
    }
}
