//! The pages that no run has.
ghost use Rattle.std.specs.Prelude.{◌≡◌, ◌+◌, ◌-◌, ◌*◌, ◌/◌, ◌%◌, ◌<◌, ◌≤◌, length, true, false, All, Contains, IfOk, MatchOption, MatchResult};
ghost use Rattle.std.specs.List.{AllWithin};
ghost use Rattle.mz_pages.specs.Pages.{all_free, free_count, first_page, page_count, with_pages, Takes, IsWhole};
ghost use Rattle.mz_pages.specs.FreeRuns.{HasNoFree};

use crate::search::lowest_in;
use mz_base::PAGE;
use mz_bits::Bits;
use mz_ground::{Ground, Span};
use std::alloc::{AllocError, Global};
use std::marker::Model;

/// The pages of a span, of which runs are lent and come back. Contracts see the span's space, its
/// first page there, and for each of its pages whether it is free. A page's number counts from the
/// start of the space.
///
/// Pages of which none is out are dropped as their span is. Any others are forgotten.
#[derive(Drop)]
pub struct Pages {
    ground: Ground<16_384>,
    // A bit for each page, set where it is out.
    out: Bits,
    first: u64,
    free: u64,
}

impl Model for Pages {
    ghost use Rattle.mz_pages.specs.Pages.{PagesView, pages_code};

    ghost Value = { PagesView };

    ghost coded = { pages_code };

    ghost use Rattle.std.specs.Prelude.{map, not};
    ghost use Rattle.mz_pages.specs.Kept.{IsKept};

    ghost view = { λ p. record { space = p.ground.space; first = p.first; free = map not p.out } };

    ghost invariant = { λ p. IsKept p.ground p.out p.first p.free };
}

impl Pages {
    /// The pages of a span of whole pages, all free. Where memory is wanted the span is dropped.
    pub fn make(alloc: Global, span: Span) -> Result<Pages, AllocError>
        requires at_page { span.first % PAGE ≡ 0 }
        requires whole { length span.bytes % PAGE ≡ 0 }
        ensures { IfOk result (λ p. p ≡ all_free span) }
    {
        let first = span.first() / PAGE;
        let count = span.len() / PAGE;
        let out = Bits::make(alloc, count)?;
        let lent = Vec::from_elem(alloc, false, count as usize)?;
        Ok(Pages {
            ground: Ground::of(span, lent),
            out,
            first,
            free: count,
        })
    }

    /// Lends the lowest free run of `w` pages at a multiple of `al` pages of the space. It looks at
    /// words of the map and at free runs, the lowest first.
    pub fn take(&mut self, w: u64, al: u64) -> Option<Span>
        requires some { 1 ≤ w }
        requires aligned { 1 ≤ al }
        ensures taken { MatchOption result
            (HasNoFree self.old.first self.old.free w al × (self.new ≡ self.old))
            (Takes self.old self.new w al) }
        ensures count { length self.new.free ≡ length self.old.free }
    {
        let i = lowest_in(&self.out, self.first, w, al)?;
        self.out.set_run(i, w);
        self.free -= w;
        Some(self.ground.lend(i, w))
    }

    /// Takes back whole pages of the span that was given to `make`. Only `take` can have lent them,
    /// so nothing is searched; they may be all of a run, a part of one, or several in a row.
    pub fn back(&mut self, s: Span)
        requires space { s.space ≡ self.old.space }
        requires at_page { s.first % PAGE ≡ 0 }
        requires whole { length s.bytes % PAGE ≡ 0 }
        requires above { self.old.first ≤ first_page s }
        requires below { first_page s + page_count s ≤ self.old.first + length self.old.free }
        ensures were_out { let i = first_page s - self.old.first in
            AllWithin (λ b. b ≡ false) self.old.free i (i + page_count s) }
        ensures freed { self.new ≡ with_pages self.old (first_page s) (page_count s) true }
        ensures count { length self.new.free ≡ length self.old.free }
    {
        let i = s.first() / PAGE - self.first;
        let n = s.len() / PAGE;
        self.ground.put_back(i, n, s);
        self.out.clear_run(i, n);
        self.free += n;
    }

    /// How many pages are free.
    pub fn free_pages(&self) -> u64
        ensures { result ≡ free_count self.now.free }
    {
        self.free
    }

    /// The span that was given to `make`. Where a page is out the pages come back.
    pub fn into_span(self) -> Result<Span, Pages>
        ensures { MatchResult result
            (λ s. All (λ b. b ≡ true) self.free × IsWhole self s)
            (λ p. Contains self.free false × (p ≡ self)) }
    {
        let Pages {
            ground,
            out,
            first,
            free,
        } = self;
        match ground.into_span() {
            Ok((span, _lent)) => Ok(span),
            Err(ground) => Err(Pages {
                ground,
                out,
                first,
                free,
            }),
        }
    }
}
