//! Large with the spans of its live blocks.
ghost use Rattle.std.specs.Prelude.{◌≡◌};

use mz_base::PAGE;
use mz_ground::Span;
use mz_large::Large;
use std::alloc::{AllocError, Global};
use std::marker::Model;

/// A call of large, or a look at it.
#[derive(Clone, Copy)]
pub enum Call {
    /// Gives the last span back, and answers the run that was pushed out.
    Free,
    /// Takes a cached run for so many pages again.
    Reuse(u64),
    /// Takes out the cached run that begins at the page.
    TakeOut(u64),
    /// Takes out the cached run that was freed first.
    Flush,
    /// Which run has the page.
    RunOf(u64),
    /// An address, and the size of the live block there.
    SizeAt(u64),
    /// How many blocks are live, and 0.
    Count,
}

/// Contracts see the space of which all of it is.
#[derive(Drop)]
pub struct Bench {
    large: Large,
    spans: Vec<Span>,
    rest: Span,
}

impl Model for Bench {
    ghost use Rattle.std.specs.Prelude.{◌≡◌};
    ghost use Rattle.std.specs.List.{All};
    ghost use Rattle.mz_base.specs.Site.{Site, site_code};
    ghost use Rattle.mz_events.specs.Standing.{IsOf};

    ghost Value = { Site };

    ghost coded = { site_code };

    ghost view = { λ b. b.rest.space };

    ghost invariant = { λ b. IsOf b.large.space b.rest.space × All (λ s. s.space ≡ b.rest.space) b.spans.items };
}

impl Bench {
    /// Makes the pages of a space live blocks, in turn of so many pages, as far as there are pages.
    pub fn of_runs(alloc: Global, space: Span, lengths: &[u64]) -> Result<Bench, AllocError>
        requires { space.first ≡ 0 }
    {
        let mut large = Large::make(alloc, 64)?;
        let mut spans = Vec::new(alloc);
        let mut rest = space;
        for pages in lengths {
            if *pages >= 1 && *pages <= rest.len() / PAGE && rest.first() < 64 * PAGE {
                let (run, back) = rest.split(*pages * PAGE);
                rest = back;
                large.enter(&run);
                spans.push(run)?;
            }
        }
        Ok(Bench { large, spans, rest })
    }

    pub fn call(&mut self, call: Call) -> Option<(u64, u64)> {
        match call {
            Call::Free => self.free_last(),
            Call::Reuse(w) => pages_of(self.large.reuse(w)),
            Call::TakeOut(first) => pages_of(self.large.take_out(first)),
            Call::Flush => pages_of(self.large.flush_one()),
            Call::RunOf(page) => self.large.run_of(page),
            Call::SizeAt(a) => Some((a, self.large.size_at(a))),
            Call::Count => Some((self.large.count(), 0)),
        }
    }

    // A block whose span isn't taken stays live, and is counted.
    fn free_last(&mut self) -> Option<(u64, u64)> {
        let span = self.spans.pop()?;
        match self.large.free(span) {
            Ok(out) => pages_of(out),
            Err(_) => None,
        }
    }
}

// The first page and the number of pages of a span.
fn pages_of(span: Option<Span>) -> Option<(u64, u64)> {
    let span = span?;
    Some((span.first() / PAGE, span.len() / PAGE))
}
