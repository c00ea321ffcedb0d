//! A region with the spans of its live blocks.
ghost use Rattle.std.specs.Prelude.{◌≡◌, ◌*◌, ◌%◌, ◌<◌, ◌≤◌, length, IfSome};
ghost use Rattle.std.specs.Int.{IsPowerOfTwo};
ghost use Rattle.mz_base.specs.Limits.{IsFrom};

use crate::spans::Spans;
use mz_ground::Span;
use mz_region::{Blank, Region};
use std::alloc::{AllocError, Global};
use std::marker::Model;

/// Contracts see the region's space, of which each of these spans is.
#[derive(Drop)]
pub struct Bench<const Q: usize, const N: usize> {
    region: Region<Q, N>,
    spans: Spans,
}

impl<const Q: usize, const N: usize> Model for Bench<Q, N> {
    ghost use Rattle.std.specs.Prelude.{◌≡◌};
    ghost use Rattle.mz_base.specs.Site.{Site, site_code};

    ghost Value = { Site };

    ghost coded = { site_code };

    ghost view = { λ b. b.spans };

    ghost invariant = { λ b. b.region.space ≡ b.spans };
}

impl<const Q: usize, const N: usize> Bench<Q, N> {
    /// An empty region, which has all of the span.
    pub fn new(alloc: Global, span: Span) -> Result<Bench<Q, N>, AllocError>
        requires power { IsPowerOfTwo Q }
        requires whole { length span.bytes ≡ Q * N }
        requires at { span.first % (Q * N) ≡ 0 }
    {
        let (rest, span) = span.split(0);
        Ok(Bench {
            region: Blank::make(alloc)?.fit(span),
            spans: Spans::new(alloc, rest),
        })
    }

    pub fn region(&self) -> &Region<Q, N> {
        &self.region
    }

    /// The address of the `q`-th quantum.
    pub fn address(&self, q: u64) -> u64 {
        self.region
            .first()
            .saturating_add(q.saturating_mul(Q as u64))
    }

    pub fn alloc(&mut self, n: u64) -> Result<Option<(u64, u64)>, AllocError>
        requires { IsFrom 1 64 n }
    {
        let span = self.region.alloc(n);
        self.keep(span)
    }

    pub fn alloc_aligned(&mut self, n: u64, al: u64) -> Result<Option<(u64, u64)>, AllocError>
        requires quanta { IsFrom 1 64 n }
        requires power { IsPowerOfTwo al }
        requires range { IsFrom Q 16384 al }
    {
        let span = self.region.alloc_aligned(n, al);
        self.keep(span)
    }

    pub fn alloc_at(&mut self, a: u64, n: u64) -> Result<Option<(u64, u64)>, AllocError>
        requires { IsFrom 1 64 n }
    {
        if a.checked_rem(Q as u64) != Some(0) {
            return Ok(None);
        }
        let span = self.region.alloc_at(a, n);
        self.keep(span)
    }

    /// Gives the `i`-th span back, and answers its address and its size, which is 0 where it wasn't taken.
    pub fn free(&mut self, i: usize) -> Option<(u64, u64)> {
        let span = self.spans.take(i)?;
        let (a, size) = (span.first(), span.len());
        match self.region.free(span) {
            Ok(()) => Some((a, size)),
            Err(_) => Some((a, 0)),
        }
    }

    /// Makes the `i`-th span one of `n` quanta, and answers its address and its size then.
    pub fn resize(&mut self, i: usize, n: u64) -> Result<Option<(u64, u64)>, AllocError>
        requires { IsFrom 1 64 n }
    {
        let Some(mut span) = self.spans.take(i) else {
            return Ok(None);
        };
        if span.is_empty() || self.region.size_at(span.first()) != span.len() {
            return Ok(None);
        }
        self.region.resize(&mut span, n);
        self.keep(Some(span))
    }

    fn keep(&mut self, span: Option<Span>) -> Result<Option<(u64, u64)>, AllocError>
        requires { IfSome span (λ s. s.space ≡ self.old) }
    {
        let Some(span) = span else {
            return Ok(None);
        };
        Ok(Some(self.spans.add(span)?))
    }
}
