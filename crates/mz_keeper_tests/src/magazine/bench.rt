//! A magazine with the spans of its live blocks, and regions that it hasn't.
ghost use Rattle.std.specs.Prelude.{◌≡◌, ◌*◌, ◌%◌, ◌<◌, ◌≤◌, None, length, IfSome};
ghost use Rattle.std.specs.Int.{IsPowerOfTwo};
ghost use Rattle.mz_base.specs.Limits.{IsFrom};

use crate::spans::Spans;
use mz_ground::Span;
use mz_magazine::Magazine;
use mz_region::{Blank, Region};
use std::alloc::{AllocError, Global};
use std::marker::Model;

/// Contracts see the space of which all of it is.
#[derive(Drop)]
pub struct Bench<const Q: usize, const N: usize> {
    magazine: Magazine<Q, N>,
    pool: Vec<Region<Q, N>>,
    spans: Spans,
}

impl<const Q: usize, const N: usize> Model for Bench<Q, N> {
    ghost use Rattle.std.specs.Prelude.{◌≡◌};
    ghost use Rattle.std.specs.List.{All};
    ghost use Rattle.mz_base.specs.Site.{Site, site_code};
    ghost use Rattle.mz_events.specs.Standing.{IsOf};

    ghost Value = { Site };

    ghost coded = { site_code };

    ghost view = { λ b. b.spans };

    ghost invariant = { λ b. IsOf b.magazine.space b.spans × (b.magazine.room ≡ 4) × All (λ r. r.space ≡ b.spans) b.pool.items };
}

impl Bench<16, 64> {
    /// An empty magazine or depot, and a pool of six regions from the front of a space.
    pub fn of_pieces(alloc: Global, space: Span, depot: bool) -> Result<Bench<16, 64>, AllocError> {
        let mut bench = Bench {
            magazine: Magazine::make(alloc, 4, depot)?,
            pool: Vec::new(alloc),
            spans: Spans::new(alloc, space),
        };
        for _ in 0..6 {
            bench.cut(alloc)?;
        }
        Ok(bench)
    }

    // Adds a region from the front of what is left of the space to the pool.
    fn cut(&mut self, alloc: Global) -> Result<(), AllocError> {
        if let Some(piece) = self.spans.cut(1024) {
            if piece.first() % 1024 == 0 {
                self.pool.push(Blank::make(alloc)?.fit(piece))?;
            }
        }
        Ok(())
    }

    /// Moves the region that waited the longest from the pool to the magazine, where that has room, and answers
    /// its first address.
    pub fn adopt(&mut self) -> Option<u64> {
        if self.pool.is_empty() || self.magazine.regions() >= 4 {
            return None;
        }
        let region = self.pool.remove(0);
        let first = region.first();
        self.magazine.adopt(region);
        Some(first)
    }

    /// Moves a region from the magazine to the pool, and answers how many live blocks it has.
    pub fn yield_region(&mut self, first: u64) -> Result<Option<u64>, AllocError> {
        let Some(region) = self.magazine.yield_region(first) else {
            return Ok(None);
        };
        let count = region.count();
        self.pool.push(region)?;
        Ok(Some(count))
    }
}

impl<const Q: usize, const N: usize> Bench<Q, N> {
    /// A magazine of one region, which is all of the space.
    pub fn of_one(alloc: Global, space: Span) -> Result<Bench<Q, N>, AllocError>
        requires power { IsPowerOfTwo Q }
        requires whole { length space.bytes ≡ Q * N }
        requires at { space.first % (Q * N) ≡ 0 }
    {
        let mut magazine = Magazine::make(alloc, 4, false)?;
        let (rest, space) = space.split(0);
        magazine.adopt(Blank::make(alloc)?.fit(space));
        Ok(Bench {
            magazine,
            pool: Vec::new(alloc),
            spans: Spans::new(alloc, rest),
        })
    }

    pub fn magazine(&self) -> &Magazine<Q, N> {
        &self.magazine
    }

    pub fn alloc(&mut self, n: u64, al: u64) -> Result<Option<(u64, u64)>, AllocError>
        requires quanta { IsFrom 1 64 n }
        requires power { IsPowerOfTwo al }
        requires range { al ≤ 16384 }
    {
        let span = self.magazine.alloc(n, al);
        self.keep(span)
    }

    /// Gives the `i`-th span back, and answers its address, its size, and its size where it was taken, else 0.
    pub fn free(&mut self, i: usize) -> Result<Option<(u64, u64, u64)>, AllocError> {
        let Some(span) = self.spans.take(i) else {
            return Ok(None);
        };
        let (a, size) = (span.first(), span.len());
        match self.magazine.free(span) {
            Ok(()) => Ok(Some((a, size, size))),
            Err(span) => {
                self.spans.add(span)?;
                Ok(Some((a, size, 0)))
            }
        }
    }

    /// Makes the `i`-th span one of `n` quanta, and answers its address and its size then.
    pub fn resize(&mut self, i: usize, n: u64) -> Result<Option<(u64, u64)>, AllocError>
        requires { IsFrom 1 64 n }
    {
        let Some(mut span) = self.spans.take(i) else {
            return Ok(None);
        };
        if span.is_empty() || self.magazine.size_at(span.first()) != span.len() {
            self.spans.add(span)?;
            return Ok(None);
        }
        self.magazine.resize(&mut span, n);
        self.keep(Some(span))
    }

    fn keep(&mut self, span: Option<Span>) -> Result<Option<(u64, u64)>, AllocError>
        requires { IfSome span (λ s. s.space ≡ self.old) }
    {
        let Some(span) = span else {
            return Ok(None);
        };
        Ok(Some(self.spans.add(span)?))
    }
}
