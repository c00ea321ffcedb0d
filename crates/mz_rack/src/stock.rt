//! The free pages, with the metadata of regions to come.
ghost use Rattle.std.specs.Prelude.{◌≡◌, ◌/◌, ◌%◌, ◌≤◌, length, replicate, true, vec_len, vec_capacity, IfOk};
ghost use Rattle.std.specs.Int.{IsPowerOfTwo};
ghost use Rattle.mz_base.specs.declared.range.TheConstants.{PAGE};

use mz_ground::Span;
use mz_pages::Pages;
use mz_region::Blank;
use std::alloc::{AllocError, Global};
use std::marker::Model;

/// The free pages of a space from its start on, and a blank for each region that can still be made of them.
#[derive(Drop)]
pub(crate) struct Stock {
    pub(crate) pages: Pages,
    pub(crate) tiny: Vec<Blank<16, 65_536>>,
    pub(crate) small: Vec<Blank<512, 16_384>>,
}

impl Model for Stock {
    ghost use Rattle.mz_events.specs.Standing.{PagesKept};
    ghost use Rattle.mz_rack.specs.Keepings.{stock_code};

    ghost Value = { PagesKept };

    ghost coded = { stock_code };

    ghost use Rattle.std.specs.Prelude.{◌≡◌, ◌/◌, ◌≤◌, length, vec_len, vec_capacity};

    ghost view = { λ s. record { space = s.pages.space; free = s.pages.free; tiny_blanks = vec_len s.tiny; small_blanks = vec_len s.small } };

    ghost invariant = { λ s. (s.pages.first ≡ 0) × (length s.pages.free / 64 ≤ vec_capacity s.tiny) × (length s.pages.free / 512 ≤ vec_capacity s.small) };
}

impl Stock {
    /// All pages of the span, free, with a blank for each region that fits there.
    pub(crate) fn make(alloc: Global, span: Span) -> Result<Stock, AllocError>
        requires first { span.first ≡ 0 }
        requires whole { length span.bytes % PAGE ≡ 0 }
        ensures { let n = length span.bytes / PAGE in
            IfOk result (λ s. s ≡ record { space = span.space; free = replicate n true; tiny_blanks = n / 64; small_blanks = n / 512 }) }
    {
        let count = span.len() / 16_384;
        let tiny = blanks(alloc, count / 64)?;
        let small = blanks(alloc, count / 512)?;
        Ok(Stock {
            pages: Pages::make(alloc, span)?,
            tiny,
            small,
        })
    }
}

// So many blanks.
fn blanks<const Q: usize, const N: usize>(
    alloc: Global,
    count: u64,
) -> Result<Vec<Blank<Q, N>>, AllocError>
    requires { IsPowerOfTwo Q }
    ensures len { IfOk result (λ bs. vec_len bs ≡ count) }
    ensures room { IfOk result (λ bs. count ≤ vec_capacity bs) }
{
    let mut blanks = Vec::with_capacity(alloc, count as usize)?;
    for _ in 0..count {
        blanks.push_reserved(Blank::make(alloc)?);
    }
    Ok(blanks)
}
