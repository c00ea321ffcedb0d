//! Regions of one range.
ghost use Rattle.std.specs.Prelude.{◌≡◌, ◌*◌, ◌/◌, ◌^◌, ◌<◌, [], length, find, None, IfOk};
ghost use Rattle.std.specs.Int.{IsPowerOfTwo};
ghost use Rattle.std.specs.Option.{option_map};
ghost use Rattle.mz_base.specs.declared.range.TheConstants.{PAGE};
ghost use Rattle.mz_base.specs.Lists.{size_at};
ghost use Rattle.mz_events.specs.State.{nothing_kept};
ghost use Rattle.mz_events.specs.Separation.{has_page};
ghost use Rattle.mz_rack.specs.Shelves.{IsShape};

use mz_base::PAGE;
use mz_magazine::Magazine;
use std::alloc::{AllocError, Global};
use std::marker::Model;

/// A magazine or a depot of regions of `N` quanta of `Q` bytes, which are whole pages. Contracts see what it
/// keeps, with its quantum and the pages of its regions.
#[derive(Drop)]
pub(crate) struct Shelf<const Q: usize, const N: usize> {
    pub(crate) magazine: Magazine<Q, N>,
}

impl<const Q: usize, const N: usize> Model for Shelf<Q, N> {
    ghost use Rattle.mz_events.specs.Standing.{RegionsKept};
    ghost use Rattle.mz_magazine.specs.Keeping.{keeping_code};

    ghost Value = { RegionsKept };

    ghost coded = { keeping_code };

    ghost use Rattle.mz_rack.specs.Shelves.{IsShelf};

    ghost view = { λ s. s.magazine };

    ghost invariant = { λ s. IsShelf Q N s.magazine };
}

impl<const Q: usize, const N: usize> Shelf<Q, N> {
    /// A magazine, or a depot, without regions. All memory is taken here, for `most` regions.
    pub(crate) fn make(alloc: Global, most: u64, depot: bool) -> Result<Shelf<Q, N>, AllocError>
        requires { IsShape Q N }
        ensures { IfOk result (λ m. m ≡ record { depot = depot; quantum = Q; pages = Q * N / PAGE; room = most; space = None; kept = nothing_kept }) }
    {
        Ok(Shelf {
            magazine: Magazine::make(alloc, most, depot)?,
        })
    }

    /// The first page and the number of pages of the region that has the page.
    pub(crate) fn run_of(&self, page: u64) -> Option<(u64, u64)>
        ensures { result ≡ option_map (λ r. (r.first, r.pages)) (find (λ r. has_page r page) self.now.kept.runs) }
    {
        if self.magazine.regions() == 0 {
            return None;
        }
        let pages = (Q * N) as u64 / PAGE;
        let first = page - page % pages;
        match first.checked_mul(PAGE) {
            Some(a) if self.magazine.has(a) => Some((first, pages)),
            _ => None,
        }
    }
}
