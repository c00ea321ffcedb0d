//! A region's metadata.
ghost use Rattle.std.specs.Prelude.{◌≡◌, ◌+◌, ◌*◌, ◌%◌, ◌≤◌, [], length};
ghost use Rattle.std.specs.Int.{IsPowerOfTwo};
ghost use Rattle.mz_region.specs.Views.{IsRegion};

use crate::region::Region;
use mz_bits::Bits;
use mz_ground::{Ground, Span};
use std::alloc::{AllocError, Global};
use std::marker::Model;

/// The metadata of a region of `N` quanta of `Q` bytes, all clear. A contract sees nothing of it,
/// since one blank is as good as another.
#[derive(Drop)]
pub struct Blank<const Q: usize, const N: usize> {
    pub(crate) begins: Bits,
    pub(crate) in_use: Bits,
    pub(crate) lent: Vec<bool>,
}

impl<const Q: usize, const N: usize> Model for Blank<Q, N> {
    ghost use base.Stored.{coded_unit};
    ghost use Rattle.mz_region.specs.Held.{IsBlank};

    ghost Value = { Unit {0} };

    ghost coded = { coded_unit };

    ghost view = { λ b. tt };

    ghost invariant = { λ b. IsBlank Q N b.begins b.in_use b.lent.items };
}

impl<const Q: usize, const N: usize> Blank<Q, N> {
    /// A blank. This is the only call that takes memory. There is nothing to say of the result: that all
    /// of it is clear is an invariant of the type, and `fit` rests on that.
    pub fn make(alloc: Global) -> Result<Blank<Q, N>, AllocError>
        requires { IsPowerOfTwo Q }
    {
        let begins = Bits::make(alloc, N as u64)?;
        let in_use = Bits::make(alloc, N as u64)?;
        let lent = Vec::from_elem(alloc, false, N)?;
        Ok(Blank {
            begins,
            in_use,
            lent,
        })
    }

    /// The region over these bytes, without a live block.
    pub fn fit(self, span: Span) -> Region<Q, N>
        requires whole { length span.bytes ≡ Q * N }
        requires at { span.first % (Q * N) ≡ 0 }
        ensures space { result.space ≡ span.space }
        ensures first { result.first ≡ span.first }
        ensures live { result.live ≡ [] }
        ensures is { IsRegion Q N result }
    {
        let Blank {
            begins,
            in_use,
            lent,
        } = self;
        let first = span.first();
        let _len = span.len();
        Region {
            first,
            begins,
            in_use,
            ground: Ground::of(span, lent),
            live_bytes: 0,
            count: 0,
        }
    }
}
