//! Bytes of a parcel that are laid.
ghost use Rattle.std.specs.Prelude.{◌≡◌, ◌+◌, ◌^◌, ◌<◌, ◌≤◌, length};
ghost use Rattle.std.specs.Borrow.{Lends, Array, sem, u8};
ghost use Rattle.mz_ground.specs.Views.{with_bytes};
ghost use Rattle.mz_ground.specs.Estates.{IsStrip};
ghost use Rattle.mz_ground.specs.contracts.strip.Strip.{the_row};

use crate::parcel::Parcel;
use crate::raw::{Deed, lift};
use std::marker::Model;
use std_alloc::vec::Lodged;

/// The bytes of a parcel, laid to be read and written. Contracts see it as they see the parcel.
///
/// A strip that is dropped is forgotten.
#[derive(Drop)]
pub struct Strip {
    bytes: Vec<u8, Lodged>,
    first: u64,
    deed: Deed,
}

impl Model for Strip {
    ghost use Rattle.mz_ground.specs.Views.{SpanView, span_code};

    ghost Value = { SpanView };

    ghost coded = { span_code };

    ghost use Rattle.mz_ground.specs.Estates.{IsStrip};

    ghost view = { λ s. record { space = s.deed.space; first = s.first; bytes = s.bytes.items } };

    ghost invariant = { λ s. IsStrip s.bytes s.first s.deed };
}

impl Strip {
    pub(crate) fn of_parts(bytes: Vec<u8, Lodged>, first: u64, deed: Deed) -> Strip
        requires { IsStrip bytes first deed }
        ensures space { result.space ≡ deed.space }
        ensures first { result.first ≡ first }
        ensures bytes { result.bytes ≡ bytes.items }
    {
        Strip { bytes, first, deed }
    }

    /// The address of its first byte.
    pub fn first(&self) -> u64
        ensures value { result ≡ self.now.first }
        ensures inside { result + length self.now.bytes ≤ self.now.space.size }
        ensures small { self.now.space.size < 2 ^ 63 }
    {
        self.first
    }

    /// Its bytes.
    pub fn bytes(&self) -> &[u8]
        ensures { result.now ≡ self.now.bytes }
    {
        self.bytes.as_slice()
    }

    /// Its bytes, to be written. The strip stays where it is.
    pub fn bytes_mut(&mut self) -> &mut [u8]
        ensures* writes_back { sem 𝓛
            (Lends the_row (Array u8 0) self.entry result (with_bytes self.old)) }
        ensures value { result.now ≡ self.old.bytes }
    {
        self.bytes.as_mut_slice()
    }

    /// Its bytes as they are, without an address.
    pub fn into_parcel(self) -> Parcel
        ensures space { result.space ≡ self.space }
        ensures first { result.first ≡ self.first }
        ensures bytes { result.bytes ≡ self.bytes }
    {
        let Strip {
            bytes,
            first: _,
            deed,
        } = self;
        Parcel::of_plot(lift(bytes, deed))
    }
}
