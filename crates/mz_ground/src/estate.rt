//! Where the bytes of parcels lie.
ghost use Rattle.std.specs.Prelude.{◌≡◌, ◌+◌, ◌<◌, ◌≤◌, length};
ghost use Rattle.mz_ground.specs.Estates.{IsEstate};

use crate::Span;
use crate::parcel::Parcel;
use crate::raw::{Base, Deed, Root, lift};
use crate::strip::Strip;
use std::marker::Model;

/// A span without its bytes: these are parcels, which an estate lays where they are to be read and
/// written. Contracts see its space, its first address there, and how many bytes it had.
///
/// An estate that is dropped frees nothing.
#[derive(Drop)]
pub struct Estate {
    base: Base,
    first: u64,
    len: u64,
    edge: Deed,
    root: Option<Root>,
}

impl Model for Estate {
    ghost use Rattle.mz_ground.specs.Estates.{EstateView, estate_code, IsEstate};

    ghost Value = { EstateView };

    ghost coded = { estate_code };

    ghost view = { λ e. record { space = e.edge.space; first = e.first; size = e.len } };

    ghost invariant = { λ e. IsEstate e.base.ptr e.first e.len e.edge e.root };
}

impl Estate {
    /// Parts a span from its bytes.
    pub fn of(span: Span) -> (Estate, Parcel)
        requires { 0 < length span.bytes }
        ensures space { result.0.space ≡ span.space }
        ensures first { result.0.first ≡ span.first }
        ensures size { result.0.size ≡ length span.bytes }
        ensures parcel_space { result.1.space ≡ span.space }
        ensures parcel_first { result.1.first ≡ span.first }
        ensures parcel_bytes { result.1.bytes ≡ span.bytes }
    {
        let (mut bytes, first, deed, root) = span.into_parts();
        let len = bytes.len() as u64;
        let base = Base::of(&mut bytes);
        let (none, plot) = lift(bytes, deed).cut(0);
        let edge = none.deed();
        let estate = Estate {
            base,
            first,
            len,
            edge,
            root,
        };
        (estate, Parcel::of_plot(plot))
    }

    /// The address of its first byte.
    pub fn first(&self) -> u64
        ensures { result ≡ self.now.first }
    {
        self.first
    }

    /// Lays a parcel of `len` bytes, which begins `at` bytes behind the first.
    pub fn lay(&self, parcel: Parcel, at: u64, len: u64) -> Strip
        requires space { parcel.space ≡ self.now.space }
        requires first { parcel.first ≡ self.now.first + at }
        requires len { length parcel.bytes ≡ len }
        ensures space { result.space ≡ parcel.space }
        ensures first { result.first ≡ parcel.first }
        ensures bytes { result.bytes ≡ parcel.bytes }
    {
        let plot = parcel.into_plot();
        let first = self.first + at;
        let (bytes, deed) = self.base.lay_behind(at as usize, len as usize, plot);
        Strip::of_parts(bytes, first, deed)
    }

    /// The span, with all its bytes again.
    pub fn into_span(self, parcel: Parcel) -> Span
        requires space { parcel.space ≡ self.space }
        requires first { parcel.first ≡ self.first }
        requires len { length parcel.bytes ≡ self.size }
        ensures space { result.space ≡ parcel.space }
        ensures first { result.first ≡ parcel.first }
        ensures bytes { result.bytes ≡ parcel.bytes }
    {
        let Estate {
            base,
            first,
            len,
            edge: _,
            root,
        } = self;
        let (bytes, deed) = base.lay_behind(0, len as usize, parcel.into_plot());
        Span::of_parts(bytes, first, deed, root)
    }
}
