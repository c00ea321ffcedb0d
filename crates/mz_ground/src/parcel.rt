//! Bytes of a space that have no address at run time.
ghost use Rattle.std.specs.Prelude.{◌≡◌, ◌+◌, ◌≤◌, ◌++◌, length, take, drop};
ghost use Rattle.mz_ground.specs.Estates.{IsParcel};

use crate::raw::{Deed, Plot};
use std::marker::Model;
use std::mem;

/// Bytes of one space. Nothing else can reach them, and nobody reads or writes them before an `Estate`
/// lays them. Contracts see the parcel as a span: its space, its first address there, and its bytes.
/// At run time it has no field, so to part, join or keep one costs nothing.
///
/// A parcel that is dropped is forgotten.
#[derive(Drop)]
pub struct Parcel {
    plot: Plot,
}

impl Model for Parcel {
    ghost use Rattle.mz_ground.specs.Views.{SpanView, span_code};

    ghost Value = { SpanView };

    ghost coded = { span_code };

    ghost use Rattle.mz_ground.specs.Estates.{IsParcel};

    ghost view = { λ p. record { space = p.plot.space; first = p.plot.first; bytes = p.plot.bytes } };

    ghost invariant = { λ p. IsParcel p.plot };
}

impl Parcel {
    /// A parcel of a space of no bytes.
    fn nothing() -> Parcel
        ensures first { result.first ≡ 0 }
        ensures len { length result.bytes ≡ 0 }
    {
        Parcel {
            plot: Deed::none().plot(),
        }
    }

    pub(crate) fn of_plot(plot: Plot) -> Parcel
        requires { IsParcel plot }
        ensures space { result.space ≡ plot.space }
        ensures first { result.first ≡ plot.first }
        ensures bytes { result.bytes ≡ plot.bytes }
    {
        Parcel { plot }
    }

    pub(crate) fn into_plot(self) -> Plot
        ensures inside { IsParcel result }
        ensures space { result.space ≡ self.space }
        ensures first { result.first ≡ self.first }
        ensures bytes { result.bytes ≡ self.bytes }
    {
        let Parcel { plot } = self;
        plot
    }

    /// Keeps the bytes before `at`, and gives those from `at` on.
    pub fn cut_off(&mut self, at: u64) -> Parcel
        requires { at ≤ length self.old.bytes }
        ensures space { self.new.space ≡ self.old.space }
        ensures first { self.new.first ≡ self.old.first }
        ensures bytes { self.new.bytes ≡ take at self.old.bytes }
        ensures len { length self.new.bytes ≡ at }
        ensures cut_space { result.space ≡ self.old.space }
        ensures cut_first { result.first ≡ self.old.first + at }
        ensures cut_bytes { result.bytes ≡ drop at self.old.bytes }
        ensures cut_len { at + length result.bytes ≡ length self.old.bytes }
    {
        let plot = mem::replace(self, Parcel::nothing()).into_plot();
        let (front, back) = plot.cut(at as usize);
        *self = Parcel::of_plot(front);
        Parcel::of_plot(back)
    }

    /// Takes the bytes of `next` too, which begins where this parcel ends.
    pub fn extend(&mut self, next: Parcel)
        requires space { next.space ≡ self.old.space }
        requires adjacent { next.first ≡ self.old.first + length self.old.bytes }
        ensures space { self.new.space ≡ self.old.space }
        ensures first { self.new.first ≡ self.old.first }
        ensures bytes { self.new.bytes ≡ self.old.bytes ++ next.bytes }
        ensures len { length self.new.bytes ≡ length self.old.bytes + length next.bytes }
    {
        let plot = mem::replace(self, Parcel::nothing()).into_plot();
        *self = Parcel::of_plot(plot.glue(next.into_plot()));
    }
}
