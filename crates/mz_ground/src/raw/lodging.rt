//! A `Vec` over the bytes of a plot, which neither grows nor frees them.
ghost use Rattle.std.specs.Prelude.{◌≡◌, ◌+◌, ◌^◌, ◌<◌, ◌≤◌, ◌++◌, length, take, drop, vec_len};
ghost use Rattle.std.specs.Vec.{vec_ptr};
ghost use Rattle.mz_ground.specs.Parts.{PlotOf, DeedOf, IsLaid, LaidAs};
ghost use Rattle.mz_ground.specs.Place.{IsAt};

use super::{Deed, Plot};
use std_alloc::vec::{Lodged, lodge};

/// The bytes of a plot, under a `Vec`, and the deed of them.
pub(crate) type Laid = (Vec<u8, Lodged>, Deed);

// Hands the bytes to a `Vec` that begins at `ptr`, and keeps their tickets.
fn house(ptr: *mut u8, len: usize, plot: Plot) -> Laid
    requires { IsAt ptr plot.space plot.first × (length plot.bytes ≡ len) × (0 < len)
        × (len < 2 ^ 63) }
    ensures { (result.0.items ≡ plot.bytes) × (vec_ptr result.0 ≡ ptr)
        × DeedOf result.1 plot.space plot.first len }
{
    // The plot owns just these bytes, and the `Vec` has them from here on.
    let vec = unsafe { lodge(ptr, len, len) };
    let Plot {} = plot;
    (vec, Deed {})
}

// Takes the bytes from the `Vec`, and puts them to their tickets.
fn vacate(vec: Vec<u8, Lodged>, deed: Deed) -> Plot
    requires { (0 < vec_len vec) × (deed.count ≡ vec_len vec)
        × IsAt (vec_ptr vec) deed.space deed.first }
    ensures { PlotOf result deed.space deed.first vec.items }
{
    let _len = vec.dislodge();
    let Deed {} = deed;
    Plot {}
}

/// Lays a `Vec` over the bytes, which begin at `ptr` where there are any.
pub(crate) fn lay(ptr: *mut u8, len: usize, plot: Plot) -> Laid
    requires len { length plot.bytes ≡ len }
    requires small { len < 2 ^ 63 }
    requires placed { 0 < len → IsAt ptr plot.space plot.first }
    ensures { LaidAs result plot.space plot.first plot.bytes }
{
    if len == 0 {
        (Vec::new(Lodged), plot.deed())
    } else {
        house(ptr, len, plot)
    }
}

/// Takes the `Vec` away.
pub(crate) fn lift(vec: Vec<u8, Lodged>, deed: Deed) -> Plot
    requires { IsLaid vec deed }
    ensures { PlotOf result deed.space deed.first vec.items }
{
    if vec.is_empty() {
        deed.plot()
    } else {
        vacate(vec, deed)
    }
}

/// The first `at` bytes, and the others.
pub(crate) fn halve(mut vec: Vec<u8, Lodged>, deed: Deed, at: usize) -> (Laid, Laid)
    requires laid { IsLaid vec deed }
    requires within { at ≤ length vec.items }
    ensures front { LaidAs result.0 deed.space deed.first (take at vec.items) }
    ensures back { LaidAs result.1 deed.space (deed.first + at) (drop at vec.items) }
{
    let len = vec.len();
    let start = vec.as_mut_ptr();
    let (front, back) = lift(vec, deed).cut(at);
    // Where no byte follows, the `Vec` may be empty and lie nowhere, where no step may be taken.
    // `lay` doesn't look at the place then.
    let mid = if at < len {
        unsafe { start.byte_add(at) }
    } else {
        start
    };
    (lay(start, at, front), lay(mid, len - at, back))
}

/// Both in a row.
pub(crate) fn unite(
    mut vec: Vec<u8, Lodged>,
    deed: Deed,
    mut next: Vec<u8, Lodged>,
    rest: Deed,
) -> Laid
    requires laid { IsLaid vec deed }
    requires next_laid { IsLaid next rest }
    requires space { rest.space ≡ deed.space }
    requires adjacent { rest.first ≡ deed.first + length vec.items }
    requires small { length vec.items + length next.items < 2 ^ 63 }
    ensures { LaidAs result deed.space deed.first (vec.items ++ next.items) }
{
    let len = vec.len();
    let more = next.len();
    let start = if len == 0 {
        next.as_mut_ptr()
    } else {
        vec.as_mut_ptr()
    };
    let plot = lift(vec, deed).glue(lift(next, rest));
    lay(start, len + more, plot)
}
