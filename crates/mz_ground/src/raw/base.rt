//! Where the bytes of a ground begin.
ghost use Rattle.std.specs.Prelude.{◌≡◌, ◌-◌, ◌^◌, ◌<◌, ◌≤◌, length};
ghost use Rattle.std.specs.Vec.{vec_ptr};
ghost use Rattle.mz_ground.specs.Parts.{LaidAs};
ghost use Rattle.mz_ground.specs.Place.{IsAt};

use super::Plot;
use super::lodging::{Laid, lay};
use std_alloc::vec::Lodged;

/// A place in memory. It owns nothing, and nothing is read or written there without a plot.
#[derive(Clone, Copy)]
pub(crate) struct Base {
    ptr: *mut u8,
}

impl Base {
    /// Where the bytes of a `Vec` begin.
    pub(crate) fn of(bytes: &mut Vec<u8, Lodged>) -> Base
        ensures value { result.ptr ≡ vec_ptr bytes.old }
        ensures unchanged { bytes.new ≡ bytes.old }
    {
        Base {
            ptr: bytes.as_mut_ptr(),
        }
    }

    /// Lays a `Vec` over bytes that begin `at` bytes behind this place, where there are any.
    pub(crate) fn lay_behind(self, at: usize, len: usize, plot: Plot) -> Laid
        requires len { length plot.bytes ≡ len }
        requires small { len < 2 ^ 63 }
        requires placed { 0 < len → (at ≤ plot.first) × IsAt self.ptr plot.space (plot.first - at) }
        ensures { LaidAs result plot.space plot.first plot.bytes }
    {
        // Where there are bytes this place is in their block, and so is the one behind it. Without
        // any it may lie nowhere, where no step may be taken, and `lay` doesn't look at it.
        let start = if len == 0 {
            self.ptr
        } else {
            unsafe { self.ptr.byte_add(at) }
        };
        lay(start, len, plot)
    }
}

// Whoever has it, on whatever thread, can do nothing with it but hand it a plot that owns bytes.
unsafe impl Send for Base {}

unsafe impl Sync for Base {}
