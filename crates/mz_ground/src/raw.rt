//! What owns the bytes of a space. Each of these types stands for memory, or for the right to it.
//!
//! `Plot`, `Deed` and `Kept` have no field at run time: what they say and own is for proofs alone,
//! so moving one costs nothing. No byte is ever copied. Raw pointers, and the tickets, are in the
//! few functions of this module alone. Those that take apart or make what one of these types owns
//! are proved by hand, and all else from their contracts.
//!
//! - `Plot`: bytes that nothing else can reach, with a ticket for each.
//! - `Deed`: the tickets alone, while a `Vec` over the bytes has these.
//! - `Sole`: a `Vec` whose bytes are out as plots. With all of them it is whole again, and frees them.
//! - `Root`: the `Sole` of a space with its size, which goes with the space's first byte.
//! - `Kept`: what a ground has left, the plots of the quanta that it hasn't lent.
//! - `Base`: where the bytes of a ground begin. It owns nothing.
ghost use Rattle.std.specs.Prelude.{◌≡◌, ℕ, ◌+◌, ◌<◌, ◌≤◌, ◌++◌, List, [], Bool, length, take, drop, vec_len};
ghost use Rattle.std.specs.Vec.{vec_ptr, with_items};
ghost use base.Fml.{ftrue, fex, fsep, feq};
ghost use Rattle.mz_base.specs.Site.{Site, site_code};
ghost use Rattle.mz_ground.specs.Ownership.{tickets, with_all_bytes, plot_owns, kept_owns};

use std::marker::{Model, Move, Owns};
use std::mem::ManuallyDrop;

mod base;
mod lodging;
mod quanta;

pub(crate) use base::Base;
pub(crate) use lodging::{halve, lift, unite};
use lodging::{Laid, lay};

/// Bytes that nothing else can reach, with a ticket for each.
#[derive(Drop)]
pub(crate) struct Plot {
    ghost space: { Site } by { site_code },
    ghost first: { ℕ },
    ghost bytes: { List ℕ },
}

impl Model for Plot {
    ghost also_owns = { λ p. plot_owns p.space p.first p.bytes };
}

/// The tickets of bytes that lie under a `Vec`.
#[derive(Drop)]
pub(crate) struct Deed {
    ghost space: { Site } by { site_code },
    ghost first: { ℕ },
    ghost count: { ℕ },
}

impl Model for Deed {
    ghost also_owns = { λ d. tickets d.space.name d.first d.count };
}

/// What a ground has left: the plots of its quanta that aren't lent.
#[derive(Drop)]
pub(crate) struct Kept {
    ghost space: { Site } by { site_code },
    ghost first: { ℕ },
    ghost quantum: { ℕ },
    ghost lent: { List Bool },
    ghost bytes: { List ℕ },
}

impl Model for Kept {
    ghost also_owns = { λ k. kept_owns k.space k.first k.quantum k.lent k.bytes };
}

/// A `Vec` whose bytes are out. Contracts see it as the space that these are.
pub(crate) struct Sole {
    vec: Vec<u8>,
}

impl Owns for Sole {
    ghost Value = { Site };

    ghost coded = { site_code };

    ghost shr_at = { λ _ _ _. ftrue };
}

impl Move for Sole {
    // It owns what its `Vec` owns but for the bytes, of which there are as many as the space has.
    // Handed all bytes of the space, it owns that `Vec` again, with these as its items.
    ghost own_val = { λ s vs. fex Inside (λ v. fsep (feq ℕ v.vec.len s.size)
        (with_all_bytes s (λ xs. Fields.own_val (record { vec = with_items v.vec xs }) vs))) };
}

/// The right to free a space. To drop it frees nothing.
pub(crate) struct Root {
    sole: Sole,
    pub(crate) size: usize,
}

impl Drop for Root {
    fn drop(self) {
        let Root { sole, size: _ } = self;
        // Others own the bytes, as plots. To drop the `Vec` would free them, so it is forgotten.
        let _leaked = unsafe { ManuallyDrop::new_unchecked(sole) };
    }
}

impl Root {
    ghost use Rattle.mz_ground.specs.Parts.{LaidAs};

    /// Makes the bytes of a `Vec` a space, and lays a `Vec` over them that doesn't free them.
    pub(crate) fn found(mut vec: Vec<u8>) -> (Laid, Root)
        requires { 0 < vec_len vec }
        ensures laid { LaidAs result.0 result.1.sole 0 vec.items }
        ensures size { (result.1.sole.size ≡ vec_len vec) × (result.1.size ≡ vec_len vec) }
    {
        let size = vec.len();
        let start = vec.as_mut_ptr();
        let (plot, sole) = Sole::found(vec);
        (lay(start, size, plot), Root { sole, size })
    }

    /// The end of the space: all its bytes go back to the memory that they came from.
    pub(crate) fn free(self, plot: Plot)
        requires { (plot.space ≡ self.sole) × (plot.first ≡ 0)
            × (length plot.bytes ≡ self.sole.size) }
    {
        let Root { sole, size: _ } = self;
        drop(sole.whole(plot));
    }
}

// A plot owns bytes that nothing else can reach, and tickets. Neither belongs to a thread, so both
// may go to another. It has no field, so a `&` to it reads nothing.
unsafe impl Send for Plot {}

unsafe impl Sync for Plot {}

// A deed owns tickets alone, and a `&` to it reads nothing.
unsafe impl Send for Deed {}

unsafe impl Sync for Deed {}

// What is kept are plots, and a `&` to it reads nothing.
unsafe impl Send for Kept {}

unsafe impl Sync for Kept {}

// Its `Vec` may go to another thread, and so may the bytes that it lacks. A `&` to it gives nothing
// of the `Vec`: no function takes one.
unsafe impl Send for Sole {}

unsafe impl Sync for Sole {}

impl Sole {
    ghost use Rattle.mz_ground.specs.Parts.{PlotOf};
    ghost use Rattle.mz_ground.specs.Place.{IsAt};

    /// Makes the bytes of a `Vec` a space, with a new ticket for each.
    pub(crate) fn found(vec: Vec<u8>) -> (Plot, Sole)
        requires { 0 < vec_len vec }
        ensures { PlotOf result.0 result.1 0 vec.items
            × (result.1.size ≡ vec_len vec)
            × IsAt (vec_ptr vec) result.1 0 }
    {
        (Plot {}, Sole { vec })
    }

    /// The `Vec` with all its bytes, which is the space's end.
    pub(crate) fn whole(self, plot: Plot) -> Vec<u8>
        requires { (plot.space ≡ self) × (plot.first ≡ 0) × (length plot.bytes ≡ self.size) }
        ensures { result.items ≡ plot.bytes }
    {
        let Plot {} = plot;
        let Sole { vec } = self;
        vec
    }
}

impl Plot {
    ghost use Rattle.mz_ground.specs.Parts.{PlotOf, DeedOf};

    /// The first `at` bytes, and the others.
    pub(crate) fn cut(self, at: usize) -> (Plot, Plot)
        requires { at ≤ length self.bytes }
        ensures { PlotOf result.0 self.space self.first (take at self.bytes)
            × PlotOf result.1 self.space (self.first + at) (drop at self.bytes) }
    {
        let Plot {} = self;
        (Plot {}, Plot {})
    }

    /// Both, in a row.
    pub(crate) fn glue(self, next: Plot) -> Plot
        requires { (next.space ≡ self.space) × (next.first ≡ self.first + length self.bytes) }
        ensures { PlotOf result self.space self.first (self.bytes ++ next.bytes) }
    {
        let Plot {} = self;
        let Plot {} = next;
        Plot {}
    }

    /// The tickets alone.
    pub(crate) fn deed(self) -> Deed
        ensures { DeedOf result self.space self.first (length self.bytes) }
    {
        let Plot {} = self;
        Deed {}
    }
}

impl Deed {
    ghost use Rattle.mz_ground.specs.Parts.{PlotOf, DeedOf};
    ghost use Rattle.mz_ground.specs.Views.{AreApart};

    /// The deed of nothing, in a space of no bytes.
    pub(crate) fn none() -> Deed
        ensures { (result.space.size ≡ 0) × (result.first ≡ 0) × (result.count ≡ 0) }
    {
        Deed {}
    }

    /// A plot of no bytes.
    pub(crate) fn plot(self) -> Plot
        requires { self.count ≡ 0 }
        ensures { PlotOf result self.space self.first [] }
    {
        let Deed {} = self;
        Plot {}
    }

    /// Both as they were. No byte has two tickets.
    pub(crate) fn apart(self, other: Deed) -> (Deed, Deed)
        requires { other.space ≡ self.space }
        ensures { DeedOf result.0 self.space self.first self.count
            × DeedOf result.1 other.space other.first other.count
            × AreApart self.first self.count other.first other.count }
    {
        let Deed {} = self;
        let Deed {} = other;
        (Deed {}, Deed {})
    }
}
