//! The quanta of a ground, which go out and come back.
ghost use Rattle.std.specs.Prelude.{◌≡◌, ◌+◌, ◌*◌, ◌<◌, ◌≤◌, [], true, false, length, take, drop, replicate};
ghost use Rattle.mz_ground.specs.Marks.{AreAll, marked, written};
ghost use Rattle.mz_ground.specs.Parts.{PlotOf, KeptOf};

use super::{Kept, Plot};

impl Kept {
    /// No quanta, in whatever space.
    pub(crate) fn none() -> Kept
        ensures { result.lent ≡ [] }
    {
        Kept {}
    }

    /// All of the plot, as `count` quanta.
    pub(crate) fn of(plot: Plot, quantum: usize, count: usize) -> Kept
        requires { length plot.bytes ≡ quantum * count }
        ensures { KeptOf result plot.space plot.first quantum (replicate count false) plot.bytes }
    {
        let Plot {} = plot;
        Kept {}
    }

    /// The `n` quanta from the `q`-th on go out.
    pub(crate) fn take(self, q: usize, n: usize) -> (Kept, Plot)
        requires { AreAll self.lent q n false
            × (length self.bytes ≡ self.quantum * length self.lent)
            × (q + n ≤ length self.lent) }
        ensures { KeptOf result.0 self.space self.first self.quantum (marked self.lent q n true)
            self.bytes
            × PlotOf result.1 self.space (self.first + self.quantum * q)
            (take (self.quantum * n) (drop (self.quantum * q) self.bytes)) }
    {
        let Kept {} = self;
        (Kept {}, Plot {})
    }

    /// They come back, and so were out: what is here and what comes have no byte in common.
    pub(crate) fn put(self, q: usize, n: usize, plot: Plot) -> Kept
        requires { (0 < self.quantum)
            × (length self.bytes ≡ self.quantum * length self.lent)
            × (q + n ≤ length self.lent)
            × (plot.space ≡ self.space)
            × (plot.first ≡ self.first + self.quantum * q)
            × (length plot.bytes ≡ self.quantum * n) }
        ensures { AreAll self.lent q n true
            × KeptOf result self.space self.first self.quantum (marked self.lent q n false)
            (written self.bytes (self.quantum * q) plot.bytes) }
    {
        let Kept {} = self;
        let Plot {} = plot;
        Kept {}
    }
}
