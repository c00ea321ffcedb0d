ghost use Rattle.std.specs.Prelude.{◌≤◌, ◌<◌, ℕ, List, Option, IfOk, OnOk, OnErr, length, take};
ghost use Rattle.mz_io.specs.Count.{HasCause};
ghost use Rattle.mz_io.specs.Stream.{Takes, WriteTakes};

use crate::source::Failed;

/// What takes bytes, a part of a piece at each call. Contracts see two things of it: the bytes that
/// it has taken, for as long as it tells them, and how many of its calls have failed.
pub trait Sink {
    /// The bytes taken, where the sink tells them. One that has ceased to tell doesn't begin again.
    ghost taken: { Self → Option (List ℕ) };

    /// How many calls have failed, a number that doesn't fall.
    ghost faults: { Self → ℕ };

    /// Takes bytes from the front of `piece` and returns how many: at least one, if there is one.
    fn write(&mut self, piece: &[u8]) -> Result<usize, Failed>
        ensures bound { IfOk result (λ n. n ≤ length piece.now) }
        ensures some { IfOk result (λ n. 0 < length piece.now → 0 < n) }
        ensures bytes { WriteTakes (taken self.old) (taken self.new) result piece.now }
        ensures cause { HasCause (faults self.old) (faults self.new) result };
}

/// Writes all of an output. At `Failed` the sink has taken the front of it.
pub fn write_all<K: Sink>(sink: &mut K, output: &[u8]) -> Result<(), Failed>
    ensures whole { OnOk result (Takes (K.taken sink.old) (K.taken sink.new) output.now) }
    ensures front { OnErr result ((k : ℕ) × Takes (K.taken sink.old) (K.taken sink.new) (take k output.now)) }
    ensures cause { HasCause (K.faults sink.old) (K.faults sink.new) result }
{
    let mut at = 0;
    while at < output.len() {
        at += sink.write(&output[at..])?;
    }
    Ok(())
}
