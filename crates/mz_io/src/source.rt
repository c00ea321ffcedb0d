ghost use Rattle.std.specs.Prelude.{◌≤◌, ℕ, List, Option, IfOk, length};
ghost use Rattle.std.specs.Io.KnownBytes.{ReadConsumes};
ghost use Rattle.mz_io.specs.Count.{HasCause};

/// A call of a source or a sink failed. The caller may call again.
#[derive(Clone, Copy, PartialEq, Eq, Debug)]
pub struct Failed;

/// What gives bytes, a part at each call. Contracts see two things of it: the bytes that are left,
/// for a source that tells them, and how many of its calls have failed.
pub trait Source {
    /// The bytes still to come, where the source tells them. One that tells does so for good.
    ghost left: { Self → Option (List ℕ) };

    /// How many calls have failed, a number that doesn't fall.
    ghost faults: { Self → ℕ };

    /// Puts bytes at the front of `buf` and returns how many. Where the source tells its bytes, none
    /// come in a buffer that has room only at the end of the input. Of the buffer behind these bytes nothing is said, nor of the
    /// whole buffer at `Failed`.
    fn read(&mut self, buf: &mut [u8]) -> Result<usize, Failed>
        ensures bound { IfOk result (λ n. n ≤ length buf.new) }
        ensures bytes { ReadConsumes (left self.old) (left self.new) result buf.new }
        ensures cause { HasCause (faults self.old) (faults self.new) result };
}
