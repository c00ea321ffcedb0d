ghost use Rattle.std.specs.Prelude.{◌≡◌, ◌≤◌, ◌<◌, None, IfOk, MatchResult, length};
ghost use Rattle.mz_io.specs.Count.{HasCause, one_more};
ghost use Rattle.mz_io.specs.Stream.{WriteTakes};

use crate::sink::Sink;
use crate::source::Failed;
use std::io::Write;
use std::marker::Model;

/// A sink over a writer of std, as standard output. It tells no bytes. Each call is one write and
/// then one flush of the writer. An error
/// of either is a call that failed, and so is a write that takes nothing of a piece that has bytes.
/// Where it is the flush that fails, the writer may have taken some of the piece all the same.
/// Contracts see how many calls have failed; the count stays once it stands at 2^64 - 1.
#[derive(Drop)]
pub struct StdSink<W> {
    writer: W,
    faults: u64,
}

impl<W> Model for StdSink<W> {
    ghost use Rattle.std.specs.Prelude.{ℕ};

    ghost Value = { ℕ };

    ghost view = { λ s. s.faults };
}

impl<W> StdSink<W> {
    /// A sink over this writer.
    pub fn new(writer: W) -> StdSink<W>
        ensures { result ≡ 0 }
    {
        StdSink { writer, faults: 0 }
    }

    /// How many calls have failed.
    pub fn faults(&self) -> u64
        ensures { result ≡ self.now }
    {
        self.faults
    }
}

impl<W: Write> Sink for StdSink<W> {
    ghost taken = { λ _. None };

    ghost faults = { λ s. s };

    fn write(&mut self, piece: &[u8]) -> Result<usize, Failed>
        ensures bound { IfOk result (λ n. n ≤ length piece.now) }
        ensures some { IfOk result (λ n. 0 < length piece.now → 0 < n) }
        ensures bytes { WriteTakes None None result piece.now }
        ensures cause { HasCause self.old self.new result }

        ensures counted { MatchResult result (λ _. self.new ≡ self.old) (λ _. self.new ≡ one_more self.old) }
    {
        if let Ok(count) = self.writer.write(piece)
            && (count > 0 || piece.is_empty())
            && self.writer.flush().is_ok()
        {
            return Ok(count);
        }
        self.faults = self.faults.saturating_add(1);
        Err(Failed)
    }
}
