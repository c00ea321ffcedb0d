ghost use Rattle.std.specs.Prelude.{◌≡◌, ◌≤◌, ◌<◌, [], Ok, IfOk, length};
ghost use Rattle.mz_io.specs.Count.{HasCause};
ghost use Rattle.mz_io.specs.Stream.{WriteTakes};
ghost use Rattle.mz_io.specs.Memory.{told, kept_with, dropped_with};

use crate::sink::Sink;
use crate::source::Failed;
use std::marker::Model;

/// A sink of a fixed size that never fails and takes each piece whole. It keeps the first `N` bytes
/// and counts those that come later, which it drops. It tells its bytes as long as it has dropped
/// none. The count of dropped bytes stops at 2^64 - 1.
#[derive(Drop)]
pub struct FixedSink<const N: usize> {
    kept: [u8; N],
    len: usize,
    dropped: u64,
}

impl<const N: usize> Model for FixedSink<N> {
    ghost use Rattle.std.specs.Prelude.{◌≤◌, take, length};
    ghost use Rattle.mz_io.specs.Memory.{Tray};

    ghost Value = { Tray };

    ghost view = { λ s. record { kept = take s.len s.kept; dropped = s.dropped } };

    ghost invariant = { λ s. s.len ≤ length s.kept };
}

impl<const N: usize> FixedSink<N> {
    /// A sink that has taken nothing.
    pub fn new() -> FixedSink<N>
        ensures { result ≡ record { kept = []; dropped = 0 } }
    {
        FixedSink {
            kept: [0; N],
            len: 0,
            dropped: 0,
        }
    }

    /// The bytes that it keeps.
    pub fn bytes(&self) -> &[u8]
        ensures { result.now ≡ self.now.kept }
    {
        &self.kept[..self.len]
    }

    /// How many bytes it has dropped.
    pub fn dropped(&self) -> u64
        ensures { result ≡ self.now.dropped }
    {
        self.dropped
    }
}

impl<const N: usize> Sink for FixedSink<N> {
    ghost taken = { λ s. told s.kept s.dropped };

    ghost faults = { λ _. 0 };

    fn write(&mut self, piece: &[u8]) -> Result<usize, Failed>
        ensures bound { IfOk result (λ n. n ≤ length piece.now) }
        ensures some { IfOk result (λ n. 0 < length piece.now → 0 < n) }
        ensures bytes { WriteTakes (told self.old.kept self.old.dropped) (told self.new.kept self.new.dropped) result piece.now }
        ensures cause { HasCause 0 0 result }

        ensures count { result ≡ Ok (length piece.now) }
        ensures kept { self.new.kept ≡ kept_with N self.old.kept piece.now }
        ensures dropped { self.new.dropped ≡ dropped_with N self.old.kept self.old.dropped piece.now }
    {
        let count = piece.len();
        let len = self.len;
        let kept = count.min(N - len);
        let place = &mut self.kept[..];
        place[len..len + kept].copy_from_slice(&piece[..kept]);
        self.len = len + kept;
        self.dropped = self.dropped.saturating_add((count - kept) as u64);
        Ok(count)
    }
}
