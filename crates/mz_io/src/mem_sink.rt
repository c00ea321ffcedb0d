ghost use Rattle.std.specs.Prelude.{◌≡◌, ◌≤◌, ◌<◌, ◌↔◌, [], Some, IfOk, OnErr, IsErr, Contains, length, take, min};
ghost use Rattle.mz_io.specs.Count.{HasCause};
ghost use Rattle.mz_io.specs.Stream.{WriteTakes};
ghost use Rattle.mz_io.specs.Memory.{told, after_taking, after_failed_write};

use crate::sink::Sink;
use crate::source::Failed;
use std::alloc::{AllocError, Global};
use std::marker::Model;

/// A sink in memory whose calls take little at a time and fail where they are told to. It keeps the
/// first bytes, for which it has made room, and counts those that come later, which it drops. It
/// tells its bytes as long as it has dropped none. Its calls are numbered from 0; the numbers and
/// the count of dropped bytes stop at 2^64 - 1.
#[derive(Drop)]
pub struct MemSink {
    kept: Vec<u8>,
    dropped: u64,
    room: usize,
    cut: usize,
    fail: Vec<u64>,
    calls: u64,
    faults: u64,
}

impl Model for MemSink {
    ghost use Rattle.std.specs.Prelude.{◌≤◌, vec_len, vec_capacity};
    ghost use Rattle.mz_io.specs.Memory.{Store};

    ghost Value = { Store };

    ghost view = { λ s. record {
      kept = s.kept.items;
      dropped = s.dropped;
      room = s.room;
      cut = s.cut;
      fail = s.fail.items;
      calls = s.calls;
      faults = s.faults;
    } };

    ghost invariant = { λ s. (vec_len s.kept ≤ s.room) × (s.room ≤ vec_capacity s.kept) × (1 ≤ s.cut) };
}

impl MemSink {
    /// A sink with room for so many bytes. A call takes at most `cut`, and the calls whose numbers
    /// are in `fail` fail.
    pub fn new(
        alloc: Global,
        room: usize,
        cut: usize,
        fail: Vec<u64>,
    ) -> Result<MemSink, AllocError>
        requires { 1 ≤ cut }
        ensures { IfOk result (λ sink. sink ≡ record {
          kept = [];
          dropped = 0;
          room = room;
          cut = cut;
          fail = fail.items;
          calls = 0;
          faults = 0;
        }) }
    {
        let kept = Vec::with_capacity(alloc, room)?;
        Ok(MemSink {
            kept,
            dropped: 0,
            room,
            cut,
            fail,
            calls: 0,
            faults: 0,
        })
    }

    /// The bytes that it keeps.
    pub fn bytes(&self) -> &[u8]
        ensures { result.now ≡ self.now.kept }
    {
        &self.kept
    }

    /// How many bytes it has dropped.
    pub fn dropped(&self) -> u64
        ensures { result ≡ self.now.dropped }
    {
        self.dropped
    }

    /// How many calls have failed.
    pub fn faults(&self) -> u64
        ensures { result ≡ self.now.faults }
    {
        self.faults
    }
}

impl Sink for MemSink {
    ghost taken = { λ s. told s.kept s.dropped };

    ghost faults = { λ s. s.faults };

    /// Fails at the calls that are to fail and at no other.
    fn write(&mut self, piece: &[u8]) -> Result<usize, Failed>
        ensures bound { IfOk result (λ n. n ≤ length piece.now) }
        ensures some { IfOk result (λ n. 0 < length piece.now → 0 < n) }
        ensures bytes { WriteTakes (told self.old.kept self.old.dropped) (told self.new.kept self.new.dropped) result piece.now }
        ensures cause { HasCause self.old.faults self.new.faults result }

        ensures fails { IsErr result ↔ Contains self.old.fail self.old.calls }
        ensures count { IfOk result (λ n. n ≡ min self.old.cut (length piece.now)) }
        ensures after { IfOk result (λ n. self.new ≡ after_taking self.old (take n piece.now)) }
        ensures after_failed { OnErr result (self.new ≡ after_failed_write self.old) }
    {
        let number = self.calls;
        self.calls = number.saturating_add(1);
        if self.fail.contains(&number) {
            self.faults = self.faults.saturating_add(1);
            return Err(Failed);
        }
        let count = self.cut.min(piece.len());
        let kept = count.min(self.room - self.kept.len());
        self.kept.extend_from_slice(&piece[..kept]).unwrap();
        self.dropped = self.dropped.saturating_add((count - kept) as u64);
        Ok(count)
    }
}
