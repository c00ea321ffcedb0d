ghost use Rattle.std.specs.Prelude.{◌≡◌, ◌≤◌, ◌↔◌, ◌++◌, Some, IfOk, OnErr, IsErr, Contains, length, take, drop, min};
ghost use Rattle.std.specs.Io.KnownBytes.{ReadConsumes};
ghost use Rattle.mz_io.specs.Count.{HasCause};
ghost use Rattle.mz_io.specs.Memory.{after_gift, after_failed_read};

use crate::copy::copy_front;
use crate::source::{Failed, Source};
use std::marker::Model;

/// A source in memory whose calls give little at a time and fail where they are told to. It tells
/// its bytes. Its calls are numbered from 0; the numbers stop at 2^64 - 1.
#[derive(Drop)]
pub struct MemSource {
    bytes: Vec<u8>,
    at: usize,
    cut: usize,
    fail: Vec<u64>,
    calls: u64,
    faults: u64,
}

impl Model for MemSource {
    ghost use Rattle.std.specs.Prelude.{◌≤◌, drop, vec_len};
    ghost use Rattle.mz_io.specs.Memory.{Supply};

    ghost Value = { Supply };

    ghost view = { λ s. record {
      left = drop s.at s.bytes.items;
      cut = s.cut;
      fail = s.fail.items;
      calls = s.calls;
      faults = s.faults;
    } };

    ghost invariant = { λ s. (s.at ≤ vec_len s.bytes) × (1 ≤ s.cut) };
}

impl MemSource {
    /// A source of these bytes. A call gives at most `cut` of them, and the calls whose numbers are
    /// in `fail` fail.
    pub fn new(bytes: Vec<u8>, cut: usize, fail: Vec<u64>) -> MemSource
        requires { 1 ≤ cut }
        ensures { result ≡ record {
          left = bytes.items;
          cut = cut;
          fail = fail.items;
          calls = 0;
          faults = 0;
        } }
    {
        MemSource {
            bytes,
            at: 0,
            cut,
            fail,
            calls: 0,
            faults: 0,
        }
    }

    /// How many calls have failed.
    pub fn faults(&self) -> u64
        ensures { result ≡ self.now.faults }
    {
        self.faults
    }
}

impl Source for MemSource {
    ghost left = { λ s. Some s.left };

    ghost faults = { λ s. s.faults };

    /// Fails at the calls that are to fail and at no other. Then the buffer stays as it was. The
    /// rest of the buffer stays too where bytes came.
    fn read(&mut self, buf: &mut [u8]) -> Result<usize, Failed>
        ensures bound { IfOk result (λ n. n ≤ length buf.new) }
        ensures bytes { ReadConsumes (Some self.old.left) (Some self.new.left) result buf.new }
        ensures cause { HasCause self.old.faults self.new.faults result }

        ensures fails { IsErr result ↔ Contains self.old.fail self.old.calls }
        ensures count { IfOk result (λ n. n ≡ min self.old.cut (min (length buf.old) (length self.old.left))) }
        ensures buffer { IfOk result (λ n. buf.new ≡ take n self.old.left ++ drop n buf.old) }
        ensures after { IfOk result (λ n. self.new ≡ after_gift self.old n) }
        ensures failed { OnErr result (buf.new ≡ buf.old) }
        ensures after_failed { OnErr result (self.new ≡ after_failed_read self.old) }
    {
        let number = self.calls;
        self.calls = number.saturating_add(1);
        if self.fail.contains(&number) {
            self.faults = self.faults.saturating_add(1);
            return Err(Failed);
        }
        let room = self.cut.min(buf.len());
        let count = copy_front(&self.bytes[self.at..], buf, room);
        self.at += count;
        Ok(count)
    }
}
