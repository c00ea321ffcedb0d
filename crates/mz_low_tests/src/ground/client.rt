//! What a crate above does with a ground: it keeps flags of its own, equal to what is lent.
ghost use Rattle.std.specs.Prelude.{◌≡◌, ◌+◌, ◌*◌, ◌<◌, ◌≤◌, slice_set, true, false, length, MatchOption};
ghost use Rattle.std.specs.Bool.{OnTrue};
ghost use Rattle.std.specs.List.{AllWithin};
ghost use Rattle.mz_ground.specs.Marks.{marked};

use mz_ground::{Ground, Span};
use std::marker::Model;

#[derive(Drop)]
pub struct Keeper<const Q: usize> {
    ground: Ground<Q>,
    used: Vec<bool>,
}

impl<const Q: usize> Model for Keeper<Q> {
    ghost use Rattle.std.specs.Prelude.{◌≡◌};
    ghost use Rattle.mz_ground.specs.Views.{GroundView, ground_code};

    ghost Value = { GroundView };

    ghost coded = { ground_code };

    ghost view = { λ k. k.ground };

    ghost invariant = { λ k. k.ground.lent ≡ k.used.items };
}

impl<const Q: usize> Keeper<Q> {
    pub fn of(ground: Ground<Q>, used: Vec<bool>) -> Keeper<Q>
        requires { ground.lent ≡ used.items }
        ensures { result ≡ ground.entry }
    {
        Keeper { ground, used }
    }

    /// The `n` quanta from the `q`-th on, where none of them is used.
    pub fn alloc_at(&mut self, q: usize, n: usize) -> Option<Span>
        requires { 1 ≤ n }
        ensures space { self.new.space ≡ self.old.space }
        ensures first { self.new.first ≡ self.old.first }
        ensures count { length self.new.lent ≡ length self.old.lent }
        ensures span { MatchOption result (self.new ≡ self.old)
            (λ s. (self.new.lent ≡ marked self.old.lent q n true)
            × AllWithin (λ b. b ≡ false) self.old.lent q (q + n)
            × (s.space ≡ self.old.space)
            × (s.first ≡ self.old.first + Q * q)
            × (length s.bytes ≡ Q * n)) }
    {
        if n > self.used.len() || q > self.used.len() - n {
            return None;
        }
        if !is_idle(self.used.as_slice(), q, n) {
            return None;
        }
        let span = self.ground.lend(q as u64, n as u64);
        self.used.as_mut_slice()[q..q + n].fill(true);
        Some(span)
    }

    /// Takes them back.
    pub fn free_at(&mut self, q: usize, n: usize, s: Span)
        requires space { s.space ≡ self.old.space }
        requires first { s.first ≡ self.old.first + Q * q }
        requires len { length s.bytes ≡ Q * n }
        requires within { q + n ≤ length self.old.lent }
        ensures count { length self.new.lent ≡ length self.old.lent }
        ensures lent { self.new.lent ≡ marked self.old.lent q n false }
        ensures were_lent { AllWithin (λ b. b ≡ true) self.old.lent q (q + n) }
    {
        self.ground.put_back(q as u64, n as u64, s);
        self.used.as_mut_slice()[q..q + n].fill(false);
    }
}

/// What is written through a span is read through it.
pub fn put(s: &mut Span, at: usize, byte: u8)
    requires { at < length s.old.bytes }
    ensures space { s.new.space ≡ s.old.space }
    ensures first { s.new.first ≡ s.old.first }
    ensures bytes { s.new.bytes ≡ slice_set s.old.bytes at byte }
{
    s.bytes_mut()[at] = byte;
}

fn is_idle(flags: &[bool], q: usize, n: usize) -> bool
    requires { q + n ≤ length flags.now }
    ensures { OnTrue result (AllWithin (λ b. b ≡ false) flags.now q (q + n)) }
{
    for k in q..q + n {
        if flags[k] {
            return false;
        }
    }
    true
}
