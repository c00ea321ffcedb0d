//! A span cut into quanta, which go out and come back.
ghost use Rattle.std.specs.Prelude.{◌≡◌, ◌+◌, ◌-◌, ◌*◌, ◌/◌, ◌%◌, ◌<◌, ◌≤◌, if◌then◌else◌, true, false, length, take, drop, MatchResult};
ghost use Rattle.std.specs.List.{AllWithin, Contains};
ghost use Rattle.mz_ground.specs.Marks.{marked, written};

use crate::Span;
use crate::raw::{Base, Kept, Root, lift};
use std::marker::Model;
use std::mem;

/// A span as quanta of `Q` bytes. Those that it hasn't lent are its own. Contracts see its space,
/// its first address, for each quantum whether it is lent, and its bytes, where a quantum that is
/// lent has those that it was lent with.
///
/// A ground that has lent nothing is dropped as its span is, and any other is forgotten (measured: no contract can say it).
pub struct Ground<const Q: usize> {
    // Where its first byte lies in memory, whether it is lent or not.
    base: Base,
    first: u64,
    lent: Vec<bool>,
    root: Option<Root>,
    kept: Kept,
}

impl<const Q: usize> Model for Ground<Q> {
    ghost use Rattle.mz_ground.specs.Views.{GroundView, ground_code};

    ghost Value = { GroundView };

    ghost coded = { ground_code };

    ghost use Rattle.mz_ground.specs.Held.{IsGround};

    ghost view = { λ g. record { space = g.kept.space; first = g.first; lent = g.lent.items; bytes = g.kept.bytes } };

    ghost invariant = { λ g. IsGround Q g.base.ptr g.first g.lent.items g.root g.kept };
}

impl<const Q: usize> Ground<Q> {
    /// The ground of a span that is whole quanta, with a flag for each of them.
    pub fn of(span: Span, lent: Vec<bool>) -> Ground<Q>
        requires filled { 0 < Q }
        requires whole { length span.bytes ≡ Q * length lent.items }
        requires none_lent { AllWithin (λ b. b ≡ false) lent.items 0 (length lent.items) }
        ensures space { result.space ≡ span.space }
        ensures first { result.first ≡ span.first }
        ensures lent { result.lent ≡ lent.items }
        ensures bytes { result.bytes ≡ span.bytes }
    {
        let (mut bytes, first, deed, root) = span.into_parts();
        let base = Base::of(&mut bytes);
        let kept = Kept::of(lift(bytes, deed), Q, lent.len());
        Ground {
            base,
            first,
            lent,
            root,
            kept,
        }
    }

    /// The span of the `n` quanta from the `q`-th on, which aren't lent.
    pub fn lend(&mut self, q: u64, n: u64) -> Span
        requires some { 1 ≤ n }
        requires within { q + n ≤ length self.old.lent }
        requires not_lent { AllWithin (λ b. b ≡ false) self.old.lent q (q + n) }
        ensures space { self.new.space ≡ self.old.space }
        ensures first { self.new.first ≡ self.old.first }
        ensures lent { self.new.lent ≡ marked self.old.lent q n true }
        ensures count { length self.new.lent ≡ length self.old.lent }
        ensures bytes { self.new.bytes ≡ self.old.bytes }
        ensures span_space { result.space ≡ self.old.space }
        ensures span_first { result.first ≡ self.old.first + Q * q }
        ensures span_bytes { result.bytes ≡ take (Q * n) (drop (Q * q) self.old.bytes) }
        ensures span_len { length result.bytes ≡ Q * n }
    {
        let (from, count) = (q as usize, n as usize);
        let (kept, plot) = mem::replace(&mut self.kept, Kept::none()).take(from, count);
        self.kept = kept;
        let root = take_if(&mut self.root, q == 0);
        mark(&mut self.lent, from, count, true);
        let (bytes, deed) = self.base.lay_behind(Q * from, Q * count, plot);
        Span::of_parts(bytes, self.first + (Q * from) as u64, deed, root)
    }

    /// Takes the span of the `n` quanta from the `q`-th on back. That these quanta were
    /// lent isn't asked: it is proved.
    pub fn put_back(&mut self, q: u64, n: u64, s: Span)
        requires space { s.space ≡ self.old.space }
        requires first { s.first ≡ self.old.first + Q * q }
        requires len { length s.bytes ≡ Q * n }
        requires within { q + n ≤ length self.old.lent }
        ensures were_lent { AllWithin (λ b. b ≡ true) self.old.lent q (q + n) }
        ensures space { self.new.space ≡ self.old.space }
        ensures first { self.new.first ≡ self.old.first }
        ensures lent { self.new.lent ≡ marked self.old.lent q n false }
        ensures count { length self.new.lent ≡ length self.old.lent }
        ensures bytes { self.new.bytes ≡ written self.old.bytes (Q * q) s.bytes }
        ensures len { length self.new.bytes ≡ length self.old.bytes }
    {
        let (from, count) = (q as usize, n as usize);
        let (bytes, _, deed, root) = s.into_parts();
        let kept = mem::replace(&mut self.kept, Kept::none());
        self.kept = kept.put(from, count, lift(bytes, deed));
        self.root = root.or(self.root.take());
        mark(&mut self.lent, from, count, false);
    }

    /// Takes back a span that is whole quanta of this ground. That they were lent
    /// isn't asked: it is proved.
    pub fn give_back(&mut self, s: Span)
        requires space { s.space ≡ self.old.space }
        requires above { self.old.first ≤ s.first }
        requires below { s.first + length s.bytes ≤ self.old.first + Q * length self.old.lent }
        requires at_quantum { (s.first - self.old.first) % Q ≡ 0 }
        requires whole { length s.bytes % Q ≡ 0 }
        ensures were_lent { let q = (s.first - self.old.first) / Q in
            AllWithin (λ b. b ≡ true) self.old.lent q (q + length s.bytes / Q) }
        ensures space { self.new.space ≡ self.old.space }
        ensures first { self.new.first ≡ self.old.first }
        ensures lent { self.new.lent ≡ marked self.old.lent ((s.first - self.old.first) / Q)
            (length s.bytes / Q) false }
        ensures count { length self.new.lent ≡ length self.old.lent }
        ensures bytes { self.new.bytes ≡ written self.old.bytes (s.first - self.old.first) s.bytes }
        ensures len { length self.new.bytes ≡ length self.old.bytes }
    {
        let q = (s.first() - self.first) / Q as u64;
        let n = s.len() / Q as u64;
        self.put_back(q, n, s);
    }

    /// The whole span and the flags again. Where a quantum is lent the ground comes back.
    pub fn into_span(self) -> Result<(Span, Vec<bool>), Ground<Q>>
        ensures { MatchResult result
            (λ p. AllWithin (λ b. b ≡ false) self.entry.lent 0 (length self.entry.lent)
            × (p.0.space ≡ self.entry.space)
            × (p.0.first ≡ self.entry.first)
            × (p.0.bytes ≡ self.entry.bytes)
            × (length p.0.bytes ≡ Q * length self.entry.lent)
            × (p.1.items ≡ self.entry.lent))
            (λ g. Contains self.entry.lent true × (g ≡ self.entry)) }
    {
        if self.lent.as_slice().contains(&true) {
            return Err(self);
        }
        let Ground {
            base,
            first,
            lent,
            root,
            kept,
        } = self;
        let (_rest, plot) = kept.take(0, lent.len());
        let (bytes, deed) = base.lay_behind(0, Q * lent.len(), plot);
        Ok((Span::of_parts(bytes, first, deed, root), lent))
    }

    fn forget(self) {
        let Ground {
            base: _,
            first: _,
            lent: _,
            root: _,
            kept: _,
        } = self;
    }
}

impl<const Q: usize> Drop for Ground<Q> {
    fn drop(self) {
        match self.into_span() {
            Ok((_span, _lent)) => {}
            Err(ground) => ground.forget(),
        }
    }
}

fn mark(flags: &mut Vec<bool>, q: usize, n: usize, value: bool)
    requires { q + n ≤ length flags.old.items }
    ensures { flags.new.items ≡ marked flags.old.items q n value }
{
    flags.as_mut_slice()[q..q + n].fill(value);
}

// Takes the root away where it goes, and nothing where it stays.
fn take_if(root: &mut Option<Root>, goes: bool) -> Option<Root>
    ensures { (result ≡ (if goes then root.old else None))
        × (root.new ≡ (if goes then None else root.old)) }
{
    if goes { root.take() } else { None }
}
