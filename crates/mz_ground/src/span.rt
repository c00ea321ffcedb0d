//! Bytes of a space that one owner has.
ghost use Rattle.std.specs.Prelude.{◌≡◌, ◌+◌, ◌^◌, ◌<◌, ◌≤◌, ◌++◌, ◌==◌, length, take, drop, vec_len, MatchResult};
ghost use Rattle.std.specs.Borrow.{Lends, Array, sem, u8};
ghost use Rattle.mz_ground.specs.Views.{AreApart, with_bytes};
ghost use Rattle.mz_ground.specs.Held.{IsSpan};
ghost use Rattle.mz_ground.specs.contracts.span.Span.{the_row};

use crate::raw::{Deed, Root, halve, lift, unite};
use std::marker::Model;
use std::mem;
use std_alloc::vec::Lodged;

/// Bytes of one space. Nothing else can reach them. Contracts see the span's space, which is the
/// same for all spans of one `Space::new`, its first address there, and its bytes.
///
/// A span of its whole space gives the memory back when it is dropped, and any other is forgotten (measured: no contract
/// can say it).
pub struct Span {
    bytes: Vec<u8, Lodged>,
    first: u64,
    deed: Deed,
    root: Option<Root>,
}

impl Model for Span {
    ghost use Rattle.mz_ground.specs.Views.{SpanView, span_code};

    ghost Value = { SpanView };

    ghost coded = { span_code };

    ghost use Rattle.mz_ground.specs.Held.{IsSpan};

    ghost view = { λ s. record { space = s.deed.space; first = s.first; bytes = s.bytes.items } };

    ghost invariant = { λ s. IsSpan s.bytes s.first s.deed s.root };
}

impl Drop for Span {
    fn drop(self) {
        let Span {
            bytes,
            first: _,
            deed,
            root,
        } = self;
        if let Some(root) = root {
            if root.size == bytes.len() {
                root.free(lift(bytes, deed));
            }
        }
    }
}

impl Span {
    /// Makes the bytes of a `Vec` a space.
    pub(crate) fn whole(vec: Vec<u8>) -> Span
        ensures first { result.first ≡ 0 }
        ensures bytes { result.bytes ≡ vec.items }
        ensures size { result.space.size ≡ length vec.items }
    {
        if vec.is_empty() {
            return Span::nothing();
        }
        let (laid, root) = Root::found(vec);
        let (bytes, deed) = laid;
        Span {
            bytes,
            first: 0,
            deed,
            root: Some(root),
        }
    }

    /// A span of a space of no bytes.
    fn nothing() -> Span
        ensures first { result.first ≡ 0 }
        ensures len { length result.bytes ≡ 0 }
        ensures size { result.space.size ≡ 0 }
    {
        Span {
            bytes: Vec::new(Lodged),
            first: 0,
            deed: Deed::none(),
            root: None,
        }
    }

    /// The address of its first byte.
    pub fn first(&self) -> u64
        ensures value { result ≡ self.now.first }
        ensures inside { result + length self.now.bytes ≤ self.now.space.size }
        ensures small { self.now.space.size < 2 ^ 63 }
    {
        self.first
    }

    /// How many bytes it has.
    pub fn len(&self) -> u64
        ensures value { result ≡ length self.now.bytes }
        ensures inside { self.now.first + result ≤ self.now.space.size }
        ensures small { self.now.space.size < 2 ^ 63 }
    {
        self.bytes.len() as u64
    }

    /// Whether it has none.
    pub fn is_empty(&self) -> bool
        ensures { result ≡ (length self.now.bytes == 0) }
    {
        self.bytes.is_empty()
    }

    /// Its bytes.
    pub fn bytes(&self) -> &[u8]
        ensures { result.now ≡ self.now.bytes }
    {
        self.bytes.as_slice()
    }

    /// Its bytes, to be written. The span stays where it is.
    pub fn bytes_mut(&mut self) -> &mut [u8]
        ensures* writes_back { sem 𝓛
            (Lends the_row (Array u8 0) self.entry result (with_bytes self.old)) }
        ensures value { result.now ≡ self.old.bytes }
    {
        self.bytes.as_mut_slice()
    }

    /// The bytes before `at`, and those from `at` on.
    pub fn split(self, at: u64) -> (Span, Span)
        requires { at ≤ length self.bytes }
        ensures front_space { result.0.space ≡ self.space }
        ensures front_first { result.0.first ≡ self.first }
        ensures front_bytes { result.0.bytes ≡ take at self.bytes }
        ensures front_len { length result.0.bytes ≡ at }
        ensures back_space { result.1.space ≡ self.space }
        ensures back_first { result.1.first ≡ self.first + at }
        ensures back_bytes { result.1.bytes ≡ drop at self.bytes }
        ensures back_len { at + length result.1.bytes ≡ length self.bytes }
    {
        let Span {
            bytes,
            first,
            deed,
            root,
        } = self;
        let (front, back) = halve(bytes, deed, at as usize);
        let (front_root, back_root) = if at == 0 { (None, root) } else { (root, None) };
        let front = Span {
            bytes: front.0,
            first,
            deed: front.1,
            root: front_root,
        };
        let back = Span {
            bytes: back.0,
            first: first + at,
            deed: back.1,
            root: back_root,
        };
        (front, back)
    }

    /// Both in a row, where `next` begins where this span ends. Elsewhere both come back.
    pub fn join(self, next: Span) -> Result<Span, (Span, Span)>
        requires { next.space ≡ self.space }
        ensures { MatchResult result
            (λ s. (next.first ≡ self.first + length self.bytes)
            × (s.space ≡ self.space)
            × (s.first ≡ self.first)
            × (s.bytes ≡ self.bytes ++ next.bytes)
            × (length s.bytes ≡ length self.bytes + length next.bytes))
            (λ p. (¬ (next.first ≡ self.first + length self.bytes))
            × (p.0 ≡ self)
            × (p.1 ≡ next)) }
    {
        if next.first() == self.first() + self.len() {
            Ok(self.followed_by(next))
        } else {
            Err((self, next))
        }
    }

    /// Keeps the bytes before `at`, and gives those from `at` on.
    pub fn cut_off(&mut self, at: u64) -> Span
        requires { at ≤ length self.old.bytes }
        ensures space { self.new.space ≡ self.old.space }
        ensures first { self.new.first ≡ self.old.first }
        ensures bytes { self.new.bytes ≡ take at self.old.bytes }
        ensures len { length self.new.bytes ≡ at }
        ensures cut_space { result.space ≡ self.old.space }
        ensures cut_first { result.first ≡ self.old.first + at }
        ensures cut_bytes { result.bytes ≡ drop at self.old.bytes }
        ensures cut_len { at + length result.bytes ≡ length self.old.bytes }
    {
        let (front, back) = mem::replace(self, Span::nothing()).split(at);
        *self = front;
        back
    }

    /// Takes the bytes of `next` too, which begins where this span ends.
    pub fn extend(&mut self, next: Span)
        requires space { next.space ≡ self.old.space }
        requires adjacent { next.first ≡ self.old.first + length self.old.bytes }
        ensures space { self.new.space ≡ self.old.space }
        ensures first { self.new.first ≡ self.old.first }
        ensures bytes { self.new.bytes ≡ self.old.bytes ++ next.bytes }
        ensures len { length self.new.bytes ≡ length self.old.bytes + length next.bytes }
    {
        let span = mem::replace(self, Span::nothing());
        *self = span.followed_by(next);
    }

    /// Both as they were. No byte is in both.
    pub fn apart(self, other: Span) -> (Span, Span)
        requires { other.space ≡ self.space }
        ensures this { result.0 ≡ self }
        ensures other { result.1 ≡ other }
        ensures apart { AreApart self.first (length self.bytes) other.first (length other.bytes) }
    {
        let (bytes, first, deed, root) = self.into_parts();
        let (other_bytes, other_first, other_deed, other_root) = other.into_parts();
        let (deed, other_deed) = deed.apart(other_deed);
        let span = Span::of_parts(bytes, first, deed, root);
        let other = Span::of_parts(other_bytes, other_first, other_deed, other_root);
        (span, other)
    }

    /// The bytes under their `Vec`, the first address, the deed and the root.
    pub(crate) fn into_parts(self) -> (Vec<u8, Lodged>, u64, Deed, Option<Root>)
        ensures held { IsSpan result.0 result.1 result.2 result.3 }
        ensures space { result.2.space ≡ self.space }
        ensures first { result.1 ≡ self.first }
        ensures bytes { result.0.items ≡ self.bytes }
    {
        let Span {
            bytes,
            first,
            deed,
            root,
        } = self;
        (bytes, first, deed, root)
    }

    /// The span with these parts.
    pub(crate) fn of_parts(
        bytes: Vec<u8, Lodged>,
        first: u64,
        deed: Deed,
        root: Option<Root>,
    ) -> Span
        requires { IsSpan bytes first deed root }
        ensures space { result.space ≡ deed.space }
        ensures first { result.first ≡ first }
        ensures bytes { result.bytes ≡ bytes.items }
    {
        Span {
            bytes,
            first,
            deed,
            root,
        }
    }

    fn followed_by(self, next: Span) -> Span
        requires space { next.space ≡ self.space }
        requires adjacent { next.first ≡ self.first + length self.bytes }
        ensures space { result.space ≡ self.space }
        ensures first { result.first ≡ self.first }
        ensures bytes { result.bytes ≡ self.bytes ++ next.bytes }
        ensures len { length result.bytes ≡ length self.bytes + length next.bytes }
    {
        let Span {
            bytes,
            first,
            deed,
            root,
        } = self;
        let Span {
            bytes: more,
            first: _,
            deed: rest,
            root: next_root,
        } = next;
        let (bytes, deed) = unite(bytes, deed, more, rest);
        Span {
            bytes,
            first,
            deed,
            root: root.or(next_root),
        }
    }
}
