//! The spans of live blocks, and what is left of their space.
ghost use Rattle.std.specs.Prelude.{◌≡◌, length, IfSome};

use mz_ground::Span;
use std::alloc::{AllocError, Global};
use std::marker::Model;
use std::mem;

/// Spans of one space. Contracts see the space.
#[derive(Drop)]
pub struct Spans {
    spans: Vec<Span>,
    rest: Span,
}

impl Model for Spans {
    ghost use Rattle.std.specs.Prelude.{◌≡◌};
    ghost use Rattle.std.specs.List.{All};
    ghost use Rattle.mz_base.specs.Site.{Site, site_code};

    ghost Value = { Site };

    ghost coded = { site_code };

    ghost view = { λ s. s.rest.space };

    ghost invariant = { λ s. All (λ t. t.space ≡ s.rest.space) s.spans.items };
}

impl Spans {
    /// No spans of the space of `rest`.
    pub fn new(alloc: Global, rest: Span) -> Spans
        ensures { result ≡ rest.space }
    {
        Spans {
            spans: Vec::new(alloc),
            rest,
        }
    }

    /// Adds the span, and answers its address and its size.
    pub fn add(&mut self, span: Span) -> Result<(u64, u64), AllocError>
        requires { span.space ≡ self.old }
        ensures { self.new ≡ self.old }
    {
        let block = (span.first(), span.len());
        self.spans.push(span)?;
        Ok(block)
    }

    /// Takes the `i`-th span out.
    pub fn take(&mut self, i: usize) -> Option<Span>
        ensures space { self.new ≡ self.old }
        ensures taken { IfSome result (λ s. s.space ≡ self.old) }
    {
        if i < self.spans.len() {
            Some(self.spans.remove(i))
        } else {
            None
        }
    }

    /// Cuts the first bytes of what is left off, where it has so many.
    pub fn cut(&mut self, len: u64) -> Option<Span>
        ensures space { self.new ≡ self.old }
        ensures cut { IfSome result (λ s. (s.space ≡ self.old) × (length s.bytes ≡ len)) }
    {
        if self.rest.len() < len {
            return None;
        }
        let back = self.rest.cut_off(len);
        Some(mem::replace(&mut self.rest, back))
    }
}
