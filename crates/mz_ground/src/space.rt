//! Where the bytes come from.
ghost use Rattle.std.specs.Prelude.{◌≡◌, ◌*◌, length, IfOk};

use crate::Span;
use mz_base::PAGE;
use std::alloc::{AllocError, Global};

/// The bytes that all blocks of an allocator are made of.
#[derive(Clone, Copy)]
pub struct Space;

impl Space {
    /// Makes a space of so many pages, and answers the span of all its bytes. What these are isn't
    /// promised.
    pub fn new(alloc: Global, pages: u64) -> Result<Span, AllocError>
        ensures first { IfOk result (λ s. s.first ≡ 0) }
        ensures len { IfOk result (λ s. length s.bytes ≡ pages * PAGE) }
        ensures size { IfOk result (λ s. s.space.size ≡ pages * PAGE) }
    {
        let Some(len) = pages.checked_mul(PAGE) else {
            return Err(AllocError);
        };
        let bytes = Vec::from_elem(alloc, 0, len as usize)?;
        Ok(Span::whole(bytes))
    }
}
