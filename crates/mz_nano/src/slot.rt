//! A slot in a hand, with its bytes.
ghost use Rattle.std.specs.Prelude.{◌≡◌, ◌+◌, ◌*◌, length};
ghost use Rattle.std.specs.Borrow.{Lends, Array, sem, u8};
ghost use Rattle.mz_nano.specs.SlotViews.{IsPlaced, with_slot_bytes};
ghost use Rattle.mz_nano.specs.contracts.slot.SlotSpan.{the_row};

use mz_ground::{Parcel, Strip};
use std::marker::Model;

/// A slot with its bytes, which nothing else can reach. Contracts see its block, its number there, its
/// class, the first address of its nano's span (`base`), and its own span. By its type the class is 1
/// to 16, the number is below the slots of that class, and the span has the bytes of that slot.
#[derive(Drop)]
pub struct SlotSpan {
    block: u64,
    slot: u64,
    class: u64,
    base: u64,
    span: Strip,
}

impl Model for SlotSpan {
    ghost use Rattle.mz_nano.specs.SlotViews.{SlotView, slot_code, IsPlaced};

    ghost Value = { SlotView };

    ghost coded = { slot_code };

    ghost view = { λ s. record { block = s.block; slot = s.slot; class = s.class; base = s.base; span = s.span } };

    ghost invariant = { λ s. IsPlaced (record { block = s.block; slot = s.slot; class = s.class; base = s.base; span = s.span }) };
}

impl SlotSpan {
    pub(crate) fn new(block: u64, slot: u64, class: u64, base: u64, span: Strip) -> SlotSpan
        requires { IsPlaced (record { block = block; slot = slot; class = class; base = base; span = span }) }
        ensures { result ≡ record { block = block; slot = slot; class = class; base = base; span = span } }
    {
        SlotSpan {
            block,
            slot,
            class,
            base,
            span,
        }
    }

    pub(crate) fn into_parcel(self) -> Parcel
        ensures parcel { result ≡ self.span }
        ensures placed { IsPlaced self }
    {
        let SlotSpan {
            block: _,
            slot: _,
            class: _,
            base: _,
            span,
        } = self;
        span.into_parcel()
    }

    /// The number of its block, which is that of its page in the nano's span.
    pub fn block(&self) -> u64
        ensures { result ≡ self.now.block }
    {
        self.block
    }

    /// Its number in the block.
    pub fn slot(&self) -> u64
        ensures { result ≡ self.now.slot }
    {
        self.slot
    }

    /// Its class: it has 16 bytes for each unit of it.
    pub fn class(&self) -> u64
        ensures { result ≡ self.now.class }
    {
        self.class
    }

    /// The address of its first byte.
    pub fn first(&self) -> u64
        ensures { result ≡ self.now.base + self.now.block * 16384 + 16 * self.now.class * self.now.slot }
    {
        self.span.first()
    }

    /// Its bytes.
    pub fn bytes(&self) -> &[u8]
        ensures value { result.now ≡ self.now.span.bytes }
        ensures len { length result.now ≡ 16 * self.now.class }
    {
        self.span.bytes()
    }

    /// Its bytes, to be written.
    pub fn bytes_mut(&mut self) -> &mut [u8]
        ensures* writes_back { sem 𝓛
            (Lends the_row (Array u8 0) self.entry result (with_slot_bytes self.old)) }
        ensures value { result.now ≡ self.old.span.bytes }
        ensures len { length result.now ≡ 16 * self.old.class }
    {
        self.span.bytes_mut()
    }
}
