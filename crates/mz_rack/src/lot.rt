//! What a request is answered.
ghost use Rattle.std.specs.Prelude.{◌≡◌, length};
ghost use Rattle.std.specs.Borrow.{Lends, Array, sem, u8};
ghost use Rattle.mz_rack.specs.Lots.{with_lot_bytes};
ghost use Rattle.mz_rack.specs.contracts.lot.Lot.{the_row};

use mz_ground::Span;
use std::marker::Model;

/// One block of tiny, small or large, with its bytes, which nothing else can reach. Contracts see the number of its
/// zone and its span.
#[derive(Drop)]
pub struct Lot {
    zone: u32,
    pub(crate) span: Span,
}

impl Model for Lot {
    ghost use Rattle.mz_rack.specs.Lots.{LotView, lot_code};

    ghost Value = { LotView };

    ghost coded = { lot_code };

    ghost view = { λ l. record { zone = l.zone; span = l.span } };

    ghost invariant = { λ l. Unit {0} };
}

impl Lot {
    pub(crate) fn new(zone: u32, span: Span) -> Lot
        ensures { result ≡ record { zone = zone; span = span } }
    {
        Lot { zone, span }
    }

    /// Its span.
    pub(crate) fn into_span(self) -> Span
        ensures { result ≡ self.span }
    {
        self.span
    }

    /// The zone that served it.
    pub fn zone(&self) -> u32
        ensures { result ≡ self.now.zone }
    {
        self.zone
    }

    /// Its first address.
    pub fn first(&self) -> u64
        ensures { result ≡ self.now.span.first }
    {
        self.span.first()
    }

    /// How many bytes it has.
    pub fn size(&self) -> u64
        ensures { result ≡ length self.now.span.bytes }
    {
        self.span.len()
    }

    /// Its bytes.
    pub fn bytes(&self) -> &[u8]
        ensures { result.now ≡ self.now.span.bytes }
    {
        self.span.bytes()
    }

    /// Its bytes, to be written.
    pub fn bytes_mut(&mut self) -> &mut [u8]
        ensures* writes_back { sem 𝓛
            (Lends the_row (Array u8 0) self.entry result (with_lot_bytes self.old)) }
        ensures value { result.now ≡ self.old.span.bytes }
    {
        self.span.bytes_mut()
    }
}

/// That no place had room for a request, with the tickets of the entries that say so.
#[derive(Clone, Copy, Debug, PartialEq, Eq)]
pub enum Null {
    /// The magazine and the depot were full, and then the pages dry.
    Ranged {
        magazine: u64,
        depot: u64,
        pages: u64,
    },
    /// No cached run of large was fit, and then the pages were dry.
    Large {
        cache: u64,
        pages: u64,
    },
}

impl Null {
    /// The number of its kind among the refusals.
    pub fn number(&self) -> u8
        ensures { result ≡ 1 }
    {
        1
    }
}

/// That a block is of another zone: the lot, as it was handed in, and the ticket of the entry that says so.
#[derive(Drop)]
pub struct NotLive {
    pub lot: Lot,
    pub ticket: u64,
}
