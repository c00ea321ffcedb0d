//! A nano is opened.
ghost use Rattle.std.specs.Prelude.{◌≡◌, ℕ, ◌+◌, ◌-◌, ◌*◌, ◌≤◌, ◌<◌, ◌^◌, ◌∷◌, ◌++◌, [], true, None, Some, IfOk, List, length, replicate};
ghost use Rattle.mz_nano.specs.Rule.{IsPiece, first_view};
ghost use Rattle.mz_nano.specs.Laid.{Laid};
ghost use Rattle.mz_nano.specs.CallEffects.{IsSeatOf};
ghost use Rattle.mz_nano.specs.SeatLists.{AllNew, space_of, first_of, seats_of, blocks_of, most_gen_of, AreAllOf};

use crate::nano::{LINKS, Nano, PLACES};
use crate::rule::NewSeat;
use crate::seat::NanoSeat;
use crate::view::{Geometry, View};
use atomic_table::{Seat, Table};
use mz_base::PAGE;
use mz_ground::{Estate, Parcel, Span};
use std::alloc::{AllocError, Global};
use std::mem;

// Unassigned blocks' words, and links that lead nowhere.
fn zero_words(alloc: Global, n: usize) -> Result<Vec<u64>, AllocError>
    ensures { IfOk result (λ v. v.items ≡ replicate n 0) }
{
    let mut words = Vec::new(alloc);
    for _ in 0..n {
        words.push(0)?;
    }
    Ok(words)
}

fn add_nones(places: &mut Vec<Option<Parcel>>, n: usize) -> Result<(), AllocError>
    ensures { IfOk result (λ _. places.new.items ≡ places.old.items ++ replicate n None) }
{
    for _ in 0..n {
        places.push(None)?;
    }
    Ok(())
}

// The pages, each in the first place of its block.
fn lay(alloc: Global, pages: Parcel, geometry: &Geometry) -> Result<Vec<Option<Parcel>>, AllocError>
    requires space { pages.space ≡ geometry.now.edge.space }
    requires first { pages.first ≡ geometry.now.edge.first }
    requires len { length pages.bytes ≡ geometry.now.blocks * 16384 }
    ensures { IfOk result (λ v. Laid geometry.now geometry.now.blocks v.items) }
{
    let mut places = Vec::with_capacity(alloc, (geometry.blocks * PLACES) as usize)?;
    let mut left = pages;
    for b in 0..geometry.blocks {
        let next = left.cut_off(PAGE);
        let page = mem::replace(&mut left, next);
        places.push(Some(page))?;
        add_nones(&mut places, LINKS as usize)?;
    }
    Ok(places)
}

impl Nano {
    // Seats with empty hands, by number.
    fn make_seats(
        &self,
        alloc: Global,
        seat: Seat<Option<Parcel>, View>,
        seats: u32,
    ) -> Result<Vec<NanoSeat>, AllocError>
        requires one { IsSeatOf self.now.table.shared.table_id self.now.table.shared.key seat }
        requires first { (seat.me.0 ≡ first_view self.now.table.shared.key) × (seat.me.1 ≡ []) }
        requires count { (1 ≤ seats) × (self.now.table.shared.key.seats ≡ seats) }
        ensures { IfOk result (λ v. (length v.items ≡ seats) × AllNew self.now.table.shared.table_id self.now.table.shared.key 0 v.items) }
    {
        let _blocks = self.blocks;
        let mut seat = seat;
        let mut list = Vec::new(alloc);
        for i in 1..seats {
            let other = self.table.shared.split_seat::<NewSeat>(&mut seat);
            list.push(NanoSeat::new(i, other))?;
        }
        list.insert(0, NanoSeat::new(0, seat))?;
        Ok(list)
    }

    /// Opens a nano over whole pages, a block for each, with as many seats as are asked for. At the
    /// generation `most_gen` a block gives no slot out any more.
    ///
    /// The Err is want of memory. The span is lost then.
    pub fn open(
        alloc: Global,
        span: Span,
        most_gen: u64,
        seats: u32,
    ) -> Result<(Nano, Vec<NanoSeat>), AllocError>
        requires whole { (n : ℕ) × (1 ≤ n) × (length span.bytes ≡ n * 16384) }
        requires last { (1 ≤ most_gen) × (most_gen < 2 ^ 36) }
        requires count { 1 ≤ seats }
        ensures nano { IfOk result (λ r. (most_gen_of r.0 ≡ most_gen) × (blocks_of r.0 * 16384 ≡ length span.bytes) × (space_of r.0 ≡ span.space) × (first_of r.0 ≡ span.first) × (seats_of r.0 ≡ seats)) }
        ensures seats { IfOk result (λ r. (length r.1.items ≡ seats) × AllNew r.0.table.shared.table_id r.0.table.shared.key 0 r.1.items) }
        ensures all { IfOk result (λ r. AreAllOf r.0 r.1.items) }
    {
        let blocks = span.len() / PAGE;
        let (estate, mut edge) = Estate::of(span);
        let pages = edge.cut_off(0);
        let geometry = Geometry {
            blocks,
            most_gen,
            seats,
            edge,
        };
        let words = zero_words(alloc, (blocks * PLACES) as usize)?;
        let places = lay(alloc, pages, &geometry)?;
        match Table::new(alloc, words.as_slice(), places, &geometry) {
            Err(_) => Err(AllocError),
            Ok((table, seat)) => {
                let Geometry {
                    blocks: _,
                    most_gen: _,
                    seats: _,
                    edge,
                } = geometry;
                let nano = Nano {
                    table,
                    blocks,
                    most_gen,
                    edge,
                    estate,
                };
                let list = nano.make_seats(alloc, seat, seats)?;
                Ok((nano, list))
            }
        }
    }
}
