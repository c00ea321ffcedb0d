//! A nano is closed: its seats become one, and its pages one span.
ghost use Rattle.std.specs.Prelude.{◌≡◌, ℕ, ◌+◌, ◌-◌, ◌*◌, ◌≤◌, ◌<◌, ◌^◌, [], ◌∷◌, length, IfOk, IfErr, MatchBool};
ghost use mathlib.Core.Option.{some};
ghost use lib.ListN.{get_elem?};
ghost use Rattle.core.specs.Mem.Slots.{slots_items, slots_len, slots_filled, IsFull};
ghost use Rattle.mz_nanoword.specs.Words.{word_of};
ghost use Rattle.mz_nano.specs.declared.view.Geometry.{Geometry};
ghost use Rattle.mz_nano.specs.SeatLists.{AllIdle, Alone, AreAllOf, AllEmpty, SomeHeld, NoneHeld, space_of, first_of, seats_of, blocks_of};
ghost use Rattle.mz_nano.specs.Ended.{pieces, Ended, EndedBlock, TakenTo, Steady};

use crate::nano::{LINKS, Nano, PLACES};
use crate::rule::TakeIn;
use crate::seat::NanoSeat;
use crate::view::View;
use atomic_table::{Closed, Seat};
use mz_ground::{Parcel, Span};
use mz_nanoword::NanoWord;
use std::alloc::Global;

// Takes what is in the place `i`, after all before it.
fn take_next(closed: &mut Closed<Option<Parcel>, Global>, i: usize) -> Option<Parcel>
    requires within { i < slots_len closed.old.slots }
    requires before { TakenTo i (slots_len closed.old.slots) (slots_filled closed.old.slots) }
    ensures value { get_elem? (slots_items closed.old.slots) i ≡ some result }
    ensures same { Steady closed.old closed.new }
    ensures taken { TakenTo (i + 1) (slots_len closed.new.slots) (slots_filled closed.new.slots) }
{
    closed.take(i)
}

// How many places of the block have a parcel.
fn count_pieces(word: &NanoWord) -> u64
    requires { word.now.state ≤ 16 }
    ensures { (w : ℕ) → word.now ≡ word_of w → result ≡ pieces w }
{
    if word.state == 0 {
        1
    } else {
        LINKS / word.state + 1
    }
}

// Takes all places of the block `b`, the first `n` of which have its parcels, and puts these behind `whole`.
fn gather_block(
    closed: &mut Closed<Option<Parcel>, Global>,
    whole: Parcel,
    b: u64,
    w: u64,
    n: u64,
) -> Parcel
    requires within { (n ≤ 1025) × (b < 2 ^ 50) × (b * 1025 + 1025 ≤ slots_len closed.old.slots) }
    requires before { TakenTo (b * 1025) (slots_len closed.old.slots) (slots_filled closed.old.slots) }
    requires block { (key : Geometry) × EndedBlock key b w (slots_items closed.old.slots) × (n ≡ pieces w) × (whole.space ≡ key.edge.space) × (whole.first ≡ key.edge.first) × (length whole.bytes ≡ b * 16384) }
    ensures same { Steady closed.old closed.new }
    ensures taken { TakenTo (b * 1025 + 1025) (slots_len closed.new.slots) (slots_filled closed.new.slots) }
    ensures space { result.space ≡ whole.space }
    ensures first { result.first ≡ whole.first }
    ensures len { length result.bytes ≡ length whole.bytes + 16384 }
{
    let _word = w;
    let mut whole = whole;
    for j in 0..n {
        match take_next(closed, (b * PLACES + j) as usize) {
            Some(parcel) => whole.extend(parcel),
            None => unreachable!(),
        }
    }
    for k in n..PLACES {
        drop(take_next(closed, (b * PLACES + k) as usize));
    }
    whole
}

// All parcels in a row, behind the empty one.
fn gather(closed: Closed<Option<Parcel>, Global>, edge: Parcel, blocks: u64) -> Parcel
    requires full { IsFull closed.words × IsFull closed.slots }
    requires counts { (slots_len closed.words ≡ blocks * 1025) × (slots_len closed.slots ≡ blocks * 1025) × (blocks < 2 ^ 50) }
    requires empty { length edge.bytes ≡ 0 }
    requires ended { (key : Geometry) × Ended key (slots_items closed.words) (slots_items closed.slots) × (key.blocks ≡ blocks) × (edge.space ≡ key.edge.space) × (edge.first ≡ key.edge.first) }
    ensures space { result.space ≡ edge.space }
    ensures first { result.first ≡ edge.first }
    ensures len { length result.bytes ≡ blocks * 16384 }
{
    let mut closed = closed;
    let mut whole = edge;
    for b in 0..blocks {
        let w = closed.word(b as usize);
        let Some(word) = NanoWord::unpack(w) else {
            unreachable!()
        };
        let n = count_pieces(&word);
        whole = gather_block(&mut closed, whole, b, w, n);
    }
    closed.free();
    whole
}

// Whether every hand is empty.
fn none_held(seats: &Vec<NanoSeat>) -> bool
    ensures { MatchBool result (NoneHeld seats.now.items) (SomeHeld seats.now.items) }
{
    for s in seats {
        if s.held != 0 {
            return false;
        }
    }
    true
}

impl Nano {
    // Puts seats with empty hands together.
    fn join_all(&self, seats: Vec<NanoSeat>) -> Seat<Option<Parcel>, View>
        requires some { 1 ≤ length seats.items }
        requires idle { AllIdle self.now.table.shared.table_id self.now.table.shared.key seats.items }
        ensures { Alone self.now.table.shared.table_id self.now.table.shared.key (2 * length seats.items) result }
    {
        let _blocks = self.blocks;
        let mut seats = seats;
        let Some(last) = seats.pop() else {
            unreachable!()
        };
        let mut all = last.into_seat();
        while let Some(other) = seats.pop() {
            self.table
                .shared
                .join_seat::<TakeIn>(&mut all, other.into_seat());
        }
        all
    }

    // Closes a nano all of whose seats have empty hands. The whole span comes back.
    fn close_empty(self, seats: Vec<NanoSeat>) -> Span
        requires all { length seats.items ≡ seats_of self }
        requires idle { AllIdle self.table.shared.table_id self.table.shared.key seats.items }
        ensures space { result.space ≡ space_of self }
        ensures first { result.first ≡ first_of self }
        ensures len { length result.bytes ≡ self.blocks * 16384 }
    {
        let all = self.join_all(seats);
        let Nano {
            table,
            blocks,
            most_gen: _,
            edge,
            estate,
        } = self;
        let closed = table.close_with(all);
        estate.into_span(gather(closed, edge, blocks))
    }

    /// Ends a nano, with all its seats. Ok with the whole span exactly where every hand is empty, else
    /// all comes back as it was.
    pub fn close(self, seats: Vec<NanoSeat>) -> Result<Span, (Nano, Vec<NanoSeat>)>
        requires all { AreAllOf self seats.items }
        ensures ok { IfOk result (λ s. AllEmpty seats.items × (s.space ≡ space_of self) × (s.first ≡ first_of self) × (length s.bytes ≡ blocks_of self * 16384)) }
        ensures err { IfErr result (λ r. SomeHeld seats.items × (r.0 ≡ self) × (r.1 ≡ seats)) }
    {
        if none_held(&seats) {
            Ok(self.close_empty(seats))
        } else {
            Err((self, seats))
        }
    }
}
