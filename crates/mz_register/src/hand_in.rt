//! All passes come in, and the register is a plain book again.
ghost use Rattle.std.specs.Prelude.{◌≡◌, ℕ, ◌+◌, ◌*◌, ◌^◌, ◌<◌, ◌≤◌, List, [], ◌++◌, length, vec_len, slice_index_or, IfOk, IfErr};
ghost use Rattle.std.specs.Vec.{vec_capacity};
ghost use Rattle.core.specs.Mem.Slots.{slots_items, slots_len, IsFull};
ghost use Rattle.mz_events.specs.declared.entry.Entry.{Entry as entry};
ghost use Rattle.mz_book.specs.Keepers.{keeper_count};
ghost use Rattle.mz_book.specs.Handed.{quanta_since};
ghost use Rattle.mz_book.specs.Parts.{account_in, FitTogether};
ghost use Rattle.mz_desk.specs.Keys.{opened_as};
ghost use Rattle.mz_desk.specs.Ending.{TookAll};
ghost use Rattle.mz_register.specs.Merged.{count_noted, CanWrite};
ghost use Rattle.mz_register.specs.HandIn.{former, passes_of, AreAll, IsFirstAt, AreIn, IsClosed, IsSame, HandsIn};

use crate::pass::Pass;
use crate::records::{count_noted, lengthen, merge};
use crate::register::{Register, Rest};
use atomic_table::{Closed, Seat, Table};
use mz_book::laws::owners::owners_after_entries;
use mz_book::pair::own_all;
use mz_book::{Book, Parts, PlainBook};
use mz_desk::law::{RegisterRule, TakeInSeat};
use mz_desk::laws::{of_histories, seats};
use mz_desk::view::{Opening, View};
use mz_events::laws::entries::tickets_are_indices;
use mz_events::{Entry, Keep};
use std::alloc::Global;

// What `hand_in` needs memory for, besides the history.
#[derive(Drop)]
struct Room<V> {
    keepers: Vec<Option<V>>,
    records: Vec<Vec<Entry>>,
}

// Where the pass of caller 0 stands.
fn first_of<V>(passes: &[Pass<V>]) -> usize
    requires { passes_of 0 passes.now ≡ 1 }
    ensures { IsFirstAt passes.now result }
{
    for (i, pass) in passes.iter().enumerate() {
        if pass.caller == 0 {
            return i;
        }
    }
    unreachable!()
}

// Closes a table all of whose seats are in seat 0.
fn close<V: Keep + Drop>(
    table: Table<Option<V>, View, Opening<V>, RegisterRule, Global>,
    seat: Seat<Option<V>, View>,
) -> Closed<Option<V>, Global>
    requires table { seat.table_id ≡ table.shared.table_id }
    requires all { TookAll seat.me.0 }
    ensures { IsClosed V.keeping (opened_as V.keeping table.shared.key) table.shared.table_id seat.me.0 result }
{
    seats::end::<V>();
    table.close_with(seat)
}

// Puts the entries of all records at the end of the history, by ticket, and makes each block that they make its caller's.
fn write(history: &mut Vec<Entry>, quanta: &mut Vec<u8>, records: &[Vec<Entry>], more: usize)
    requires room { length history.old.items + more ≤ vec_capacity history.old }
    requires can { (later : List entry) × CanWrite history.old.items quanta.old.items later records.now × (length later ≡ more) }
    ensures written { (later : List entry) → CanWrite history.old.items quanta.old.items later records.now → length later ≡ more → (history.new.items ≡ history.old.items ++ later) × (quanta.new.items ≡ quanta_since quanta.old.items later) }
    ensures capacity { vec_capacity history.new ≡ vec_capacity history.old }
    ensures len { vec_len quanta.new ≡ vec_len quanta.old }
{
    let len = history.len();
    lengthen(history, more);
    merge(history, records);
    own_all(quanta, &history[len..]);
}

// A row of words becomes the table's, from the word `from` on.
fn read_words<V>(closed: &Closed<Option<V>, Global>, from: usize, row: &mut Vec<u64>)
    requires full { IsFull closed.now.words }
    requires within { from + vec_len row.old ≤ slots_len closed.now.words }
    ensures len { vec_len row.new ≡ vec_len row.old }
    ensures each { (i : ℕ) → i < vec_len row.old → slice_index_or row.new.items i 0 ≡ slice_index_or (slots_items closed.now.words) (from + i) 0 }
{
    for i in 0..row.len() {
        row[i] = closed.word(from + i);
    }
}

// All keepers, taken out of the table.
fn take_keepers<V: Drop>(
    closed: Closed<Option<V>, Global>,
    keepers: Vec<Option<V>>,
) -> Vec<Option<V>>
    requires full { IsFull closed.slots }
    requires room { (keepers.items ≡ []) × (slots_len closed.slots ≤ vec_capacity keepers) }
    ensures items { result.items ≡ slots_items closed.slots }
    ensures len { vec_len result ≡ slots_len closed.slots }
{
    let mut closed = closed;
    let mut keepers = keepers;
    for k in 0..closed.slot_count() {
        keepers.push_reserved(closed.take(k));
    }
    closed.free();
    keepers
}

impl<V: Keep + Drop> Register<V> {
    // Seat 0 takes in all others. Their records come with it, and the empty list of the numbers that its pass held.
    fn join_all(
        &self,
        passes: Vec<Pass<V>>,
        records: Vec<Vec<Entry>>,
    ) -> (Seat<Option<V>, View>, Vec<Vec<Entry>>, Vec<usize>)
        requires all { AreAll self.now.table.shared.table_id self.now.opening.profile passes.items }
        requires room { (records.items ≡ []) × (length passes.items ≤ vec_capacity records) }
        ensures { AreIn self.now.table.shared.table_id passes.items result.0 result.1.items result.2 }
    {
        seats::join_seat::<V>();
        let _keepers = self.keepers;
        let mut records = records;
        let mut passes = passes;
        let place = first_of(passes.as_slice());
        let first = passes.remove(place);
        let mut rest = passes.into_iter();
        let (noted, held, mut seat) = first.into_record();
        records.push_reserved(noted);
        while let Some(pass) = rest.next() {
            let (noted, _, other) = pass.into_record();
            records.push_reserved(noted);
            self.table.shared.join_seat::<TakeInSeat>(&mut seat, other);
        }
        (seat, records, held)
    }

    // The parts of the plain book. There is room for all.
    fn into_parts(self, passes: Vec<Pass<V>>, more: usize, room: Room<V>) -> Parts<V>
        requires all { AreAll self.table.shared.table_id self.opening.profile passes.items }
        requires count { more ≡ count_noted passes.items }
        requires few { length self.opening.history.items + more ≤ 2 ^ 58 }
        requires history { length self.opening.history.items + more ≤ vec_capacity self.opening.history }
        requires keepers { (room.keepers.items ≡ []) × (keeper_count self.opening.profile ≤ vec_capacity room.keepers) }
        requires records { (room.records.items ≡ []) × (length passes.items ≤ vec_capacity room.records) }
        ensures fit { FitTogether V.keeping result }
        ensures account { HandsIn (former V.keeping self) passes.items (account_in V.keeping result) }
    {
        of_histories();
        owners_after_entries();
        tickets_are_indices();
        let Room {
            keepers: home,
            records,
        } = room;
        let (seat, records, held) = self.join_all(passes, records);
        let Register {
            table,
            opening,
            keepers,
            rest,
        } = self;
        let closed = close(table, seat);
        let Opening {
            profile,
            mut history,
            mut quanta,
            mut classes,
            site,
        } = opening;
        write(&mut history, &mut quanta, records.as_slice(), more);
        let Rest {
            caller,
            mut slots,
            holds,
            founds,
            found,
        } = rest;
        read_words(&closed, keepers + 1, &mut classes);
        read_words(&closed, keepers + 1 + profile.nano as usize, &mut slots);
        Parts {
            profile,
            caller,
            limit: history.len(),
            history,
            held,
            keepers: take_keepers(closed, home),
            quanta,
            classes,
            slots,
            holds,
            founds,
            found,
            site,
        }
    }

    /// Hands all passes in, in any order, of which none holds anything, and makes the register a plain book again: its history is the former
    /// one, followed by all records by ticket. The Err is want of memory, or of room where there are more than 2^58 entries, and gives
    /// both back.
    pub fn hand_in(
        self,
        alloc: Global,
        passes: Vec<Pass<V>>,
    ) -> Result<PlainBook<V>, (Register<V>, Vec<Pass<V>>)>
        requires { AreAll self.table.shared.table_id self.opening.profile passes.items }
        ensures ok { IfOk result (λ b. HandsIn (former V.keeping self) passes.items (⟦<PlainBook<V> as Book<V>>⟧.account b)) }
        ensures err { IfErr result (λ r. IsSame V.keeping self r.0 × (r.1 ≡ passes)) }
    {
        let mut register = self;
        let len = register.opening.history.len();
        let Some(more) = count_noted(passes.as_slice(), (1 << 58) - len) else {
            return Err((register, passes));
        };
        let Ok(keepers) = Vec::with_capacity(alloc, register.keepers) else {
            return Err((register, passes));
        };
        let Ok(records) = Vec::with_capacity(alloc, passes.len()) else {
            return Err((register, passes));
        };
        if register.opening.history.reserve(more).is_err() {
            return Err((register, passes));
        }
        let room = Room { keepers, records };
        Ok(PlainBook::of_parts(register.into_parts(passes, more, room)))
    }
}
