//! A slot is pushed: it goes back to the front of its block's chain.
ghost use Rattle.std.specs.Prelude.{◌≡◌, ◌≢◌, ℕ, ◌+◌, ◌-◌, ◌*◌, ◌≤◌, ◌<◌, ◌^◌, true, [], ◌∷◌, Some, None, IfOk, IfErr, OnOk, List, if◌then◌else◌, nat_lt};
ghost use Rattle.mz_nano.specs.Lists.{In};
ghost use Rattle.mz_nano.specs.Rule.{IsPiece, held};
ghost use Rattle.mz_nano.specs.CallEffects.{Pushed, PushLost, EndsAtRest};
ghost use Rattle.mz_nano.specs.SeatLists.{SitsAt, space_of, first_of};

use crate::nano::{Nano, PLACES};
use crate::seat::{Contended, NanoSeat};
use crate::slot::SlotSpan;
use crate::view::View;
use atomic_table::Seat;
use mz_ground::Parcel;
use mz_nanoword::NanoWord;

// The generation after a push, which leaves the last one as it is.
fn next_generation(generation: u64, most_gen: u64) -> u64
    requires { (generation ≤ most_gen) × (most_gen < 2 ^ 36) }
    ensures value { result ≡ (if nat_lt generation most_gen then generation + 1 else generation) }
    ensures least { generation ≤ result }
    ensures most { result ≤ most_gen }
    ensures rises { result < most_gen → result ≡ generation + 1 }
{
    if generation < most_gen {
        generation + 1
    } else {
        generation
    }
}

impl Nano {
    // A push by the seat within.
    fn push_once(
        &self,
        seat: &mut Seat<Option<Parcel>, View>,
        block: u64,
        slot: u64,
        class: u64,
        parcel: Parcel,
    ) -> Result<(), (Parcel, u64, u64)>
        requires table { seat.old.table_id ≡ self.now.table.shared.table_id }
        requires geometry { seat.old.me.0.geometry ≡ self.now.table.shared.key }
        requires live { seat.old.me.0.live ≡ true }
        requires at_rest { (seat.old.me.0.vacant ≡ []) × (seat.old.me.0.claim ≡ []) × (seat.old.me.1 ≡ []) }
        requires within { (block < self.now.blocks) × (slot < 1024) }
        requires mine { In (held block slot class) seat.old.me.0.hand }
        requires piece { IsPiece seat.old.me.0.geometry block (16 * class * slot) (16 * class) parcel }
        ensures table { seat.new.table_id ≡ seat.old.table_id }
        ensures ok { OnOk result (Pushed seat.old.me block slot class seat.new.me) }
        ensures err { IfErr result (λ e. (e.0 ≡ parcel) × PushLost seat.old.me block e.1 e.2 seat.new.me) }
        ensures ends { EndsAtRest seat.old.me seat.new.me }
    {
        let (_blocks, _most) = (self.blocks, self.most_gen);
        let old = self.load_block(seat, block);
        let Some(word) = NanoWord::unpack(old) else {
            unreachable!()
        };
        self.store_link(seat, block, slot, word.next);
        let place = (block * PLACES + slot) as usize;
        let empty = self.table.shared.exchange(seat, place, Some(parcel));
        let None = empty else { unreachable!() };
        let new = NanoWord {
            next: slot + 1,
            free: word.free + 1,
            state: word.state,
            generation: next_generation(word.generation, self.most_gen),
        };
        let found = self.push_exchange(seat, block, old, new.pack());
        if found == old {
            return Ok(());
        }
        let parcel = match self.table.shared.exchange(seat, place, None) {
            Some(parcel) => parcel,
            None => unreachable!(),
        };
        self.give_place(seat, block);
        Err((parcel, old, found))
    }

    /// Pushes a slot of the seat's hand to the front of its block's chain: by one load of the block's
    /// word, one store of the slot's link and one exchange of the word. The generation rises by one,
    /// or stays at the last.
    ///
    /// `Contended` where the exchange found another word than was loaded, because another seat changed
    /// the block meanwhile. The slot comes back and is in the hand as before.
    pub fn push(&self, seat: &mut NanoSeat, s: SlotSpan) -> Result<(), Contended>
        requires one { SitsAt self.now seat.old }
        requires mine { In (held s.block s.slot s.class) seat.old.seat.me.0.hand }
        requires place { (s.span.space ≡ space_of self.now) × (s.base ≡ first_of self.now) }
        ensures one { SitsAt self.now seat.new }
        ensures counts { (seat.new.tries ≡ seat.old.tries) × (seat.new.misses ≡ seat.old.misses) × (seat.new.missed ≡ seat.old.missed) × (seat.new.popped ≡ seat.old.popped) × (seat.new.number ≡ seat.old.number) }
        ensures ok { OnOk result (Pushed seat.old.seat.me s.block s.slot s.class seat.new.seat.me) }
        ensures err { IfErr result (λ e. (e.slot ≡ s) × PushLost seat.old.seat.me s.block e.expected e.found seat.new.seat.me) }
    {
        let (block, slot, class) = (s.block(), s.slot(), s.class());
        let parcel = s.into_parcel();
        match self.push_once(&mut seat.seat, block, slot, class, parcel) {
            Ok(()) => {
                seat.held -= 1;
                Ok(())
            }
            Err((parcel, expected, found)) => Err(Contended {
                slot: self.slot_span(block, slot, class, parcel),
                expected,
                found,
            }),
        }
    }
}
