//! The command that gives a block to a caller, and the end of a round.

ghost use Rattle.std.specs.Prelude.{◌≡◌, ◌∷◌, List, false, map, IfOk, OnOk};
ghost use Rattle.mz_lines.specs.declared.command.Command.TheVariants as command;
ghost use Rattle.mz_session.specs.declared.parcel.Parcel.{Parcel as parcels};
ghost use Rattle.mz_session.specs.Seats.{deal_of};
ghost use Rattle.mz_session.specs.Sessions.{IsKept, is_given};
ghost use Rattle.mz_session.specs.Serving.{AreAtRest, Serves, Delivers};
ghost use Rattle.mz_session.specs.Giving.{slots_of, with_coming, Receives};

use crate::laws::{of_book, of_sessions};
use crate::parcel::Parcel;
use crate::session::Session;
use mz_nano::Deal;
use mz_trace::Answer;
use mz_words::{BlockName, GivenName, Name};
use std::alloc::{AllocError, Global};
use std::mem;

impl Session {
    /// Gives the block away under the name `given`, which no block was given under. It comes at the end of the round, to the one
    /// caller that there is. After want of memory the session may be any.
    pub fn give(&mut self, name: BlockName, to: u32, given: GivenName) -> Result<Answer, AllocError>
        requires kept { IsKept self.old }
        requires to { to ≡ 0 }
        requires new { is_given self.old given.base ≡ false }
        ensures { IfOk result (λ answer. Serves self.old (command.Give name to given) answer self.new) }
    {
        let _to = to;
        let Some(block) = self.take(&name.get()) else {
            return Ok(Answer::NotHeld);
        };
        self.parcels.push(Parcel { name: given, block })?;
        Ok(Answer::Done)
    }

    /// Hands over the blocks that are on their way, in order: the end of a round. After want of memory the session may be any.
    pub fn deliver(&mut self, alloc: Global) -> Result<(), AllocError>
        requires { IsKept self.old }
        ensures { OnOk result (Delivers self.old self.new) }
    {
        self.deal(alloc)?;
        let parcels = mem::replace(&mut self.parcels, Vec::new(alloc));
        for parcel in parcels {
            self.receive(parcel)?;
        }
        Ok(())
    }

    // Moves the slots of the blocks of nano that are on their way.
    fn deal(&mut self, alloc: Global) -> Result<(), AllocError>
        requires { IsKept self.old }
        ensures { OnOk result (AreAtRest self.old self.new) }
    {
        of_sessions();
        of_book(&self.book);
        let deals = deals_of(alloc, &self.parcels)?;
        let Some(seat) = self.seat.take() else {
            return Ok(());
        };
        let Some(nano) = &mut self.nano else {
            return Ok(());
        };
        let mut seats = vec![in alloc; seat]?;
        nano.deal(alloc, &mut seats, &deals)?;
        self.seat = seats.pop();
        Ok(())
    }

    // Gives its name to a block that was on its way, before others.
    fn receive(&mut self, parcel: Parcel) -> Result<(), AllocError>
        requires { (others : List parcels) × IsKept (with_coming self.old (parcel ∷ others)) }
        ensures { OnOk result (Receives self.old parcel self.new) }
    {
        of_sessions();
        of_book(&self.book);
        self.book.give(0, 0, parcel.block.first());
        self.blocks.insert(Name::Given(parcel.name), parcel.block)
    }
}

// How the slots of the blocks go from the caller to itself, as many as are blocks of nano.
fn deals_of(alloc: Global, parcels: &[Parcel]) -> Result<Vec<Deal>, AllocError>
    ensures { IfOk result (λ deals. deals.items ≡ map deal_of (slots_of parcels.now)) }
{
    let mut deals = Vec::new(alloc);
    for parcel in parcels {
        if let Some((block, slot)) = parcel.block.slot() {
            deals.push(Deal {
                block,
                slot,
                from: 0,
                to: 0,
            })?;
        }
    }
    Ok(deals)
}
