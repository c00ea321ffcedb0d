//! The calls of the zone that a session makes.
//!
//! A call is made over the session's book, nano and seat. What becomes of these is known where they are taken out of the [`At`] again
//! that was made of them; this is done once here, for all calls.

ghost use Rattle.std.specs.Prelude.{◌≡◌, ◌*◌, ◌≤◌, [], Some, IfOk, IfSome};
ghost use Rattle.std.specs.Vec.{vec_capacity};
ghost use Rattle.mz_base.specs.declared.range.TheConstants.{PAGE};
ghost use Rattle.mz_zone.specs.declared.zone.Zone.{Zone as zones};
ghost use Rattle.mz_zone.specs.Calling.{AtView, seen, with_seat, CanCall, IsHandedIn, KeepsReferences};
ghost use Rattle.mz_zone.specs.Answering.{Answers, Callocs, Memaligns};
ghost use Rattle.mz_zone.specs.Freeing.{Frees, FreesOfSize};
ghost use Rattle.mz_zone.specs.Moving.{Reallocs};
ghost use Rattle.mz_session.specs.Seats.{without_seat};
ghost use Rattle.mz_session.specs.Asking.{CanAsk, HasAsked, IsPlacedIf};

use crate::laws::of_book;
use crate::session::Session;
use mz_book::{Book, PlainBook};
use mz_nano::{Nano, NanoSeat};
use mz_rack::{Keeper, Null};
use mz_zone::{AlignFault, At, Block, CallocFault, NotLiveBlock, ReallocFault, SizeFault, Zone};
use std::alloc::AllocError;
use std::sync::Wait;

/// The most entries that one call of a zone adds.
const MOST_ENTRIES: u64 = 40;

/// A call of a zone, with what it is given.
pub(crate) trait Call {
    type Answer;

    ghost can: { Self → zones → AtView → Type 0 };

    ghost does: { Self → zones → AtView → Self.Answer → AtView → Type 0 };

    fn make<R: Wait>(self, zone: &Zone, rt: &R, at: &mut At<PlainBook<Keeper>>) -> Self::Answer
        requires { can self zone.now (seen ⟦<PlainBook<Keeper> as Book<Keeper>>⟧.account at.old) }
        ensures references { KeepsReferences at.old at.new }
        ensures does { does self zone.now (seen ⟦<PlainBook<Keeper> as Book<Keeper>>⟧.account at.old) result (seen ⟦<PlainBook<Keeper> as Book<Keeper>>⟧.account at.new) };
}

/// A request for `n` bytes.
#[derive(Drop)]
pub(crate) struct Malloc {
    pub n: u64,
}

impl Call for Malloc {
    type Answer = Result<Block, Null>;

    ghost can = { λ _ zone v. CanCall v zone.profile zone.zone 40 };

    ghost does = { λ call zone v got w. Answers v zone.zone call.n 16 got w };

    fn make<R: Wait>(
        self,
        zone: &Zone,
        rt: &R,
        at: &mut At<PlainBook<Keeper>>,
    ) -> Result<Block, Null> {
        zone.malloc(rt, at, self.n)
    }
}

/// A request for `n` bytes, as a batch of one. The block comes by `out`, which is empty and has room for it.
#[derive(Drop)]
pub(crate) struct BatchOfOne {
    pub n: u64,
    pub out: Vec<Block>,
}

impl Call for BatchOfOne {
    type Answer = Result<Block, Null>;

    ghost can = { λ call zone v. CanCall v zone.profile zone.zone 40 × (call.out.items ≡ []) × (1 ≤ vec_capacity call.out) };

    ghost does = { λ call zone v got w. Answers v zone.zone call.n 16 got w };

    fn make<R: Wait>(
        self,
        zone: &Zone,
        rt: &R,
        at: &mut At<PlainBook<Keeper>>,
    ) -> Result<Block, Null> {
        let mut out = self.out;
        zone.batch_malloc(rt, at, self.n, 1, &mut out)?;
        let Some(block) = out.pop() else {
            unreachable!()
        };
        Ok(block)
    }
}

/// A request for `n` bytes at the start of a page.
#[derive(Drop)]
pub(crate) struct Valloc {
    pub n: u64,
}

impl Call for Valloc {
    type Answer = Result<Block, Null>;

    ghost can = { λ _ zone v. CanCall v zone.profile zone.zone 40 };

    ghost does = { λ call zone v got w. Answers v zone.zone call.n PAGE got w };

    fn make<R: Wait>(
        self,
        zone: &Zone,
        rt: &R,
        at: &mut At<PlainBook<Keeper>>,
    ) -> Result<Block, Null> {
        zone.valloc(rt, at, self.n)
    }
}

/// A request for `n` times `m` bytes, all 0.
#[derive(Drop)]
pub(crate) struct Calloc {
    pub n: u64,
    pub m: u64,
}

impl Call for Calloc {
    type Answer = Result<Block, CallocFault>;

    ghost can = { λ _ zone v. CanCall v zone.profile zone.zone 40 };

    ghost does = { λ call zone v got w. Callocs v zone.zone call.n call.m got w };

    fn make<R: Wait>(
        self,
        zone: &Zone,
        rt: &R,
        at: &mut At<PlainBook<Keeper>>,
    ) -> Result<Block, CallocFault> {
        zone.calloc(rt, at, self.n, self.m)
    }
}

/// A request for `n` bytes at a multiple of `al`.
#[derive(Drop)]
pub(crate) struct Memalign {
    pub al: u64,
    pub n: u64,
}

impl Call for Memalign {
    type Answer = Result<Block, AlignFault>;

    ghost can = { λ _ zone v. CanCall v zone.profile zone.zone 40 };

    ghost does = { λ call zone v got w. Memaligns v zone.zone call.al call.n got w };

    fn make<R: Wait>(
        self,
        zone: &Zone,
        rt: &R,
        at: &mut At<PlainBook<Keeper>>,
    ) -> Result<Block, AlignFault> {
        zone.memalign(rt, at, self.al, self.n)
    }
}

/// Gives a block `n` bytes.
#[derive(Drop)]
pub(crate) struct Realloc {
    pub block: Block,
    pub n: u64,
}

impl Call for Realloc {
    type Answer = Result<Block, ReallocFault>;

    ghost can = { λ call zone v. CanCall v zone.profile zone.zone 40 × IsHandedIn v call.block };

    ghost does = { λ call zone v got w. Reallocs v zone.zone (Some call.block) call.n got w };

    fn make<R: Wait>(
        self,
        zone: &Zone,
        rt: &R,
        at: &mut At<PlainBook<Keeper>>,
    ) -> Result<Block, ReallocFault> {
        zone.realloc(rt, at, Some(self.block), self.n)
    }
}

/// Ends a block.
#[derive(Drop)]
pub(crate) struct Free {
    pub block: Block,
}

impl Call for Free {
    type Answer = Result<(), NotLiveBlock>;

    ghost can = { λ call zone v. CanCall v zone.profile zone.zone 40 × IsHandedIn v call.block };

    ghost does = { λ call zone v got w. Frees v zone.zone call.block got w };

    fn make<R: Wait>(
        self,
        zone: &Zone,
        rt: &R,
        at: &mut At<PlainBook<Keeper>>,
    ) -> Result<(), NotLiveBlock> {
        zone.free(rt, at, self.block)
    }
}

/// Ends a block, as a batch of one. It goes by `all`, which is empty and has room for it.
#[derive(Drop)]
pub(crate) struct FreeBatchOfOne {
    pub block: Block,
    pub all: Vec<Block>,
}

impl Call for FreeBatchOfOne {
    type Answer = Result<(), NotLiveBlock>;

    ghost can = { λ call zone v. CanCall v zone.profile zone.zone 40 × IsHandedIn v call.block × (call.all.items ≡ []) × (1 ≤ vec_capacity call.all) };

    ghost does = { λ call zone v got w. Frees v zone.zone call.block got w };

    fn make<R: Wait>(
        self,
        zone: &Zone,
        rt: &R,
        at: &mut At<PlainBook<Keeper>>,
    ) -> Result<(), NotLiveBlock> {
        let mut all = self.all;
        all.push_reserved(self.block);
        zone.batch_free(rt, at, &mut all)
    }
}

/// Ends a block where it can have been asked for with `n` bytes.
#[derive(Drop)]
pub(crate) struct FreeOfSize {
    pub block: Block,
    pub n: u64,
}

impl Call for FreeOfSize {
    type Answer = Result<(), SizeFault>;

    ghost can = { λ call zone v. CanCall v zone.profile zone.zone 40 × IsHandedIn v call.block };

    ghost does = { λ call zone v got w. FreesOfSize v zone.zone call.block call.n got w };

    fn make<R: Wait>(
        self,
        zone: &Zone,
        rt: &R,
        at: &mut At<PlainBook<Keeper>>,
    ) -> Result<(), SizeFault> {
        zone.free_definite_size(rt, at, self.block, self.n)
    }
}

impl Session {
    // Makes a call of the zone, with room in the book for what it notes.
    pub(crate) fn ask<C: Call + Drop, R: Wait>(
        &mut self,
        rt: &R,
        call: C,
    ) -> Result<C::Answer, AllocError>
        requires { CanAsk self.old 40 (C.can call self.old.zone) }
        ensures { IfOk result (λ got. HasAsked self.old (C.does call self.old.zone) got self.new) }
    {
        of_book(&self.book);
        self.book.reserve(MOST_ENTRIES)?;
        let got = self.call(rt, call);
        of_book(&self.book);
        Ok(got)
    }

    // Makes a call of the zone.
    fn call<C: Call, R: Wait>(&mut self, rt: &R, call: C) -> C::Answer
        requires { C.can call self.old.zone self.old.at }
        ensures does { C.does call self.old.zone self.old.at result self.new.at }
        ensures keeps { self.new ≡ record self.old { at = self.new.at } }
    {
        if let (Some(nano), Some(seat)) = (&self.nano, &mut self.seat) {
            call_seated(call, &self.zone, rt, &mut self.book, nano, seat)
        } else {
            call_unseated(call, &self.zone, rt, &mut self.book)
        }
    }
}

// Makes the call with nano.
fn call_seated<'a, C: Call, R: Wait>(
    call: C,
    zone: &Zone,
    rt: &R,
    book: &'a mut PlainBook<Keeper>,
    nano: &'a Nano,
    seat: &'a mut NanoSeat,
) -> C::Answer
    requires { C.can call zone.now (with_seat (⟦<PlainBook<Keeper> as Book<Keeper>>⟧.account book.old) nano.now seat.old) }
    ensures { C.does call zone.now (with_seat (⟦<PlainBook<Keeper> as Book<Keeper>>⟧.account book.old) nano.now seat.old) result (with_seat (⟦<PlainBook<Keeper> as Book<Keeper>>⟧.account book.new) nano.now seat.new) }
{
    let mut at = At {
        book,
        nano: Some((nano, seat)),
    };
    let answer = call.make(zone, rt, &mut at);
    let At { book, nano } = at;
    let Some((_nano, seat)) = nano else {
        unreachable!()
    };
    give_back(book, seat);
    answer
}

// Makes the call without nano.
fn call_unseated<C: Call, R: Wait>(
    call: C,
    zone: &Zone,
    rt: &R,
    book: &mut PlainBook<Keeper>,
) -> C::Answer
    requires { C.can call zone.now (without_seat (⟦<PlainBook<Keeper> as Book<Keeper>>⟧.account book.old)) }
    ensures { C.does call zone.now (without_seat (⟦<PlainBook<Keeper> as Book<Keeper>>⟧.account book.old)) result (without_seat (⟦<PlainBook<Keeper> as Book<Keeper>>⟧.account book.new)) }
{
    let mut at = At { book, nano: None };
    let answer = call.make(zone, rt, &mut at);
    let At {
        book: _book,
        nano: _nano,
    } = at;
    answer
}

/// The block that was answered, where one was, is where its slot is.
pub(crate) fn is_placed<E>(got: &Result<Block, E>)
    ensures { IsPlacedIf got.now }
{
    if let Ok(block) = got {
        block.keeps_its_place();
    }
}

// What was lent to a call ends as it is.
fn give_back<'a>(book: &'a mut PlainBook<Keeper>, seat: &'a mut NanoSeat)
    ensures book { book.new ≡ book.old }
    ensures seat { seat.new ≡ seat.old }
{
    let _ = book;
    let _ = seat;
}
