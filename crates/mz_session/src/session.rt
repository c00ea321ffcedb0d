//! One caller's session.

ghost use Rattle.std.specs.Prelude.{◌≡◌, ◌*◌, length, [], ◌∷◌, IfOk, OnOk};
ghost use Rattle.mz_base.specs.declared.range.TheConstants.{PAGE};
ghost use Rattle.mz_base.specs.Limits.{IsWithinLimits};
ghost use Rattle.mz_events.specs.State.{opening};
ghost use Rattle.mz_events.specs.History.{AreLawful, IsLawfulHistory};
ghost use Rattle.mz_session.specs.Sessions.{IsForOne, IsOpened, Keeps, IsKept};
ghost use Rattle.mz_session.specs.Seats.{seat_of, IsSeatAt};
ghost use Rattle.mz_session.specs.Serving.{Takes, Holds, IsFree, HasTail};
ghost use Rattle.mz_lines.specs.declared.answer.Answer.TheVariants as answers;

use crate::blocks::Blocks;
use crate::laws::{of_book, of_sessions};
use crate::listing::listing;
use crate::parcel::Parcel;
use crate::statistics::statistics;
use mz_base::{Items, PAGE, Profile};
use mz_book::{Book, PlainBook};
use mz_events::Entry;
use mz_ground::{Space, Span};
use mz_nano::{Nano, NanoSeat};
use mz_rack::Keeper;
use mz_trace::{Answer, Figures};
use mz_words::Name;
use mz_zone::{Block, Zone};
use std::alloc::{AllocError, Global};
use std::marker::Model;

/// The session of the one caller of a space: what serves it, and what it holds. Contracts see its zone, all entries so far with
/// what is known of nano, the names that are held, each with its block, and the blocks that are on their way.
#[derive(Drop)]
pub struct Session {
    pub(crate) zone: Zone,
    pub(crate) book: PlainBook<Keeper>,
    pub(crate) nano: Option<Nano>,
    pub(crate) seat: Option<NanoSeat>,
    pub(crate) blocks: Blocks,
    pub(crate) parcels: Vec<Parcel>,
}

impl Model for Session {
    ghost use Rattle.mz_session.specs.Sessions.{SessionView};
    ghost use Rattle.mz_session.specs.Seats.{seat_of};
    ghost use Rattle.mz_nano.specs.contracts.seat.NanoSeat as nano_seat;
    ghost use Rattle.std.specs.Coded.{codes};

    ghost Value = { SessionView };

    ghost coded = { Prim.hlevel (codes, nano_seat.the_row.coded) };

    ghost view = { λ s. record { zone = s.zone; at = record { book = ⟦<PlainBook<Keeper> as Book<Keeper>>⟧.account s.book; nano = seat_of s.nano s.seat }; blocks = s.blocks; parcels = s.parcels.items } };
}

impl Session {
    /// The session before the first command, in a space of its own. All memory of the space is taken here.
    pub fn open(alloc: Global, p: &Profile) -> Result<Session, AllocError>
        requires limits { IsWithinLimits p.now }
        requires for_one { IsForOne p.now }
        ensures { IfOk result (IsOpened p.now) }
    {
        let space = Space::new(alloc, p.pages)?;
        let (below, above) = space.split((p.pages - p.nano) * PAGE);
        let keepers = Keeper::all(alloc, p, below)?;
        let book = PlainBook::new(alloc, p, keepers)?;
        let zone = Zone::new(alloc, p, 0)?;
        let (nano, seat) = open_nano(alloc, p, above)?;
        Ok(Session {
            zone,
            book,
            nano,
            seat,
            blocks: Blocks::new(alloc),
            parcels: Vec::new(alloc),
        })
    }

    /// All entries so far, by ticket.
    pub fn history(&self) -> &[Entry]
        ensures { result.now ≡ self.now.at.book.seen }
    {
        self.book.history()
    }

    // The entries so far are lawful.
    pub(crate) fn is_lawful(&self)
        ensures { AreLawful self.now.at.book.profile opening self.now.at.book.seen }
    {
        of_book(&self.book);
    }

    // The name has no block from now on.
    pub(crate) fn take(&mut self, name: &Name) -> Option<Block>
        requires { IsKept self.old }
        ensures { Takes self.old name.now result self.new }
    {
        self.blocks.get(name)?;
        self.blocks.remove(name)
    }

    // Gives the name to a block of the caller.
    pub(crate) fn put(&mut self, name: Name, block: Block) -> Result<(), AllocError>
        requires kept { Keeps self.old (block ∷ []) }
        requires free { IsFree self.old name }
        ensures { OnOk result (Holds self.old name block self.new) }
    {
        of_sessions();
        of_book(&self.book);
        self.blocks.insert(name, block)
    }

    // Gives the name to a block of the caller, and answers so.
    pub(crate) fn hold(&mut self, name: Name, block: Block) -> Result<Answer, AllocError>
        requires kept { Keeps self.old (block ∷ []) }
        requires free { IsFree self.old name }
        ensures answer { IfOk result (λ answer. answer ≡ answers.Block block.span.first (length block.span.bytes)) }
        ensures holds { OnOk result (Holds self.old name block self.new) }
    {
        let answer = Answer::Block {
            a: block.first(),
            s: block.size(),
        };
        self.put(name, block)?;
        Ok(answer)
    }

    /// What stands behind the run so far, when nothing is on its way, for whatever standing the session stands for. Its history is
    /// a lawful one.
    pub fn tail(&self, alloc: Global) -> Result<Figures, AllocError>
        requires kept { IsKept self.now }
        requires delivered { self.now.parcels ≡ [] }
        ensures each { AreLawful self.now.at.book.profile opening self.now.at.book.seen }
        ensures lawful { IsLawfulHistory self.now.at.book.profile self.now.at.book.seen }
        ensures tail { IfOk result (HasTail self.now) }
    {
        of_book(&self.book);
        self.book.is_lawful();
        self.book.keeps_rule();
        let blocks = self.blocks.listed(alloc)?;
        let listing = listing(alloc, self.book.profile(), &blocks)?;
        Ok(Figures {
            listing: Items::of(listing),
            statistics: statistics(self.book.profile(), self.book.history()),
        })
    }
}

// Nano over its pages, with a seat for the caller, where it has pages.
fn open_nano(
    alloc: Global,
    p: &Profile,
    pages: Span,
) -> Result<(Option<Nano>, Option<NanoSeat>), AllocError>
    requires limits { IsWithinLimits p.now }
    requires pages { length pages.bytes ≡ p.now.nano * PAGE }
    ensures { IfOk result (λ r. IsSeatAt pages p.now (seat_of r.0 r.1)) }
{
    if p.nano == 0 {
        return Ok((None, None));
    }
    let (nano, mut seats) = Nano::open(alloc, pages, p.most_gen, 1)?;
    Ok((Some(nano), seats.pop()))
}
