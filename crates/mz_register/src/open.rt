//! A plain book is taken apart into a register and a pass for each caller.
ghost use Rattle.std.specs.Prelude.{◌≡◌, ◌+◌, ◌<◌, ◌≤◌, [], ◌∷◌, ◌++◌, length, replicate, IfOk, IfErr};
ghost use Rattle.std.specs.Vec.{vec_capacity};
ghost use Rattle.mz_book.specs.Account.{HoldsNothing};
ghost use Rattle.mz_book.specs.Keepers.{keeper_count};
ghost use Rattle.mz_book.specs.Parts.{account_in, FitTogether};
ghost use Rattle.mz_desk.specs.Keys.{opened_as};
ghost use Rattle.mz_register.specs.HandIn.{former, unspared};
ghost use Rattle.mz_register.specs.Opened.{IsOpened, IsNew, IsFirst, AreDealt, IsBlank, AreBlank};

use crate::pass::Pass;
use crate::register::{Register, Rest};
use atomic_table::{Refused, Table};
use mz_book::{Book, Parts, PlainBook};
use mz_desk::law::GiveSeat;
use mz_desk::laws::seats;
use mz_desk::view::Opening;
use mz_events::Keep;
use std::alloc::{AllocError, Global};

// The words of a register that is opened: the number of entries, a free lock for each keeper, and the words of nano.
fn words_of<V>(alloc: Global, parts: &Parts<V>) -> Result<Vec<u64>, AllocError>
    ensures { IfOk result (λ v. v.items ≡ length parts.now.history.items ∷ (replicate (length parts.now.keepers.items) 0 ++ (parts.now.classes.items ++ parts.now.slots.items))) }
{
    let mut words = Vec::new(alloc);
    words.push(parts.history.len() as u64)?;
    words.resize(1 + parts.keepers.len(), 0)?;
    words.extend_from_slice(parts.classes.as_slice())?;
    words.extend_from_slice(parts.slots.as_slice())?;
    Ok(words)
}

// For each caller an empty list with room for the numbers of all keepers.
fn blanks(alloc: Global, callers: u32, keepers: usize) -> Result<Vec<Vec<usize>>, AllocError>
    ensures { IfOk result (λ v. (length v.items ≡ callers) × AreBlank keepers v.items) }
{
    let mut blanks = Vec::new(alloc);
    for _ in 0..callers {
        let blank = Vec::with_capacity(alloc, keepers)?;
        blanks.push(blank)?;
    }
    Ok(blanks)
}

impl<V: Keep + Drop> Register<V> {
    // The pass of the next caller, from that of caller 0.
    fn another(&self, alloc: Global, first: &mut Pass<V>, caller: u32, held: Vec<usize>) -> Pass<V>
        requires first { IsFirst self.now.table.shared.table_id (opened_as V.keeping self.now.table.shared.key) caller first.old }
        requires more { (1 ≤ caller) × (caller < self.now.opening.profile.callers) }
        requires held { IsBlank (keeper_count self.now.opening.profile) held }
        ensures first { IsFirst self.now.table.shared.table_id (opened_as V.keeping self.now.table.shared.key) (caller + 1) first.new }
        ensures new { IsNew self.now.table.shared.table_id (opened_as V.keeping self.now.table.shared.key) caller result }
    {
        seats::split_seat::<V>();
        let _keepers = self.keepers;
        let seat = self.table.shared.split_seat::<GiveSeat>(&mut first.seat);
        Pass {
            caller,
            noted: Vec::new(alloc),
            limit: 0,
            held,
            holds: 0,
            founds: 0,
            found: None,
            seat,
        }
    }

    // A pass for each caller, in order, where there is room for them.
    fn deal(
        &self,
        alloc: Global,
        first: Pass<V>,
        passes: Vec<Pass<V>>,
        blanks: Vec<Vec<usize>>,
    ) -> Vec<Pass<V>>
        requires first { IsFirst self.now.table.shared.table_id (opened_as V.keeping self.now.table.shared.key) 1 first }
        requires room { (passes.items ≡ []) × (self.now.opening.profile.callers ≤ vec_capacity passes) }
        requires blanks { AreBlank (keeper_count self.now.opening.profile) blanks.items × (length blanks.items + 1 ≡ self.now.opening.profile.callers) }
        ensures { AreDealt self.now.table.shared.table_id (opened_as V.keeping self.now.table.shared.key) self.now.opening.profile.callers result.items }
    {
        let mut passes = passes;
        let mut blanks = blanks;
        passes.push_reserved(first);
        for caller in 1..self.opening.profile.callers {
            let Some(held) = blanks.pop() else {
                unreachable!()
            };
            let pass = self.another(alloc, &mut passes[0], caller, held);
            passes.push_reserved(pass);
        }
        passes
    }

    // The same from parts, which come back where there is no memory.
    fn of_parts(alloc: Global, parts: Parts<V>) -> Result<(Register<V>, Vec<Pass<V>>), Parts<V>>
        requires { FitTogether V.keeping parts }
        ensures ok { IfOk result (λ r. IsOpened (account_in V.keeping parts) r.0.table.shared.table_id r.0.opening.profile r.1.items) }
        ensures former { IfOk result (λ r. former V.keeping r.0 ≡ unspared (account_in V.keeping parts)) }
        ensures err { IfErr result (λ q. FitTogether V.keeping q × (account_in V.keeping q ≡ account_in V.keeping parts)) }
    {
        seats::open::<V>();
        let callers = parts.profile.callers;
        let keepers = parts.keepers.len();
        let Ok(words) = words_of(alloc, &parts) else {
            return Err(parts);
        };
        let Ok(room) = Vec::with_capacity(alloc, callers as usize) else {
            return Err(parts);
        };
        let Ok(blanks) = blanks(alloc, callers - 1, keepers) else {
            return Err(parts);
        };
        let Parts {
            profile,
            caller,
            history,
            limit,
            held,
            keepers: slots,
            quanta,
            classes,
            slots: lights,
            holds,
            founds,
            found,
            site,
        } = parts;
        let opening = Opening {
            profile,
            history,
            quanta,
            classes,
            site,
        };
        match Table::new(alloc, words.as_slice(), slots, &opening) {
            Ok((table, seat)) => {
                let register = Register {
                    table,
                    opening,
                    keepers,
                    rest: Rest {
                        caller,
                        slots: lights,
                        holds,
                        founds,
                        found,
                    },
                };
                let first = Pass {
                    caller: 0,
                    noted: Vec::new(alloc),
                    limit: 0,
                    held,
                    holds: 0,
                    founds: 0,
                    found: None,
                    seat,
                };
                let passes = register.deal(alloc, first, room, blanks);
                Ok((register, passes))
            }
            Err(Refused { slots }) => {
                let Opening {
                    profile,
                    history,
                    quanta,
                    classes,
                    site,
                } = opening;
                Err(Parts {
                    profile,
                    caller,
                    history,
                    limit,
                    held,
                    keepers: slots,
                    quanta,
                    classes,
                    slots: lights,
                    holds,
                    founds,
                    found,
                    site,
                })
            }
        }
    }

    /// Takes a plain book of which nothing is held apart, into a register and one pass for each caller, in order: each has its caller's
    /// hand and an empty record. The Err is want of memory, and gives the book back.
    pub fn open(
        alloc: Global,
        book: PlainBook<V>,
    ) -> Result<(Register<V>, Vec<Pass<V>>), PlainBook<V>>
        requires { HoldsNothing (⟦<PlainBook<V> as Book<V>>⟧.account book) }
        ensures ok { IfOk result (λ r. IsOpened (⟦<PlainBook<V> as Book<V>>⟧.account book) r.0.table.shared.table_id r.0.opening.profile r.1.items) }
        ensures former { IfOk result (λ r. former V.keeping r.0 ≡ unspared (⟦<PlainBook<V> as Book<V>>⟧.account book)) }
        ensures err { IfErr result (λ b. ⟦<PlainBook<V> as Book<V>>⟧.account b ≡ ⟦<PlainBook<V> as Book<V>>⟧.account book) }
    {
        match Register::of_parts(alloc, book.into_parts()) {
            Ok(opened) => Ok(opened),
            Err(parts) => Err(PlainBook::of_parts(parts)),
        }
    }
}
