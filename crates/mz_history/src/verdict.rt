//! Whether entries are a lawful history.
ghost use Rattle.std.specs.Prelude.{◌≡◌, ◌==◌, ◌&&◌, not, drop, None, IsSome, OnOk, OnErr, IfOk};
ghost use Rattle.std.specs.List.Sorted.{IsPermutation, IsNonDecreasingBy};
ghost use Rattle.std.specs.Option.{option_map};
ghost use Rattle.mz_base.specs.Limits.{IsWithinLimits};
ghost use Rattle.mz_events.specs.History.{first_breach, after_all, after_entry};
ghost use Rattle.mz_history.specs.Outcomes.{numbers_of, why_of_event, heads_with};
ghost use Rattle.mz_history.specs.Verdicts.{IsVerdict};

use crate::books::Books;
use crate::state::State;
use mz_base::Profile;
use mz_events::Entry;
use mz_events::laws::lawful_without_breach;
use std::alloc::{AllocError, Global};

/// What an audit finds.
#[derive(Drop)]
pub enum Verdict {
    /// The entries, ordered by ticket, are a lawful history that leaves this state.
    Lawful(State),
    /// The first bad ticket, and the first why there, from 1 to 14.
    Unlawful { ticket: u64, why: u8 },
}

/// Whether the entries, in any order, are a lawful history of a space. The only error is a want of memory.
pub fn audit(alloc: Global, entries: &[Entry], p: &Profile) -> Result<Verdict, AllocError>
    requires { IsWithinLimits p.now }
    ensures { IfOk result (λ v. IsVerdict p.now entries.now v) }
{
    lawful_without_breach();
    let mut sorted = Vec::from_slice(alloc, entries)?;
    sort_by_ticket(&mut sorted)?;
    let opened = Books::open(alloc, p)?;
    let (books, found) = run(opened, &sorted)?;
    match found {
        Some((ticket, why)) => Ok(Verdict::Unlawful { ticket, why }),
        None => Ok(Verdict::Lawful(State::of(books)?)),
    }
}

// The entries in order of their tickets.
fn sort_by_ticket(entries: &mut Vec<Entry>) -> Result<(), AllocError>
    ensures permutation { IsPermutation entries.old.items entries.new.items }
    ensures sorted { OnOk result (IsNonDecreasingBy (λ e. e.ticket) entries.new.items) }
{
    entries.sort_by_key(|e| e.ticket)?;
    Ok(())
}

// The first breach of these entries, with the state that those before it leave.
fn run(books: Books, entries: &[Entry]) -> Result<(Books, Option<(u64, u8)>), AllocError>
    requires { IsNonDecreasingBy (λ e. e.ticket) entries.now }
    ensures breach { IfOk result (λ r. r.1 ≡ option_map numbers_of (first_breach books.profile books.state entries.now)) }
    ensures left { IfOk result (λ r. r.1 ≡ None → r.0 ≡ record { profile = books.profile; state = after_all books.profile books.state entries.now }) }
{
    let mut books = books;
    for i in 0..entries.len() {
        let ticket = books.entries();
        let e = entries[i];
        if !is_in_turn(ticket, &e, entries, i + 1) {
            return Ok((books, Some((ticket, 1))));
        }
        if let Some(why) = books.breach(e.caller, &e.event)? {
            return Ok((books, Some((ticket, why))));
        }
        books = books.apply(e.caller, &e.event)?;
    }
    let ticket = books.entries();
    if books.owes_nothing() {
        Ok((books, None))
    } else {
        Ok((books, Some((ticket, 2))))
    }
}

// Whether the entry has the ticket, and the one at the index hasn't.
fn is_in_turn(ticket: u64, e: &Entry, entries: &[Entry], i: usize) -> bool
    ensures { result ≡ ((e.now.ticket == ticket) && not (heads_with ticket (drop i entries.now))) }
{
    let again = stands_at(ticket, entries, i);
    e.ticket == ticket && !again
}

// Whether there is an entry at the index, and it has the ticket.
fn stands_at(ticket: u64, entries: &[Entry], i: usize) -> bool
    ensures { result ≡ heads_with ticket (drop i entries.now) }
{
    i < entries.len() && entries[i].ticket == ticket
}
