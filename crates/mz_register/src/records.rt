//! Records are put together by ticket.
ghost use Rattle.std.specs.Prelude.{◌≡◌, ℕ, ◌+◌, ◌≤◌, List, length, vec_len, slice_get, Some, IfSome};
ghost use Rattle.std.specs.Vec.{vec_capacity};
ghost use Rattle.mz_events.specs.declared.entry.Entry.{Entry as entry};
ghost use Rattle.mz_register.specs.Merged.{IsPart, IsMerge, count_noted};

use crate::pass::Pass;
use mz_events::{Entry, Event};

// How many entries all records have, where they are not more than `most`.
pub(crate) fn count_noted<V>(passes: &[Pass<V>], most: usize) -> Option<usize>
    ensures { IfSome result (λ n. (n ≡ count_noted passes.now) × (n ≤ most)) }
{
    let mut count = 0;
    for pass in passes {
        if pass.noted.len() > most - count {
            return None;
        }
        count += pass.noted.len();
    }
    Some(count)
}

// A history with places for `n` entries more.
pub(crate) fn lengthen(history: &mut Vec<Entry>, n: usize)
    requires { vec_len history.old + n ≤ vec_capacity history.old }
    ensures before { (i : ℕ) (e : entry) → slice_get history.old.items i ≡ Some e → slice_get history.new.items i ≡ Some e }
    ensures len { vec_len history.new ≡ vec_len history.old + n }
    ensures capacity { vec_capacity history.new ≡ vec_capacity history.old }
{
    for _ in 0..n {
        history.push_reserved(Entry {
            ticket: 0,
            caller: 0,
            event: Event::Open { zone: 0 },
        });
    }
}

// Writes each entry of one record at its ticket.
fn place(history: &mut Vec<Entry>, noted: &[Entry])
    requires { (all : List entry) × IsPart all history.old.items noted.now }
    ensures placed { (i : ℕ) (e : entry) → slice_get noted.now i ≡ Some e → slice_get history.new.items e.ticket ≡ Some e }
    ensures kept { (all : List entry) (i : ℕ) (e : entry) → IsPart all history.old.items noted.now → slice_get all i ≡ Some e → slice_get history.old.items i ≡ Some e → slice_get history.new.items i ≡ Some e }
    ensures len { vec_len history.new ≡ vec_len history.old }
    ensures capacity { vec_capacity history.new ≡ vec_capacity history.old }
{
    for e in noted {
        history[e.ticket as usize] = *e;
    }
}

// Writes each entry of all records at its ticket.
pub(crate) fn merge(history: &mut Vec<Entry>, records: &[Vec<Entry>])
    requires { (all : List entry) × IsMerge all history.old.items records.now }
    ensures items { (all : List entry) → IsMerge all history.old.items records.now → history.new.items ≡ all }
    ensures capacity { vec_capacity history.new ≡ vec_capacity history.old }
{
    for noted in records {
        place(history, noted.as_slice());
    }
}
