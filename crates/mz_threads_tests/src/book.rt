//! What one client does at a plain book.

use crate::toy::book_of_toys;
use mz_book::laws::client::note_both;
use mz_events::laws::events::when_an_event_fits;
use mz_events::laws::holding::what_an_event_reads;
use mz_events::{Entry, Event, Place};
use slot::{end_slot, make_slot, words};
use std::test::Fail;

mod slot;

fn entry(ticket: u64, caller: u32, event: Event) -> Entry {
    Entry {
        ticket,
        caller,
        event,
    }
}

// Whether these two are the whole history.
fn are_two(history: &[Entry], first: Entry, second: Entry) -> bool {
    history == [first, second].as_slice()
}

#[test]
fn a_client_of_any_book_notes_two_events(rt: HostRuntime) -> Result<(), Fail> {
    when_an_event_fits();
    what_an_event_reads();
    let mut book = book_of_toys(rt.alloc())?;
    book.reserve(2)?;
    let first = Event::Full {
        k: Place::Tiny { zone: 0, mag: 0 },
        n: 16,
        al: 16,
    };
    let second = Event::Full {
        k: Place::TinyDepot { zone: 0 },
        n: 16,
        al: 16,
    };
    let tickets = note_both(&rt, &mut book, 0, 1, first, second);
    assert_eq!(rt; tickets, (0, 1));
    let first = entry(0, 0, first);
    let second = entry(1, 0, second);
    assert!(rt; are_two(book.history(), first, second));
    Ok(())
}

#[test]
fn hands_and_words_go_with_the_entries(rt: HostRuntime) -> Result<(), Fail> {
    let mut book = book_of_toys(rt.alloc())?;
    book.reserve(2)?;
    assert_eq!(rt; make_slot(&mut book), (4, 0));
    assert_eq!(rt; words(&book), (4, 1));
    book.act_as(1);
    book.give(0, 1, 49_344);
    assert_eq!(rt; end_slot(&mut book), (1, 1));
    assert_eq!(rt; words(&book), (4, 0));
    let k = Place::Nano;
    let a = 49_344;
    let s = 64;
    let made = entry(0, 0, Event::New { k, a, s, al: 16 });
    let ended = entry(1, 1, Event::End { k, a, s });
    assert!(rt; are_two(book.history(), made, ended));
    Ok(())
}
