//! Entries by lines: how often a line comes, who calls (`01` and `10` take turns), and its events between semicolons. Each time they
//! are one block or run further on.
use mz_events::{Entry, Event};
use mz_lines::event::read_event;
use mz_words::words;
use std::alloc::{AllocError, Global};

// How often a line comes, who calls, and its events.
fn cut(line: &str) -> Option<(u64, &str, &str)> {
    let (times, rest) = line.split_once(" ")?;
    let (callers, events) = rest.split_once(" ")?;
    Some((times.parse::<u64>().ok()?, callers, events))
}

// The events between semicolons; one that can't be read is left out.
fn read_events(alloc: Global, text: &str) -> Result<Vec<Event>, AllocError> {
    let mut events = Vec::new(alloc);
    for part in text.split(";") {
        let texts = words(alloc, part.as_bytes())?;
        if let Some(event) = read_event(alloc, &texts)? {
            events.push(event)?;
        }
    }
    Ok(events)
}

// The event so many blocks or runs further on.
fn further(event: Event, i: u64) -> Event {
    match event {
        Event::Take { k, first, pages } => {
            let first = first.wrapping_add(i.wrapping_mul(pages));
            Event::Take { k, first, pages }
        }
        Event::New { k, a, s, al } => {
            let a = a.wrapping_add(i.wrapping_mul(s));
            Event::New { k, a, s, al }
        }
        Event::End { k, a, s } => {
            let a = a.wrapping_add(i.wrapping_mul(s));
            Event::End { k, a, s }
        }
        other => other,
    }
}

// Who calls the next time.
fn caller(callers: &str, i: u64) -> u32 {
    let turned = callers.len() == 2 && i % 2 == 1;
    if callers.starts_with("1") == turned {
        0
    } else {
        1
    }
}

// Appends the entries of these lines.
fn write(alloc: Global, list: &mut Vec<Entry>, text: &str) -> Result<(), AllocError> {
    for line in text.lines() {
        if let Some((times, callers, events)) = cut(line) {
            let events = read_events(alloc, events)?;
            for i in 0..times {
                for event in &events {
                    let entry = Entry {
                        ticket: list.len() as u64,
                        caller: caller(callers, i),
                        event: further(*event, i),
                    };
                    list.push(entry)?;
                }
            }
        }
    }
    Ok(())
}

/// The entries of two texts.
pub fn entries(alloc: Global, text: &str, more: &str) -> Result<Vec<Entry>, AllocError> {
    let mut list = Vec::new(alloc);
    write(alloc, &mut list, text)?;
    write(alloc, &mut list, more)?;
    Ok(list)
}
