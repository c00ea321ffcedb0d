//! What is told has numbers that a line can have, by their types.
ghost use Rattle.std.specs.Prelude.{◌≡◌, true, IsTrue};
ghost use Rattle.mz_words.specs.Numbers.{is_from, is_u64, is_u32};
ghost use Rattle.mz_words.specs.Places.{place_fits};
ghost use Rattle.mz_words.specs.Hex.{are_shown};
ghost use Rattle.mz_words.specs.Ranges.{is_listed_range};
ghost use Rattle.std.specs.List.{list_all};
ghost use Rattle.mz_base.specs.Names.{is_base_name};
ghost use Rattle.mz_lines.specs.Events.{event_fits};
ghost use Rattle.mz_lines.specs.Answers.{answer_fits};
ghost use Rattle.mz_trace.specs.RunForms.{entry_fits};
ghost use Rattle.mz_trace.specs.TailTexts.{listed_fits, statistics_fit};

use mz_base::ZoneName;
use mz_events::{Event, Place};
use mz_trace::{Answer, Listed, RunEntry, Statistics};
use mz_words::Shown;

// A number of 64 bits.
fn number(n: u64)
    ensures { is_u64 n ≡ true }
{
    let _ = n;
}

// A number of 32 bits.
fn small(n: u32)
    ensures { is_u32 n ≡ true }
{
    let _ = n;
}

fn place(k: Place)
    ensures { place_fits k ≡ true }
{
    match k {
        Place::Tiny { zone, mag } | Place::Small { zone, mag } => {
            small(zone);
            small(mag);
        }
        Place::TinyDepot { zone } | Place::SmallDepot { zone } | Place::Large { zone } => small(
            zone,
        ),
        Place::Pages | Place::Nano => {}
    }
}

fn event(e: Event)
    ensures { event_fits e ≡ true }
{
    match e {
        Event::Take { k, first, pages } | Event::Back { k, first, pages } => {
            place(k);
            number(first);
            number(pages);
        }
        Event::Move { first, from, to } => {
            number(first);
            place(from);
            place(to);
        }
        Event::New { k, a, s, al } => {
            place(k);
            number(a);
            number(s);
            number(al);
        }
        Event::End { k, a, s } => {
            place(k);
            number(a);
            number(s);
        }
        Event::Size { k, a, s, s2 } => {
            place(k);
            number(a);
            number(s);
            number(s2);
        }
        Event::Full { k, n, al } => {
            place(k);
            number(n);
            number(al);
        }
        Event::Dry { zone, pages, al } => {
            small(zone);
            number(pages);
            number(al);
        }
        Event::No { k, zone, a, s } => {
            place(k);
            small(zone);
            number(a);
            number(s);
        }
        Event::Open { zone } | Event::Shut { zone } => small(zone),
    }
}

/// An entry of a record.
pub(crate) fn step(step: RunEntry)
    ensures { entry_fits step ≡ true }
{
    number(step.ticket);
    event(step.event);
}

/// An answer, which comes back.
pub(crate) fn answer(answer: Answer) -> Answer
    ensures same { result ≡ answer }
    ensures fits { answer_fits answer ≡ true }
{
    match answer {
        Answer::WrongSize { s } | Answer::Size { s } => number(s),
        Answer::HasLive { n } | Answer::Got { n } | Answer::Freed { n } => number(n),
        Answer::Block { a, s } => {
            number(a);
            number(s);
        }
        Answer::Bytes { shown } => bytes(shown),
        Answer::Zone { name } => zone(name),
        Answer::Held
        | Answer::NoZone
        | Answer::Overflow
        | Answer::BadAlign
        | Answer::NotHeld
        | Answer::OutOfRange
        | Answer::NameTaken
        | Answer::TooMany
        | Answer::IsDefault
        | Answer::Null
        | Answer::Nowhere
        | Answer::Done
        | Answer::NotLive => {}
    }
    answer
}

// A listed block, of one of the ranges that are listed.
fn listed(l: Listed)
    requires { is_listed_range l.range ≡ true }
    ensures { listed_fits l ≡ true }
{
    number(l.a);
    number(l.s);
    zone(l.zone);
}

/// A listing of blocks of such ranges.
pub(crate) fn listing(list: &[Listed])
    requires { list_all (λ l. is_listed_range l.range) list.now ≡ true }
    ensures { list_all listed_fits list.now ≡ true }
{
    for l in list {
        listed(*l);
    }
}

/// The statistics.
pub(crate) fn numbers(s: Statistics)
    ensures { statistics_fit s ≡ true }
{
    number(s.blocks_in_use);
    number(s.size_in_use);
    number(s.max_size_in_use);
    number(s.size_allocated);
}

// Bytes that are shown.
fn bytes(shown: Shown)
    ensures { are_shown shown ≡ true }
{
    let all = shown.bytes();
    for b in all {
        byte(*b);
    }
}

fn byte(b: u8)
    ensures { is_from 0 255 b ≡ true }
{
    let _ = b;
}

fn zone(name: ZoneName)
    ensures { is_base_name name ≡ true }
{
    name.bytes();
}
