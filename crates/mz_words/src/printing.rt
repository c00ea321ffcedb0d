//! Values that are printed as one word. Each function but `range_word` adds a text to `out`. After an
//! error a part of that text may stand there.

ghost use Rattle.std.specs.Prelude.{◌≡◌, ◌++◌, ◌<◌, OnOk, IsTrue, string_bytes};
ghost use Rattle.mz_base.specs.Names.{is_base_name};
ghost use Rattle.mz_words.specs.Names.{name_word};
ghost use Rattle.std.specs.Fmt.{decimal};
ghost use Rattle.mz_words.specs.Places.{place_word};
ghost use Rattle.mz_words.specs.Hex.{hex_word, hex_digit};
ghost use Rattle.mz_words.specs.Ranges.{range_word};

use crate::name::Name;
use mz_base::Range;
use mz_events::Place;
use std::alloc::AllocError;

pub fn print_number(out: &mut String, n: u64) -> Result<(), AllocError>
    ensures { OnOk result (string_bytes out.new ≡ string_bytes out.old ++ decimal n) }
{
    write!(out, "{n}")
}

/// A base name, or the name of a zone.
pub fn print_base_name(out: &mut String, name: &[u8]) -> Result<(), AllocError>
    requires { IsTrue (is_base_name name.now) }
    ensures { OnOk result (string_bytes out.new ≡ string_bytes out.old ++ name.now) }
{
    match str::from_utf8(name) {
        Ok(text) => out.push_str(text),
        Err(_) => unreachable!(),
    }
}

pub fn print_block_name(out: &mut String, name: &Name) -> Result<(), AllocError>
    ensures { OnOk result (string_bytes out.new ≡ string_bytes out.old ++ name_word name.now) }
{
    match name {
        Name::Base(base) => print_base_name(out, base.bytes()),
        Name::Batch(batch) => {
            print_base_name(out, batch.base.bytes())?;
            let index = batch.index.number();
            write!(out, ".{index}")
        }
        Name::Given(given) => {
            out.push_str("@")?;
            print_base_name(out, given.base.bytes())
        }
    }
}

pub fn print_place(out: &mut String, place: Place) -> Result<(), AllocError>
    ensures { OnOk result (string_bytes out.new ≡ string_bytes out.old ++ place_word place) }
{
    match place {
        Place::Pages => out.push_str("p"),
        Place::Tiny { zone, mag } => write!(out, "{zone}t{mag}"),
        Place::TinyDepot { zone } => write!(out, "{zone}td"),
        Place::Small { zone, mag } => write!(out, "{zone}s{mag}"),
        Place::SmallDepot { zone } => write!(out, "{zone}sd"),
        Place::Large { zone } => write!(out, "{zone}l"),
        Place::Nano => out.push_str("n"),
    }
}

/// The word for a range.
pub fn range_word(range: Range) -> &'static str
    ensures { result.now ≡ range_word range }
{
    match range {
        Range::Nano => "nano",
        Range::Tiny => "tiny",
        Range::Small => "small",
        Range::Medium => "medium",
        Range::Large => "large",
    }
}

/// Two hexadecimal digits for each byte.
pub fn print_hex(out: &mut String, bytes: &[u8]) -> Result<(), AllocError>
    ensures { OnOk result (string_bytes out.new ≡ string_bytes out.old ++ hex_word bytes.now) }
{
    for b in bytes {
        out.push(hex_digit(*b / 16))?;
        out.push(hex_digit(*b % 16))?;
    }
    Ok(())
}

fn hex_digit(n: u8) -> char
    requires { n < 16 }
    ensures digit { result ≡ hex_digit n }
    ensures ascii { result < 128 }
{
    let digit = if n < 10 { b'0' + n } else { b'a' + (n - 10) };
    char::from(digit)
}
