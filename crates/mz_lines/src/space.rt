//! The second line of a trace and of a printed run: the numbers of the space.

ghost use Rattle.std.specs.Prelude.{◌≡◌, ◌++◌, None, Some, Option, OnOk, MatchOption, map, string_bytes, if◌then◌else◌, min};
ghost use Rattle.mz_base.specs.declared.profile.Profile.{Profile as profile};
ghost use Rattle.mz_words.specs.Lines.{line_text};
ghost use Rattle.mz_lines.specs.Spaces.{profile_in, field_of, if_last, if_within_limits, space_words};

use mz_base::Profile;
use mz_words::numbers::number;
use std::alloc::AllocError;

/// Adds the line of a profile. After an error a part of that text may stand there.
pub fn write_space(out: &mut String, profile: &Profile) -> Result<(), AllocError>
    ensures { OnOk result (string_bytes out.new ≡ string_bytes out.old ++ line_text (space_words profile.now)) }
{
    let Profile {
        pages,
        callers,
        magazines,
        nano,
        most_gen,
        zones,
    } = *profile;
    write!(out, "space {pages} callers {callers} magazines {magazines}")?;
    writeln!(out, " nano {nano} gen {most_gen} zones {zones}")
}

/// The profile that words are, or None where they are none within the limits.
pub fn read_space(words: &[&[u8]]) -> Option<Profile>
    ensures { result ≡ profile_in (map (λ w. w.now) words.now) }
{
    let (pages, rest) = field(words, b"space")?;
    let (callers, rest) = field(rest, b"callers")?;
    let (magazines, rest) = field(rest, b"magazines")?;
    let (nano, rest) = field(rest, b"nano")?;
    let (most_gen, rest) = field(rest, b"gen")?;
    let (zones, rest) = field(rest, b"zones")?;
    if is_last(rest) {
        within_limits(pages, callers, magazines, nano, most_gen, zones)
    } else {
        None
    }
}

/// Whether no words are left.
fn is_last(words: &[&[u8]]) -> bool
    ensures { (p : Option profile) → if_last (map (λ w. w.now) words.now) p ≡ (if result then p else None) }
{
    match words {
        [] => true,
        [_, ..] => false,
    }
}

/// A label and a number in front, and the words behind them.
fn field<'w, 'a>(words: &'w [&'a [u8]], label: &[u8]) -> Option<(u64, &'w [&'a [u8]])>
    ensures { MatchOption result (field_of label.now (map (λ w. w.now) words.now) ≡ None) (λ x. field_of label.now (map (λ w. w.now) words.now) ≡ Some (x.0, map (λ w. w.now) x.1.now)) }
{
    match words {
        [] => None,
        [_] => None,
        [word, n, rest @ ..] => {
            if *word == label {
                Some((number(n)?, rest))
            } else {
                None
            }
        }
    }
}

/// The profile of these numbers, if it is within the limits.
fn within_limits(
    pages: u64,
    callers: u64,
    magazines: u64,
    nano: u64,
    most_gen: u64,
    zones: u64,
) -> Option<Profile>
    ensures { result ≡ if_within_limits (record { pages = pages; callers = callers; magazines = magazines; nano = nano; most_gen = most_gen; zones = zones }) }
{
    let profile = Profile {
        pages,
        callers: small(callers),
        magazines: small(magazines),
        nano,
        most_gen,
        zones: small(zones),
    };
    if profile.ok() { Some(profile) } else { None }
}

/// The number in 32 bits, or the greatest that they hold, which is beyond each limit.
fn small(n: u64) -> u32
    ensures { result ≡ min n u32.MAX }
{
    u32::try_from(n).unwrap_or(u32::MAX)
}
