//! Bytes, cut into lines, and lines, cut into words.

ghost use Rattle.std.specs.Prelude.{◌≡◌, ◌==◌, ◌<◌, ◌+◌, ◌≤◌, ◌∷◌, [], IfOk, IfSome, MatchOption, count_by, length, map, position, nat_eq};
ghost use Rattle.std.specs.List.{list_all};
ghost use Rattle.mz_words.specs.Lines.{cut_of, cuts, is_plain, is_short, words_of};
ghost use Rattle.mz_words.specs.Numbers.{is_from};

use std::alloc::{AllocError, Global};

/// The bytes before a line feed, or behind the last one.
#[derive(Clone, Copy, Debug)]
pub struct RawLine<'a> {
    pub text: &'a [u8],
    /// Whether a line feed follows.
    pub ended: bool,
}

/// The first line, and the bytes behind it.
pub fn next_line(bytes: &[u8]) -> Option<(RawLine<'_>, &[u8])>
    ensures cut { MatchOption result (cuts bytes.now ≡ []) (λ x. cuts bytes.now ≡ cut_of x.0 ∷ cuts x.1.now) }
    ensures shorter { IfSome result (λ x. length x.1.now < length bytes.now) }
    ensures sum { IfSome result (λ x. length x.0.text.now + length x.1.now ≤ length bytes.now) }
{
    if bytes.is_empty() {
        return None;
    }
    match line_end(bytes) {
        Some(end) => {
            let line = RawLine {
                text: &bytes[..end],
                ended: true,
            };
            Some((line, &bytes[end + 1..]))
        }
        None => {
            let line = RawLine {
                text: bytes,
                ended: false,
            };
            Some((line, &bytes[bytes.len()..]))
        }
    }
}

/// The place of the first line feed.
fn line_end(bytes: &[u8]) -> Option<usize>
    ensures place { result ≡ position (λ b. nat_eq b 10) bytes.now }
    ensures within { IfSome result (λ i. i < length bytes.now) }
{
    bytes.iter().position(|b| *b == b'\n')
}

/// Whether a line can be read at all.
pub fn is_plain(line: &RawLine<'_>) -> bool
    ensures { result ≡ is_plain (cut_of line.now) }
{
    line.ended && line.text.len() <= 255 && all_printable(line.text)
}

fn all_printable(text: &[u8]) -> bool
    ensures { result ≡ list_all (is_from 32 126) text.now }
{
    text.iter().all(|b| 32 <= *b && *b <= 126)
}

/// Whether a line has a line feed and few words, so that no more than 12 are ever cut of a line of
/// a run.
pub fn is_short(line: &RawLine<'_>) -> bool
    ensures { result ≡ is_short (cut_of line.now) }
{
    line.ended && spaces(line.text) <= 11
}

fn spaces(text: &[u8]) -> usize
    ensures { result ≡ count_by (λ b. b == 32) text.now }
{
    text.iter().filter(|b| **b == b' ').count()
}

/// The words of a line, which stand with one space between each two.
pub fn words(alloc: Global, text: &[u8]) -> Result<Vec<&[u8]>, AllocError>
    ensures { IfOk result (λ v. map (λ w. w.now) v.items ≡ words_of text.now) }
{
    text.split(|b| *b == b' ').collect(alloc)
}
