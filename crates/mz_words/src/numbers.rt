//! Numbers as words.

ghost use Rattle.std.specs.Prelude.{◌≡◌, ◌<◌, ◌^◌, Some, None, true, nat_lt, if◌then◌else◌};
ghost use Rattle.std.specs.List.{list_all};
ghost use Rattle.mz_base.specs.Names.{is_digit};
ghost use Rattle.mz_words.specs.Numbers.{are_digits, caller_of, has_leading_zero, is_number, number_of, value_of};

/// The number that a word is, or None where it is none.
pub fn number(word: &[u8]) -> Option<u64>
    ensures { result ≡ number_of word.now }
{
    if are_digits(word) && !has_leading_zero(word) {
        digits_value(word)
    } else {
        None
    }
}

/// The number of one of so many callers that a word is.
pub fn caller(callers: u32, word: &[u8]) -> Option<u32>
    ensures { result ≡ caller_of callers word.now }
{
    let n = number(word)?;
    if n < u64::from(callers) {
        Some(n as u32)
    } else {
        None
    }
}

/// Whether a word is a number.
pub fn is_number(word: &[u8]) -> bool
    ensures { result ≡ is_number word.now }
{
    number(word).is_some()
}

/// Whether a word has at least one digit, and nothing else.
fn are_digits(word: &[u8]) -> bool
    ensures { result ≡ are_digits word.now }
{
    match word {
        [] => false,
        [first, rest @ ..] => first.is_ascii_digit() && all_digits(rest),
    }
}

fn all_digits(word: &[u8]) -> bool
    ensures { result ≡ list_all is_digit word.now }
{
    word.iter().all(|c| c.is_ascii_digit())
}

/// Whether a 0 stands in front of other digits.
fn has_leading_zero(word: &[u8]) -> bool
    ensures { result ≡ has_leading_zero word.now }
{
    match word {
        [first, _, ..] => *first == b'0',
        _ => false,
    }
}

/// What digits stand for, or None where that isn't below 2^64.
fn digits_value(word: &[u8]) -> Option<u64>
    requires { are_digits word.now ≡ true }
    ensures { result ≡ (if nat_lt (value_of word.now) (2 ^ 64) then Some (value_of word.now) else None) }
{
    match str::from_utf8(word) {
        Ok(digits) => digits.parse().ok(),
        Err(_) => unreachable!(),
    }
}
