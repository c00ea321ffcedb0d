//! Bits in a slice of words: the lowest bit of a word is its first.
ghost use Rattle.std.specs.Prelude.{◌≡◌, ℕ, ◌+◌, ◌-◌, ◌*◌, ◌/◌, ◌%◌, ◌^◌, ◌<◌, ◌≤◌, length, MatchOption};
ghost use Rattle.mz_bits.specs.Words.{IsRestOf, NoneIs, IsFirstThat, IsWritten, Writes};

/// The least place from `i` on, below `end`, whose bit is `value`.
pub(crate) fn next_in(words: &[u64], value: bool, i: u64, end: u64) -> Option<u64>
    requires within { end ≤ 64 * length words.now }
    requires small { 64 * length words.now < 2 ^ 64 }
    ensures { MatchOption result (NoneIs value words.now i end)
        (IsFirstThat value words.now i end) }
{
    let mut from = i;
    while from < end {
        let rest = rest_of(words[(from / 64) as usize], value, from % 64);
        if rest != 0 {
            let place = from + u64::from(rest.trailing_zeros());
            return if place < end { Some(place) } else { None };
        }
        from = (from / 64 + 1) * 64;
    }
    None
}

/// Makes the `n` bits from the `i`-th on `value`, a word at a time.
pub(crate) fn write_in(words: &mut [u64], value: bool, i: u64, n: u64)
    requires within { i + n ≤ 64 * length words.old }
    requires small { 64 * length words.old < 2 ^ 64 }
    ensures { Writes value words.old i n words.new }
{
    let end = i + n;
    let mut from = i;
    while from < end {
        let part = (end - from).min(64 - from % 64);
        let word = &mut words[(from / 64) as usize];
        *word = written(*word, value, from % 64, part);
        from += part;
    }
}

// The bits of a word from the `from`-th on, with a 1 for each that is `value`.
fn rest_of(word: u64, value: bool, from: u64) -> u64
    requires { from < 64 }
    ensures { IsRestOf value word from result }
{
    if value { word >> from } else { !word >> from }
}

// A word with `n` bits, those from the `from`-th on, made `value`.
fn written(word: u64, value: bool, from: u64, n: u64) -> u64
    requires some { 1 ≤ n }
    requires within { from + n ≤ 64 }
    ensures { IsWritten value word from n result }
{
    let mask = mask_of(from, n);
    if value { word | mask } else { word & !mask }
}

// `n` ones, from the `from`-th bit on.
fn mask_of(from: u64, n: u64) -> u64
    requires some { 1 ≤ n }
    requires within { from + n ≤ 64 }
    ensures { result ≡ 2 ^ (from + n) - 2 ^ from }
{
    (u64::MAX >> (64 - n)) << from
}
