//! The bits of a word, the lowest first.
ghost use Rattle.std.specs.Prelude.{◌≡◌, ◌<◌, true, false, MatchOption};
ghost use Rattle.mz_lists.specs.Words.{is_set, HasNone, IsFirst, IsWith};

/// Whether bit `i` is set.
pub(crate) fn is_set(word: u64, i: u64) -> bool
    requires { i < 64 }
    ensures { result ≡ is_set word i }
{
    word >> i & 1 == 1
}

/// The word with bit `i` set.
pub(crate) fn with_bit(word: u64, i: u64) -> u64
    requires { i < 64 }
    ensures { IsWith true word i result }
{
    word | 1 << i
}

/// The word with bit `i` clear.
pub(crate) fn without_bit(word: u64, i: u64) -> u64
    requires { i < 64 }
    ensures { IsWith false word i result }
{
    word & !(1 << i)
}

/// The lowest bit from the `i`-th on that is set.
pub(crate) fn first_set(word: u64, i: u64) -> Option<u64>
    requires { i < 64 }
    ensures { MatchOption result (HasNone word i) (IsFirst word i) }
{
    let rest = word >> i;
    if rest == 0 {
        return None;
    }
    Some(i + u64::from(rest.trailing_zeros()))
}
