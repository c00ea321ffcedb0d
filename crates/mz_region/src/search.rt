//! What a region's bits say: the idle run that serves a request, and how long a block is.
ghost use Rattle.std.specs.Prelude.{◌≡◌, ℕ, ◌+◌, ◌^◌, ◌<◌, ◌≤◌, drop, length, MatchOption};
ghost use Rattle.mz_region.specs.Quanta.{rest_of};
ghost use Rattle.mz_region.specs.Search.{front_from, IsRoomAt, IsFrontAt};

use mz_bits::Bits;

/// The front of an idle run with room for `n` quanta at a multiple of `step`, where the first quantum is
/// the `base`-th of its space. It is the lowest such run, which no clause says.
pub(crate) fn front_of_room(in_use: &Bits, base: u64, step: u64, n: u64) -> Option<u64>
    requires some { 1 ≤ n }
    requires step { 1 ≤ step }
    requires small { base + length in_use.now + step + n < 2 ^ 64 }
    ensures { MatchOption result ((i : ℕ) → ¬ IsRoomAt in_use.now base step n i)
        (IsFrontAt in_use.now base step n) }
{
    let mut from = 0;
    while let Some(start) = in_use.next_clear(from) {
        let front = front_behind(start, base, step);
        let wanted = front - start + n;
        let idle = in_use.run_at(start, wanted);
        if idle == wanted {
            return Some(front);
        }
        from = start + idle;
    }
    None
}

// The first quantum at or behind `start` at a multiple of `step`.
fn front_behind(start: u64, base: u64, step: u64) -> u64
    requires step { 1 ≤ step }
    requires small { base + start + step < 2 ^ 64 }
    ensures value { result ≡ front_from base step start }
    ensures above { start ≤ result }
    ensures below { result < start + step }
{
    (base + start).next_multiple_of(step) - base
}

/// How many quanta the block that begins at the `q`-th has.
pub(crate) fn block_len(begins: &Bits, in_use: &Bits, q: u64) -> u64
    requires within { q < length in_use.now }
    requires same { length begins.now ≡ length in_use.now }
    ensures { result ≡ 1 + rest_of (drop (q + 1) begins.now) (drop (q + 1) in_use.now) }
{
    let len = in_use.len();
    let mut end = q + 1;
    while end < len && in_use.get(end) && !begins.get(end) {
        end += 1;
    }
    end - q
}
