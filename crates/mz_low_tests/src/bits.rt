//! Bits at the edges of a word, and searches among them.
ghost use Rattle.std.specs.Prelude.{◌<◌, length};

use crate::crossing::may_cross;
use mz_bits::Bits;
use std::alloc::{AllocError, Global};
use std::test::Fail;

// Bit `i` before it is set and after, the next set bit from 0 on and behind `i` then, and the next set bit once `i` is
// cleared.
fn one_bit(bits: &mut Bits, i: u64) -> (bool, bool, Option<u64>, Option<u64>, Option<u64>)
    requires { i < length bits.old }
{
    let behind = i.saturating_add(1);
    let before = bits.get(i);
    bits.set(i);
    let after = bits.get(i);
    let (next, other) = (bits.next_set(0), bits.next_set(behind));
    bits.clear(i);
    (before, after, next, other, bits.next_set(0))
}

#[test]
fn one_bit_is_set_and_cleared_at_the_edges_of_a_word(rt: HostRuntime) -> Result<(), Fail> {
    let mut bits = Bits::make(rt.alloc(), 129)?;
    for i in [0, 63, 64, 65, 127, 128] {
        let len = bits.len();
        assert!(rt; i < len);
        let got = (len, one_bit(&mut bits, i));
        assert_eq!(rt; got, (129, (false, true, Some(i), None, None)));
    }
    may_cross(bits);
    Ok(())
}

// Of `n` bits, of which `count` from the `first`-th on are set: the next set bit from `i` on, the next clear bit, and
// the run of clear bits there, up to 100; and the next set bit from 0 on once these are clear again. None where
// there aren't so many bits.
fn searched(
    alloc: Global,
    n: u64,
    first: u64,
    count: u64,
    i: u64,
) -> Result<Option<(Option<u64>, Option<u64>, u64, Option<u64>)>, AllocError> {
    let mut bits = Bits::make(alloc, n)?;
    if count > bits.len() || first > bits.len() - count {
        return Ok(None);
    }
    bits.set_run(first, count);
    let (set, clear, run) = (bits.next_set(i), bits.next_clear(i), bits.run_at(i, 100));
    bits.clear_run(first, count);
    Ok(Some((set, clear, run, bits.next_set(0))))
}

#[test]
fn a_search_answers_the_least_place(rt: HostRuntime) -> Result<(), Fail> {
    // How many bits, the first of those that are set and how many these are, where the search
    // begins, the next set bit, the next clear bit, and the run of clear bits there, up to 100.
    let rows: [(u64, u64, u64, u64, Option<u64>, Option<u64>, u64); 22] = [
        (0, 0, 0, 0, None, None, 0),
        (0, 0, 0, 7, None, None, 0),
        (1, 0, 0, 0, None, Some(0), 1),
        (1, 0, 1, 0, Some(0), None, 0),
        (64, 0, 0, 0, None, Some(0), 64),
        (64, 0, 64, 0, Some(0), None, 0),
        (64, 0, 63, 0, Some(0), Some(63), 0),
        (64, 63, 1, 0, Some(63), Some(0), 63),
        (64, 63, 1, 63, Some(63), None, 0),
        (65, 64, 1, 0, Some(64), Some(0), 64),
        (65, 0, 64, 0, Some(0), Some(64), 0),
        (65, 0, 64, 64, None, Some(64), 1),
        (65, 0, 65, 64, Some(64), None, 0),
        (65, 63, 2, 62, Some(63), Some(62), 1),
        (65, 0, 0, 65, None, None, 0),
        (65, 0, 0, u64::MAX, None, None, 0),
        (300, 65, 130, 66, Some(66), Some(195), 0),
        (65_536, 0, 0, 0, None, Some(0), 100),
        (65_536, 0, 65_536, 0, Some(0), None, 0),
        (65_536, 65_535, 1, 0, Some(65_535), Some(0), 100),
        (65_536, 0, 65_535, 5, Some(5), Some(65_535), 0),
        (65_536, 0, 65_530, 65_530, None, Some(65_530), 6),
    ];
    for (n, first, count, i, set, clear, run) in rows {
        let got = searched(rt.alloc(), n, first, count, i)?;
        assert_eq!(rt; got, Some((set, clear, run, None)));
    }
    Ok(())
}

#[test]
fn a_map_knows_its_length(rt: HostRuntime) -> Result<(), Fail> {
    for n in [0, 1, 64, 65, 65_536] {
        let bits = Bits::make(rt.alloc(), n)?;
        assert_eq!(rt; (bits.len(), bits.is_empty()), (n, n == 0));
    }
    assert!(rt; Bits::make(rt.alloc(), u64::MAX).is_err());
    Ok(())
}
