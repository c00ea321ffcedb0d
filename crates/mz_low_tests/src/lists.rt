//! Free lists beside a plain list, and callers that count nothing.
ghost use Rattle.std.specs.Prelude.{◌≡◌, ◌<◌, ◌≤◌};

use crate::crossing::may_cross;
use bench::Bench;
use mz_lists::{FreeLists, Steps};
use std::alloc::{AllocError, Global};
use std::marker::Brand;
use std::sync::ledger::{Blank, Ledger};
use std::test::Fail;
use uncounted::Uncounted;

mod bench;
mod uncounted;

/// Numbers that look random, the same in each run.
#[derive(Drop)]
struct Dice(u64);

impl Dice {
    fn below(&mut self, n: u64) -> u64
        requires { 0 < n }
        ensures { result < n }
    {
        self.0 = self
            .0
            .wrapping_mul(6_364_136_223_846_793_005)
            .wrapping_add(1_442_695_040_888_963_407);
        (self.0 >> 33) % n
    }
}

/// How many calls free lists of so many quanta answer as a plain list does, up to the first that
/// they don't.
fn calls_that_agree<const N: usize, L: Ledger>(
    alloc: Global,
    quanta: u64,
    calls: u64,
    steps: &mut Steps<L>,
) -> Result<u64, AllocError>
    requires some { 1 ≤ N }
    requires most { N ≤ 64 }
    requires quanta { 1 ≤ quanta }
{
    let mut bench: Bench<N> = Bench::new(alloc, quanta)?;
    let mut dice = Dice(1);
    for call in 0..calls {
        let q = dice.below(quanta);
        let n = dice.below(80);
        match dice.below(5) {
            0 | 1 => bench.put(q, n + 1, steps),
            2 => bench.put(q, n / 16 + 1, steps),
            _ => bench.take(q, steps),
        }
        let n = 1 + dice.below(N as u64);
        if !bench.agrees(n, steps) {
            return Ok(call);
        }
    }
    Ok(calls)
}

/// The same with 2, 8 and 64 lists, in one ledger.
fn calls_at_each_count<L: Ledger>(
    alloc: Global,
    calls: u64,
    blank: Blank,
) -> Result<(u64, u64, u64), AllocError>
    requires name { blank.name ≡ L.name }
    requires parts { blank.parts ≡ L.parts }
    requires one { 0 < blank.parts }
{
    let mut steps = Steps::<L>::open(blank);
    let two = calls_that_agree::<2, L>(alloc, 100, calls, &mut steps)?;
    let eight = calls_that_agree::<8, L>(alloc, 100, calls, &mut steps)?;
    let most = calls_that_agree::<64, L>(alloc, 100, calls, &mut steps)?;
    Ok((two, eight, most))
}

#[test]
fn lists_of_each_count_answer_as_a_plain_list_does(rt: HostRuntime) -> Result<(), Fail> {
    let agreed = calls_at_each_count::<Brand>(rt.alloc(), 10_000, Blank::new(1))?;
    assert_eq!(rt; agreed, (10_000, 10_000, 10_000));
    Ok(())
}

/// What 64 lists answer whose one member is all quanta, and what they answer without it.
fn whole_and_none<L: Ledger>(
    alloc: Global,
    quanta: u64,
    blank: Blank,
) -> Result<(Option<(u64, u64)>, Option<(u64, u64)>), AllocError>
    requires name { blank.name ≡ L.name }
    requires parts { blank.parts ≡ L.parts }
    requires one { 0 < blank.parts }
    requires quanta { 1 ≤ quanta }
{
    let mut steps = Steps::<L>::open(blank);
    let mut lists: FreeLists<64> = FreeLists::make(alloc, quanta)?;
    lists.put(0, quanta, &mut steps);
    let whole = lists.first_at_least(1, &mut steps);
    lists.take(0, &mut steps);
    let none = lists.first_at_least(1, &mut steps);
    Ok((whole, none))
}

#[test]
fn all_quanta_are_one_member_at_either_width(rt: HostRuntime) -> Result<(), Fail> {
    for quanta in [1, 65_535, 65_536, 65_537] {
        let got = whole_and_none::<Brand>(rt.alloc(), quanta, Blank::new(1))?;
        assert_eq!(rt; got, (Some((0, quanta)), None));
    }
    Ok(())
}

#[test]
fn a_caller_that_counts_nothing_may_have_const_parameters(rt: HostRuntime) -> Result<(), Fail> {
    let mut lists: Uncounted<512, 100> = Uncounted::make(rt.alloc())?;
    assert_eq!(rt; lists.put(40, 3), Some(20_480));
    Ok(())
}

#[test]
fn lists_cross_threads(rt: HostRuntime) -> Result<(), Fail> {
    may_cross(FreeLists::<64>::make(rt.alloc(), 0)?);
    assert!(rt; FreeLists::<64>::make(rt.alloc(), u64::MAX).is_err());
    Ok(())
}
