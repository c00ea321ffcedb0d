ghost use Rattle.std.specs.Prelude.{◌≡◌, ◌+◌, ◌*◌, ◌%◌, ◌<◌, ◌≤◌, length};
ghost use Rattle.std.specs.Int.{IsPowerOfTwo};
ghost use Rattle.mz_base.specs.Limits.{IsFrom};

use crate::dice::Dice;
use crate::plain::Plain;
use bench::Bench;
use mz_ground::{Space, Span};
use mz_region::{Blank, Region};
use std::alloc::{AllocError, Global};
use std::test::Fail;

mod bench;

fn is_send_and_sync<T: Send + Sync + Drop>(_value: T) {}

/// What a region and the plain list answer.
type Answers = (Option<(u64, u64)>, Option<(u64, u64)>);

fn aligned<const Q: usize, const N: usize>(
    bench: &mut Bench<Q, N>,
    plain: &mut Plain,
    n: u64,
    al: u64,
) -> Result<Answers, AllocError>
    requires quanta { IsFrom 1 64 n }
    requires power { IsPowerOfTwo al }
    requires range { IsFrom Q 16384 al }
{
    let got = bench.alloc_aligned(n, al)?;
    Ok((got, plain.alloc(n.saturating_mul(Q as u64), al)?))
}

// A call that places a block at an address.
fn placed<const Q: usize, const N: usize>(
    bench: &mut Bench<Q, N>,
    plain: &mut Plain,
    n: u64,
    q: u64,
) -> Result<Answers, AllocError>
    requires { IsFrom 1 64 n }
{
    let a = bench.address(q);
    let got = bench.alloc_at(a, n)?;
    Ok((got, plain.alloc_at(a, n.saturating_mul(Q as u64))?))
}

// A call that gives a block back or makes it one of `n` quanta.
fn changed<const Q: usize, const N: usize>(
    bench: &mut Bench<Q, N>,
    plain: &mut Plain,
    n: u64,
    i: usize,
    free: bool,
) -> Result<Answers, AllocError>
    requires { IsFrom 1 64 n }
{
    if free {
        let Some((a, size)) = bench.free(i) else {
            return Ok((None, None));
        };
        return Ok((Some((a, size)), Some((a, plain.free(a, plain.size_at(a))))));
    }
    let Some((a, size)) = bench.resize(i, n)? else {
        return Ok((None, None));
    };
    let has = plain.resize(a, n.saturating_mul(Q as u64))?;
    Ok((Some((a, size)), Some((a, has))))
}

fn one_call<const Q: usize, const N: usize>(
    bench: &mut Bench<Q, N>,
    plain: &mut Plain,
    dice: &mut Dice,
) -> Result<Answers, AllocError>
    requires { Q ≤ 512 }
{
    let n = dice.quanta();
    let i = dice.below(64) as usize;
    match dice.below(8) {
        0 | 1 => Ok((
            bench.alloc(n)?,
            plain.alloc(n.saturating_mul(Q as u64), Q as u64)?,
        )),
        2 => aligned(bench, plain, n, 512),
        3 => aligned(bench, plain, n, 2048),
        4 => aligned(bench, plain, n, 16_384),
        5 => placed(bench, plain, n, dice.below(70)),
        6 => changed(bench, plain, n, i, false),
        _ => changed(bench, plain, n, i, true),
    }
}

/// Whether all that can be read of the region is what the plain list says.
fn reads_agree<const Q: usize, const N: usize>(
    region: &Region<Q, N>,
    plain: &Plain,
    start: u64,
    a: u64,
) -> bool {
    let (count, bytes, all) = plain.sums();
    let wanted = (
        start,
        plain.size_at(a),
        bytes,
        all.saturating_sub(bytes),
        count,
    );
    let got = (
        region.first(),
        region.size_at(a),
        region.live_bytes(),
        region.idle_bytes(),
        region.count(),
    );
    got == wanted
}

/// How many calls a region over these bytes answers as a plain list does, up to the first that it
/// doesn't.
fn calls_that_agree<const Q: usize, const N: usize>(
    alloc: Global,
    span: Span,
    calls: u64,
) -> Result<u64, AllocError>
    requires power { IsPowerOfTwo Q }
    requires small { Q ≤ 512 }
    requires whole { length span.bytes ≡ Q * N }
    requires at { span.first % (Q * N) ≡ 0 }
{
    let start = span.first();
    let mut plain = Plain::new(alloc, true);
    plain.adopt(start, span.len())?;
    let mut bench: Bench<Q, N> = Bench::new(alloc, span)?;
    let mut dice = Dice::new();
    for call in 0..calls {
        let (got, wanted) = one_call(&mut bench, &mut plain, &mut dice)?;
        let here = bench.address(dice.below(64));
        if got != wanted || !reads_agree(bench.region(), &plain, start, here) {
            return Ok(call);
        }
    }
    Ok(calls)
}

#[test]
fn regions_answer_as_a_plain_list_does(rt: HostRuntime) -> Result<(), Fail> {
    let (first, rest) = Space::new(rt.alloc(), 1)?.split(1024);
    let (second, _rest) = rest.split(1024);
    let tiny = Space::new(rt.alloc(), 64)?;
    let small = Space::new(rt.alloc(), 512)?;
    let got = (
        calls_that_agree::<16, 64>(rt.alloc(), first, 10_000)?,
        calls_that_agree::<16, 64>(rt.alloc(), second, 10_000)?,
        calls_that_agree::<16, 65_536>(rt.alloc(), tiny, 1_000)?,
        calls_that_agree::<512, 16_384>(rt.alloc(), small, 1_000)?,
    );
    assert_eq!(rt; got, (10_000, 10_000, 1_000, 1_000));
    Ok(())
}

/// How many blocks of 1 to 63 quanta in turn lie one behind another from address 0 on.
fn fill(bench: &mut Bench<16, 65_536>) -> Result<u64, AllocError> {
    let mut next = 0u64;
    for i in 0..65_536 {
        let size = 16 * (1 + i % 63);
        if bench.alloc(1 + i % 63)? != Some((next, size)) {
            return Ok(i);
        }
        next = next.saturating_add(size);
    }
    Ok(65_536)
}

/// How many of the blocks with an even number below `blocks` the region has room for.
fn fill_again(bench: &mut Bench<16, 65_536>, blocks: u64) -> Result<u64, AllocError> {
    let mut again = 0u64;
    for i in 0..blocks {
        if i % 2 == 0 && bench.alloc(1 + i % 63)?.is_some() {
            again = again.saturating_add(1);
        }
    }
    Ok(again)
}

#[test]
fn a_region_is_filled_to_its_last_quantum_and_again(rt: HostRuntime) -> Result<(), Fail> {
    let mut bench: Bench<16, 65_536> = Bench::new(rt.alloc(), Space::new(rt.alloc(), 64)?)?;
    let blocks = fill(&mut bench)?;
    for _ in 0..64 {
        bench.alloc(1)?;
    }
    assert_eq!(rt; bench.alloc(1)?, None);
    let region = bench.region();
    assert_eq!(rt; (region.idle_bytes(), region.live_bytes()), (0, 1_048_576));
    for i in 0..32_768 {
        if bench.free(i).is_none() {
            break;
        }
    }
    assert_eq!(rt; fill_again(&mut bench, blocks)?, blocks.div_ceil(2));
    Ok(())
}

#[test]
fn only_a_whole_block_is_taken_back(rt: HostRuntime) -> Result<(), Fail> {
    let (ours, rest) = Space::new(rt.alloc(), 1)?.split(1024);
    let mut region: Region<16, 64> = Blank::make(rt.alloc())?.fit(ours);
    let Some(block) = region.alloc(3) else {
        return Err(Fail::new("the region is empty"));
    };
    assert!(rt; region.free(rest).is_err());
    let (front, back) = block.split(16);
    let Err(back) = region.free(back) else {
        return Err(Fail::new("the back of a block"));
    };
    let Err(front) = region.free(front) else {
        return Err(Fail::new("the front of a block"));
    };
    let Ok(block) = front.join(back) else {
        unreachable!();
    };
    let Err(mut region) = region.strip() else {
        return Err(Fail::new("a block is live"));
    };
    assert!(rt; region.free(block).is_ok());
    let Ok((ours, blank)) = region.strip() else {
        return Err(Fail::new("no block is live"));
    };
    assert_eq!(rt; (ours.first(), ours.len()), (0, 1024));
    is_send_and_sync(blank.fit(ours));
    is_send_and_sync(Blank::<16, 64>::make(rt.alloc())?);
    Ok(())
}
