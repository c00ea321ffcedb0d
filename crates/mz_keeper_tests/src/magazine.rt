ghost use Rattle.std.specs.Prelude.{◌≡◌, ◌*◌, ◌%◌, ◌<◌, ◌≤◌, length};
ghost use Rattle.std.specs.Int.{IsPowerOfTwo};
ghost use Rattle.mz_base.specs.Limits.{IsFrom};

use crate::dice::Dice;
use crate::plain::Plain;
use bench::Bench;
use mz_ground::{Space, Span};
use mz_magazine::Magazine;
use std::alloc::{AllocError, Global};
use std::test::Fail;

mod bench;

fn is_send_and_sync<T: Send + Sync + Drop>(_value: T) {}

/// What a magazine and the plain lists answer.
type Answers = (Option<(u64, u64)>, Option<(u64, u64)>);

fn alloc<const Q: usize, const N: usize>(
    bench: &mut Bench<Q, N>,
    plain: &mut Plain,
    n: u64,
    al: u64,
) -> Result<Answers, AllocError>
    requires quanta { IsFrom 1 64 n }
    requires power { IsPowerOfTwo al }
    requires range { al ≤ 16384 }
{
    let got = bench.alloc(n, al)?;
    Ok((got, plain.alloc(n.saturating_mul(Q as u64), al)?))
}

// A call that makes a block one of `n` quanta.
fn resize<const Q: usize, const N: usize>(
    bench: &mut Bench<Q, N>,
    plain: &mut Plain,
    n: u64,
    i: usize,
) -> Result<Answers, AllocError>
    requires { IsFrom 1 64 n }
{
    let Some((a, size)) = bench.resize(i, n)? else {
        return Ok((None, None));
    };
    let has = plain.resize(a, n.saturating_mul(Q as u64))?;
    Ok((Some((a, size)), Some((a, has))))
}

// A call that gives a block back, which the magazine may not have.
fn free<const Q: usize, const N: usize>(
    bench: &mut Bench<Q, N>,
    plain: &mut Plain,
    i: usize,
) -> Result<Answers, AllocError> {
    let Some((a, size, took)) = bench.free(i)? else {
        return Ok((None, None));
    };
    Ok((Some((a, took)), Some((a, plain.free(a, size)))))
}

// A call that takes or gives back a block.
fn one_call<const Q: usize, const N: usize>(
    bench: &mut Bench<Q, N>,
    plain: &mut Plain,
    dice: &mut Dice,
) -> Result<Answers, AllocError> {
    let n = dice.quanta();
    let i = dice.below(100) as usize;
    match dice.below(8) {
        0 | 1 => alloc(bench, plain, n, 16),
        2 => alloc(bench, plain, n, 256),
        3 => alloc(bench, plain, n, 16_384),
        4 => resize(bench, plain, n, i),
        _ => free(bench, plain, i),
    }
}

/// Whether all that can be read of the magazine is what the plain lists say.
fn reads_agree<const Q: usize, const N: usize>(
    magazine: &Magazine<Q, N>,
    plain: &Plain,
    a: u64,
    n: u64,
) -> bool
    requires { IsFrom 1 64 n }
{
    let got = (
        (magazine.count(), magazine.regions()),
        (magazine.size_at(a), magazine.has(a)),
        (magazine.excess(), magazine.sparse(), magazine.empty()),
        (magazine.fits(n, 16), magazine.fits(n, 1024)),
    );
    let bytes = n.saturating_mul(Q as u64);
    let wanted = (
        (plain.sums().0, plain.regions()),
        (plain.size_at(a), plain.has(a)),
        (plain.excess(), plain.sparse(), plain.empty()),
        (plain.fits(bytes, 16), plain.fits(bytes, 1024)),
    );
    got == wanted
}

/// How many of these calls a magazine answers as plain lists do, up to the first that it doesn't.
fn calls_that_agree<const Q: usize, const N: usize>(
    bench: &mut Bench<Q, N>,
    plain: &mut Plain,
    dice: &mut Dice,
    calls: u64,
) -> Result<u64, AllocError> {
    for call in 0..calls {
        let here = dice.below(420).saturating_mul(Q as u64);
        let n = dice.quanta();
        let (got, wanted) = one_call(bench, plain, dice)?;
        if got != wanted || !reads_agree(bench.magazine(), plain, here, n) {
            return Ok(call);
        }
    }
    Ok(calls)
}

/// The same of a magazine of one region, which is the whole space.
fn calls_in_one_region<const Q: usize, const N: usize>(
    alloc: Global,
    space: Span,
    calls: u64,
) -> Result<u64, AllocError>
    requires power { IsPowerOfTwo Q }
    requires whole { length space.bytes ≡ Q * N }
    requires at { space.first % (Q * N) ≡ 0 }
{
    let mut plain = Plain::new(alloc, false);
    plain.adopt(space.first(), space.len())?;
    let mut bench: Bench<Q, N> = Bench::of_one(alloc, space)?;
    let mut dice = Dice::new();
    calls_that_agree(&mut bench, &mut plain, &mut dice, calls)
}

// Moves a region between the pool and the magazine, and answers whether the plain lists do the same.
fn move_a_region(
    bench: &mut Bench<16, 64>,
    plain: &mut Plain,
    dice: &mut Dice,
) -> Result<bool, AllocError> {
    if dice.below(2) == 0 {
        if let Some(first) = bench.adopt() {
            plain.adopt(first, 1024)?;
        }
        Ok(true)
    } else {
        let first = dice.below(6).saturating_mul(1024);
        Ok(bench.yield_region(first)? == plain.yield_region(first))
    }
}

/// How many times a region is moved and sixteen calls follow, and a magazine or a depot over the first pieces of a
/// space answers as plain lists do, up to the first time that it doesn't.
fn moves_that_agree(alloc: Global, depot: bool, moves: u64) -> Result<u64, AllocError> {
    let mut bench = Bench::of_pieces(alloc, Space::new(alloc, 1)?, depot)?;
    let mut plain = Plain::new(alloc, depot);
    let mut dice = Dice::new();
    for moved in 0..moves {
        if !move_a_region(&mut bench, &mut plain, &mut dice)?
            || calls_that_agree(&mut bench, &mut plain, &mut dice, 16)? != 16
        {
            return Ok(moved);
        }
    }
    Ok(moves)
}

#[test]
fn magazines_answer_as_plain_lists_do(rt: HostRuntime) -> Result<(), Fail> {
    let tiny = Space::new(rt.alloc(), 64)?;
    let small = Space::new(rt.alloc(), 512)?;
    let got = (
        moves_that_agree(rt.alloc(), false, 625)?,
        moves_that_agree(rt.alloc(), true, 625)?,
        calls_in_one_region::<16, 65_536>(rt.alloc(), tiny, 1_000)?,
        calls_in_one_region::<512, 16_384>(rt.alloc(), small, 1_000)?,
    );
    assert_eq!(rt; got, (625, 625, 1_000, 1_000));
    is_send_and_sync(Magazine::<16, 64>::make(rt.alloc(), 1, false)?);
    Ok(())
}
