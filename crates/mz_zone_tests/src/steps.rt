//! What is done at a zone, step by step, and how each step is answered.
ghost use Rattle.std.specs.Prelude.{◌≡◌, ◌≤◌, [], ◌∷◌, Some, None, vec_len, length, replicate, IfOk, IfSome, IsTrue};
ghost use Rattle.mz_zone.specs.Blocks.{BlockView, with_block_bytes};
ghost use Rattle.mz_zone.specs.Batches.{AreOther, AreHandedIn};
ghost use Rattle.mz_zone.specs.Calling.{seen, AtView, IsHandedIn};
ghost use Rattle.mz_zone_tests.specs.Tested.{IsReady, IsLeft, block_in, size_block_in};

use crate::setting::of_hands;
use mz_book::{Book, PlainBook};
use mz_rack::Keeper;
use mz_zone::{At, Block, NotLiveBlock, ReallocFault, SizeFault, Zone};
use std::alloc::{AllocError, Global};
use std::sync::Wait;

/// What is done at a zone. At most one block is at hand.
#[derive(Clone, Copy)]
pub enum Step {
    /// The block that is made is at hand then.
    Make(u64),
    Realloc(u64),
    Free,
    FreeOfSize(u64),
    /// Two blocks of so many bytes are made, and freed by one call with the one at hand between them. None is at hand then.
    FreeAmong(u64, u64),
    /// A batch of no blocks is made. None is at hand then.
    BatchOfNone(u64),
}

/// How a step is answered.
#[derive(Clone, Copy, PartialEq)]
pub enum Answer {
    /// A block with this first address and so many bytes.
    Block(u64, u64),
    Freed,
    /// The number of a refusal. A block that was handed in came back as it was.
    Refused(u8),
    /// The block that was handed in has so many bytes, and came back as it was.
    WrongSize(u64),
    /// A block shows other bytes, or another one came back.
    Spoiled,
    /// There was no block to do this with.
    NothingAtHand,
    /// So many blocks came.
    Blocks(usize),
}

// A block as it was when it was marked: its first address, and its size.
#[derive(Clone, Copy)]
struct Mark {
    first: u64,
    size: u64,
}

// The byte that marks a block at this address.
fn byte_at(first: u64) -> u8 {
    (first / 16 % 251) as u8 + 1
}

// Whether all these bytes are this one.
fn are_all(bytes: &[u8], x: u8) -> bool {
    bytes.iter().all(|b| *b == x)
}

fn mark_of(block: &Block) -> Mark {
    Mark {
        first: block.first(),
        size: block.size(),
    }
}

// Whether the block is where it was when it was marked, of the same size.
fn is_same(block: &Block, was: Mark) -> bool {
    was.first == block.first() && was.size == block.size()
}

// Whether the block is as it was when it was marked.
fn is_as_marked(block: &Block, was: Mark) -> bool {
    is_same(block, was) && are_all(block.bytes(), byte_at(was.first))
}

// Marks all bytes of the block.
fn write_mark(block: &mut Block, x: u8)
    ensures { block.new ≡ with_block_bytes block.old (replicate (length block.old.span.bytes) x) }
{
    fill(block.bytes_mut(), x);
}

fn fill(bytes: &mut [u8], x: u8)
    ensures { bytes.new ≡ replicate (length bytes.old) x }
{
    bytes.fill(x);
}

// A block that came is marked, and at hand then.
fn marked(block: Block) -> (Option<Block>, Answer)
    ensures { (v : AtView) → IsHandedIn v block → IfSome result.0 (IsHandedIn v) }
{
    let mut b = block;
    let x = byte_at(b.first());
    write_mark(&mut b, x);
    let answer = Answer::Block(b.first(), b.size());
    (Some(b), answer)
}

// Makes room for so many entries.
fn make_room(zone: &Zone, at: &mut At<PlainBook<Keeper>>, n: u64) -> Result<(), AllocError>
    requires { IsReady (seen ⟦<PlainBook<Keeper> as Book<Keeper>>⟧.account at.old) zone.now.profile 0 }
    ensures ready { IfOk result (λ u. IsReady (seen ⟦<PlainBook<Keeper> as Book<Keeper>>⟧.account at.new) zone.now.profile n) }
    ensures held { IfOk result (λ u. (b : BlockView) → IsHandedIn (seen ⟦<PlainBook<Keeper> as Book<Keeper>>⟧.account at.old) b → IsHandedIn (seen ⟦<PlainBook<Keeper> as Book<Keeper>>⟧.account at.new) b) }
{
    at.book.reserve(n)?;
    Ok(())
}

// Makes a block, which is at hand then.
fn make<R: Wait>(
    rt: &R,
    zone: &Zone,
    at: &mut At<PlainBook<Keeper>>,
    n: u64,
) -> Result<(Option<Block>, Answer), AllocError>
    requires { IsReady (seen ⟦<PlainBook<Keeper> as Book<Keeper>>⟧.account at.old) zone.now.profile 0 }
    ensures { IfOk result (λ r. IsLeft (seen ⟦<PlainBook<Keeper> as Book<Keeper>>⟧.account at.new) zone.now.profile r.0) }
{
    of_hands();
    make_room(zone, at, 40)?;
    match zone.malloc(rt, at, n) {
        Ok(b) => Ok(marked(b)),
        Err(null) => Ok((None, Answer::Refused(null.number()))),
    }
}

// Makes a batch of no blocks.
fn batch_of_none<R: Wait>(
    rt: &R,
    alloc: Global,
    zone: &Zone,
    at: &mut At<PlainBook<Keeper>>,
    n: u64,
) -> Result<(Option<Block>, Answer), AllocError>
    requires { IsReady (seen ⟦<PlainBook<Keeper> as Book<Keeper>>⟧.account at.old) zone.now.profile 0 }
    ensures { IfOk result (λ r. IsLeft (seen ⟦<PlainBook<Keeper> as Book<Keeper>>⟧.account at.new) zone.now.profile r.0) }
{
    let mut out = Vec::new(alloc);
    match zone.batch_malloc(rt, at, n, 0, &mut out) {
        Ok(()) => Ok((None, Answer::Blocks(out.len()))),
        Err(null) => Ok((None, Answer::Refused(null.number()))),
    }
}

// A block that comes back with this number is at hand still, if it is as it was.
fn come_back(block: Block, was: Mark, number: u8) -> (Option<Block>, Answer)
    ensures { IfSome result.0 (λ b. b ≡ block) }
{
    if is_as_marked(&block, was) {
        (Some(block), Answer::Refused(number))
    } else {
        (None, Answer::Spoiled)
    }
}

// Gives the block at hand another size, and marks it anew.
fn realloc<R: Wait>(
    rt: &R,
    zone: &Zone,
    at: &mut At<PlainBook<Keeper>>,
    held: Option<Block>,
    n: u64,
) -> Result<(Option<Block>, Answer), AllocError>
    requires { IsLeft (seen ⟦<PlainBook<Keeper> as Book<Keeper>>⟧.account at.old) zone.now.profile held }
    ensures { IfOk result (λ r. IsLeft (seen ⟦<PlainBook<Keeper> as Book<Keeper>>⟧.account at.new) zone.now.profile r.0) }
{
    of_hands();
    let Some(b) = held else {
        return Ok((None, Answer::NothingAtHand));
    };
    make_room(zone, at, 40)?;
    let was = mark_of(&b);
    match zone.realloc(rt, at, Some(b), n) {
        Ok(new) => Ok(marked(new)),
        Err(fault) => Ok(unchanged(fault, was)),
    }
}

// What comes back where a block got no other size.
fn unchanged(fault: ReallocFault, was: Mark) -> (Option<Block>, Answer)
    ensures { IfSome result.0 (λ b. block_in fault ≡ Some b) }
{
    let number = fault.number();
    match fault {
        ReallocFault::NotLive(fault) => come_back(fault.block, was, number),
        ReallocFault::Null {
            block: Some(block),
            ..
        } => come_back(block, was, number),
        ReallocFault::Null { block: None, .. } => (None, Answer::Spoiled),
    }
}

// Frees the block at hand.
fn free<R: Wait>(
    rt: &R,
    zone: &Zone,
    at: &mut At<PlainBook<Keeper>>,
    held: Option<Block>,
) -> Result<(Option<Block>, Answer), AllocError>
    requires { IsLeft (seen ⟦<PlainBook<Keeper> as Book<Keeper>>⟧.account at.old) zone.now.profile held }
    ensures { IfOk result (λ r. IsLeft (seen ⟦<PlainBook<Keeper> as Book<Keeper>>⟧.account at.new) zone.now.profile r.0) }
{
    of_hands();
    let Some(b) = held else {
        return Ok((None, Answer::NothingAtHand));
    };
    make_room(zone, at, 40)?;
    let was = mark_of(&b);
    match zone.free(rt, at, b) {
        Ok(()) => Ok((None, Answer::Freed)),
        Err(fault) => {
            let number = fault.number();
            Ok(come_back(fault.block, was, number))
        }
    }
}

// Frees the block at hand by its size.
fn free_of_size<R: Wait>(
    rt: &R,
    zone: &Zone,
    at: &mut At<PlainBook<Keeper>>,
    held: Option<Block>,
    n: u64,
) -> Result<(Option<Block>, Answer), AllocError>
    requires { IsLeft (seen ⟦<PlainBook<Keeper> as Book<Keeper>>⟧.account at.old) zone.now.profile held }
    ensures { IfOk result (λ r. IsLeft (seen ⟦<PlainBook<Keeper> as Book<Keeper>>⟧.account at.new) zone.now.profile r.0) }
{
    of_hands();
    let Some(b) = held else {
        return Ok((None, Answer::NothingAtHand));
    };
    make_room(zone, at, 40)?;
    let was = mark_of(&b);
    let fault = match zone.free_definite_size(rt, at, b, n) {
        Ok(()) => return Ok((None, Answer::Freed)),
        Err(fault) => fault,
    };
    Ok(not_freed(fault, was))
}

// What comes back where a block wasn't freed by its size.
fn not_freed(fault: SizeFault, was: Mark) -> (Option<Block>, Answer)
    ensures { IfSome result.0 (λ b. b ≡ size_block_in fault) }
{
    let number = fault.number();
    match fault {
        SizeFault::NotLive(fault) => come_back(fault.block, was, number),
        SizeFault::WrongSize { block, held } => {
            if number == 5 && is_as_marked(&block, was) {
                return (Some(block), Answer::WrongSize(held));
            }
            (None, Answer::Spoiled)
        }
    }
}

// Makes a block beside others.
fn make_beside<R: Wait>(
    rt: &R,
    zone: &Zone,
    at: &mut At<PlainBook<Keeper>>,
    n: u64,
) -> Result<Option<Block>, AllocError>
    requires { IsReady (seen ⟦<PlainBook<Keeper> as Book<Keeper>>⟧.account at.old) zone.now.profile 0 }
    ensures ready { IfOk result (λ r. IsReady (seen ⟦<PlainBook<Keeper> as Book<Keeper>>⟧.account at.new) zone.now.profile 0) }
    ensures made { IfOk result (λ r. IfSome r (IsHandedIn (seen ⟦<PlainBook<Keeper> as Book<Keeper>>⟧.account at.new))) }
    ensures held { IfOk result (λ r. IfSome r (λ d. (b : BlockView) → IsHandedIn (seen ⟦<PlainBook<Keeper> as Book<Keeper>>⟧.account at.old) b → IsHandedIn (seen ⟦<PlainBook<Keeper> as Book<Keeper>>⟧.account at.new) b)) }
{
    of_hands();
    make_room(zone, at, 40)?;
    match zone.malloc(rt, at, n) {
        Ok(b) => Ok(Some(b)),
        Err(_null) => Ok(None),
    }
}

// Whether these blocks begin at three addresses.
fn begin_apart(a: &Block, b: &Block, c: &Block) -> bool
    ensures { IsTrue result → AreOther (a.now ∷ b.now ∷ c.now ∷ []) }
{
    let (first, second, third) = (a.first(), b.first(), c.first());
    first != second && first != third && second != third
}

// Makes two blocks, of which one is to be freed before the one at hand and the other after it.
fn gather<R: Wait>(
    rt: &R,
    alloc: Global,
    zone: &Zone,
    at: &mut At<PlainBook<Keeper>>,
    b: Block,
    n: u64,
    m: u64,
) -> Result<Vec<Block>, AllocError>
    requires { IsLeft (seen ⟦<PlainBook<Keeper> as Book<Keeper>>⟧.account at.old) zone.now.profile (Some b) }
    ensures ready { IfOk result (λ all. IsReady (seen ⟦<PlainBook<Keeper> as Book<Keeper>>⟧.account at.new) zone.now.profile 0) }
    ensures blocks { IfOk result (λ all. AreHandedIn (seen ⟦<PlainBook<Keeper> as Book<Keeper>>⟧.account at.new) all.items) }
    ensures few { IfOk result (λ all. vec_len all ≤ 3) }
{
    let Some(a) = make_beside(rt, zone, at, n)? else {
        return Ok(Vec::new(alloc));
    };
    let Some(c) = make_beside(rt, zone, at, m)? else {
        return Ok(Vec::new(alloc));
    };
    if !begin_apart(&a, &b, &c) {
        return Ok(Vec::new(alloc));
    }
    Ok(vec![in alloc; a, b, c]?)
}

// Frees the block at hand between two others by one call. Where it comes back as it was, the last one is left.
fn free_among<R: Wait>(
    rt: &R,
    alloc: Global,
    zone: &Zone,
    at: &mut At<PlainBook<Keeper>>,
    held: Option<Block>,
    n: u64,
    m: u64,
) -> Result<(Option<Block>, Answer), AllocError>
    requires { IsLeft (seen ⟦<PlainBook<Keeper> as Book<Keeper>>⟧.account at.old) zone.now.profile held }
    ensures { IfOk result (λ r. IsLeft (seen ⟦<PlainBook<Keeper> as Book<Keeper>>⟧.account at.new) zone.now.profile r.0) }
{
    let Some(b) = held else {
        return Ok((None, Answer::NothingAtHand));
    };
    let was = mark_of(&b);
    let all = gather(rt, alloc, zone, at, b, n, m)?;
    Ok((None, free_all(rt, zone, at, all, was)?))
}

// Frees three blocks by one call.
fn free_all<R: Wait>(
    rt: &R,
    zone: &Zone,
    at: &mut At<PlainBook<Keeper>>,
    all: Vec<Block>,
    second: Mark,
) -> Result<Answer, AllocError>
    requires ready { IsReady (seen ⟦<PlainBook<Keeper> as Book<Keeper>>⟧.account at.old) zone.now.profile 0 }
    requires blocks { AreHandedIn (seen ⟦<PlainBook<Keeper> as Book<Keeper>>⟧.account at.old) all.items }
    requires few { vec_len all ≤ 3 }
    ensures { IfOk result (λ r. IsReady (seen ⟦<PlainBook<Keeper> as Book<Keeper>>⟧.account at.new) zone.now.profile 0) }
{
    let Some(third) = mark_of_third(&all) else {
        return Ok(Answer::NothingAtHand);
    };
    make_room(zone, at, 120)?;
    let mut left = all;
    match zone.batch_free(rt, at, &mut left) {
        Ok(()) => Ok(Answer::Freed),
        Err(fault) => Ok(stopped(fault, second, &left, third)),
    }
}

fn mark_of_third(all: &[Block]) -> Option<Mark> {
    match all {
        [_, _, block] => Some(mark_of(block)),
        _ => None,
    }
}

// A call that frees three blocks stopped at the second, which came back as it was. The third is left.
fn stopped(fault: NotLiveBlock, second: Mark, left: &[Block], third: Mark) -> Answer {
    let number = fault.number();
    match left {
        [block] if is_same(block, third) => come_back(fault.block, second, number).1,
        _ => Answer::Spoiled,
    }
}

/// Does a step. Another one can be done then.
pub fn go<R: Wait>(
    rt: &R,
    alloc: Global,
    zone: &Zone,
    at: &mut At<PlainBook<Keeper>>,
    held: Option<Block>,
    step: Step,
) -> Result<(Option<Block>, Answer), AllocError>
    requires { IsLeft (seen ⟦<PlainBook<Keeper> as Book<Keeper>>⟧.account at.old) zone.now.profile held }
    ensures { IfOk result (λ r. IsLeft (seen ⟦<PlainBook<Keeper> as Book<Keeper>>⟧.account at.new) zone.now.profile r.0) }
{
    match step {
        Step::Make(n) => make(rt, zone, at, n),
        Step::Realloc(n) => realloc(rt, zone, at, held, n),
        Step::Free => free(rt, zone, at, held),
        Step::FreeOfSize(n) => free_of_size(rt, zone, at, held, n),
        Step::FreeAmong(n, m) => free_among(rt, alloc, zone, at, held, n, m),
        Step::BatchOfNone(n) => batch_of_none(rt, alloc, zone, at, n),
    }
}

/// Does these steps, each in its zone, 0 or another, and says whether each was answered as beside it.
pub fn go_on<R: Wait>(
    rt: &R,
    alloc: Global,
    first: &Zone,
    second: &Zone,
    at: &mut At<PlainBook<Keeper>>,
    steps: &[(u32, Step, Answer)],
) -> Result<bool, AllocError>
    requires same { second.now.profile ≡ first.now.profile }
    requires left { IsLeft (seen ⟦<PlainBook<Keeper> as Book<Keeper>>⟧.account at.old) first.now.profile None }
{
    let mut held = None;
    let mut each = true;
    for (zone, step, right) in steps {
        let (next, answer) = go_in(rt, alloc, first, second, at, held, *zone, *step)?;
        each &= answer == *right;
        held = next;
    }
    Ok(each)
}

// Does a step in zone 0, and any other in zone 1.
fn go_in<R: Wait>(
    rt: &R,
    alloc: Global,
    first: &Zone,
    second: &Zone,
    at: &mut At<PlainBook<Keeper>>,
    held: Option<Block>,
    zone: u32,
    step: Step,
) -> Result<(Option<Block>, Answer), AllocError>
    requires same { second.now.profile ≡ first.now.profile }
    requires left { IsLeft (seen ⟦<PlainBook<Keeper> as Book<Keeper>>⟧.account at.old) first.now.profile held }
    ensures { IfOk result (λ r. IsLeft (seen ⟦<PlainBook<Keeper> as Book<Keeper>>⟧.account at.new) first.now.profile r.0) }
{
    if zone == 0 {
        go(rt, alloc, first, at, held, step)
    } else {
        go(rt, alloc, second, at, held, step)
    }
}
