//! The whole input of a call.

ghost use Rattle.std.specs.Prelude.{◌≡◌, ◌≤◌, IfOk, IfErr, OnErr, vec_len};
ghost use Rattle.mz_io.specs.Count.{Rose};
ghost use Rattle.mz_run.specs.Replies.{IsRead};
ghost use Rattle.mz_run.specs.Top.{IsBounded};
ghost use Rattle.mz_run.specs.declared.input.InputError.TheVariants.{Failed as source_failed, NoMemory};

use mz_io::{Failed, Source};
use std::alloc::{AllocError, Global};

/// The most bytes that an input may have.
const MOST_BYTES: usize = 16_777_216;

/// The most bytes that are asked for at a time.
const PIECE: usize = 65_536;

/// What a source gave.
#[derive(Debug, Drop)]
pub enum Input {
    /// All of its bytes.
    Whole(Vec<u8>),
    /// More bytes than an input may have.
    TooLong,
}

/// Why a call has nothing to say.
#[derive(Debug, Drop)]
pub enum InputError {
    /// The source failed.
    Failed,
    /// There wasn't memory enough.
    NoMemory,
}

impl From<Failed> for InputError {
    ghost from_gives = { λ _ e. e ≡ source_failed };

    fn from(_failed: Failed) -> InputError {
        InputError::Failed
    }
}

impl From<AllocError> for InputError {
    ghost from_gives = { λ _ e. e ≡ NoMemory };

    fn from(_error: AllocError) -> InputError {
        InputError::NoMemory
    }
}

/// So many zeros, to be read over.
fn zeros(alloc: Global, count: usize) -> Result<Vec<u8>, AllocError>
    ensures { IfOk result (λ zeros. vec_len zeros ≡ count) }
{
    vec![in alloc; 0; count]
}

/// Reads to the end of the input. Of one that is too long, it asks for no byte behind the first
/// that is too many. At an error some bytes may have been read.
pub fn read_input<S: Source>(alloc: Global, source: &mut S) -> Result<Input, InputError>
    ensures read { IfOk result (λ input. IsRead (S.left source.old) (S.left source.new) input) }
    ensures failed { IfErr result (λ e. e ≡ InputError.Failed
        → Rose (S.faults source.old) (S.faults source.new)) }
    ensures bounded { OnErr result (IsBounded (S.left source.old) (S.left source.new)) }
    ensures kept { S.faults source.old ≤ S.faults source.new }
{
    let mut bytes = Vec::new(alloc);
    let mut room = zeros(alloc, PIECE)?;
    let piece = room.as_mut_slice();
    while bytes.len() <= MOST_BYTES {
        let most = PIECE.min(MOST_BYTES + 1 - bytes.len());
        let count = source.read(&mut piece[..most])?;
        if count == 0 {
            return Ok(Input::Whole(bytes));
        }
        bytes.extend_from_slice(&piece[..count])?;
    }
    Ok(Input::TooLong)
}
