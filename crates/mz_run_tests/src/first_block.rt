//! A trace of one block, and the words with which it is run.

use std::alloc::{AllocError, Global};

/// More bytes than any output has.
pub const ROOM: usize = 4_096;

pub const TRACE: &str = "mzone-trace 1\n\
    space 64 callers 1 magazines 1 nano 0 gen 1024 zones 1\n\
    round\n\
    0 malloc a 100\n";

pub const RUN: &str = "mzone-run 1\n\
    space 64 callers 1 magazines 1 nano 0 gen 1024 zones 1\n\
    round\n\
    caller 0\n\
    > malloc a 100\n\
    0 full 0t0 112 16\n\
    1 full 0td 112 16\n\
    2 take 0t0 0 64\n\
    3 new 0t0 0 112 16\n\
    = block 0 112\n\
    end\n\
    block 0 112 tiny default\n\
    blocks_in_use 1\n\
    size_in_use 112\n\
    max_size_in_use 112\n\
    size_allocated 1048576\n";

/// Words as the program gets them.
pub fn words_of(alloc: Global, text: &str) -> Result<Vec<String>, AllocError> {
    let mut words = Vec::new(alloc);
    for word in text.split_whitespace() {
        words.push(String::from_str(alloc, word)?)?;
    }
    Ok(words)
}
