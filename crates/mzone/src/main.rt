//! The program: its words are those of the command line, its source is standard input, and its sink
//! is standard output. The exit status is the number of the call's status.
#![tactic(auto)]

use mz_io::{OpenGate, StdSink, StdSource};
use mz_run::{Status, mzone_main};
use std::alloc::AllocError;
use std::process::ExitCode;
use std::rt::Env;
use std::{env, io};

// The words behind the program's name. None of them counts where one isn't text.
fn words_of<R: Env + AllocGlobal>(rt: &R) -> Result<Vec<String>, AllocError> {
    match env::args(rt) {
        Ok(words) => words.skip(1).collect(rt.alloc()),
        Err(error) if error.kind() == io::ErrorKind::InvalidData => Ok(Vec::new(rt.alloc())),
        Err(_) => Err(AllocError),
    }
}

fn main(rt: HostRuntime) -> ExitCode {
    let mut source = StdSource::new(rt.stdin());
    let mut sink = StdSink::new(rt.stdout());
    let status = match words_of(&rt) {
        Ok(words) => mzone_main(&rt, rt.alloc(), &words, &mut source, &mut sink, &OpenGate),
        Err(AllocError) => Status::NoMemory,
    };
    ExitCode::from(status.number())
}
