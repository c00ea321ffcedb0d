//! Who passes the gate.

use super::first_block::ROOM;
use mz_io::{FixedSink, Gate, SureSource};
use mz_run::{RunJob, Status, run_call};
use std::sync::{Mutex, Wait};
use std::test::Fail;

const TRACE: &[u8] = b"mzone-trace 1\n\
    space 64 callers 1 magazines 1 nano 0 gen 1024 zones 1\n\
    round\n0 malloc a 1\n0 free a\n\
    round\n\
    round\n0 free a\n";

// A gate that notes who passes it, with the number of the command.
#[derive(Drop)]
struct NotingGate {
    passed: Mutex<Vec<(u32, u64)>>,
}

impl Gate for NotingGate {
    fn pass<R: Wait + Sync>(&self, rt: &R, caller: u32, index: u64) {
        let mut passed = self.passed.lock(rt);
        let _ = passed.push((caller, index));
    }
}

// The gate is passed once before each command, with the command's number in its round.
#[test]
fn each_command_passes_the_gate(rt: HostRuntime) -> Result<(), Fail> {
    let alloc = rt.alloc();
    let gate = NotingGate {
        passed: Mutex::new(Vec::new(alloc)),
    };
    let mut source = SureSource::new(TRACE.to_vec(alloc)?);
    let mut sink = FixedSink::<ROOM>::new();
    let status = run_call(&rt, alloc, &RunJob::Trace, &mut source, &mut sink, &gate);
    assert_eq!(rt; status, Status::Done);
    let passed = gate.passed.lock(&rt);
    assert_eq!(rt; passed.as_slice(), [(0, 0), (0, 1), (0, 0)].as_slice());
    Ok(())
}
