use std::sync::Wait;

/// What a caller passes before each of its commands. A gate may hold the caller up, as a test does
/// to have callers take turns, and does nothing else that a contract can see.
pub trait Gate: Sync {
    /// Called by the caller of this number before its command number `index`, from 0, of the round.
    fn pass<R: Wait + Sync>(&self, rt: &R, caller: u32, index: u64);
}

/// The gate that holds nobody up.
#[derive(Clone, Copy, Debug)]
pub struct OpenGate;

impl Gate for OpenGate {
    fn pass<R: Wait + Sync>(&self, _rt: &R, _caller: u32, _index: u64) {}
}
