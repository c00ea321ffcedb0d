//! What a call is made with.
use mz_nano::{Nano, NanoSeat};

/// A caller's book, and nano with the seat of the caller where there is one. What is asked of both, and what each call leaves of them,
/// is said in `specs/Calling.antt`.
#[derive(Drop)]
pub struct At<'a, B> {
    pub book: &'a mut B,
    pub nano: Option<(&'a Nano, &'a mut NanoSeat)>,
}
