//! That a register may be shared between threads, where its keepers may, and that passes and lights may move.

use crate::pass::Pass;
use crate::register::Register;
use mz_book::Light;
use mz_events::Keep;

fn send<T: Send>() {}

fn send_and_sync<T: Send + Sync>() {}

/// A register of keepers that are Send and Sync is so too. Its bounds say so, and it has no result to speak of.
pub fn registers_are_send_and_sync<V: Keep + Drop + Send + Sync>() {
    send_and_sync::<Register<V>>();
}

/// A pass moves to the thread that uses it, and so do the lights that it took. The bounds say so, and there is no result to speak of.
pub fn passes_and_lights_are_send<V: Send>() {
    send::<Pass<V>>();
    send::<Light>();
}
