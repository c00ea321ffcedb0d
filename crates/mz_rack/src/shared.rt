//! That keepers may move between threads, and be shared by them.

use crate::keeper::Keeper;

fn send_and_sync<T: Send + Sync>() {}

/// A keeper is Send and Sync, so that callers in threads can have a register of keepers. The bounds say so, and there is no result to
/// speak of.
pub fn keepers_are_send_and_sync() {
    send_and_sync::<Keeper>();
}
