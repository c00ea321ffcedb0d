//! That a zone may be shared between threads, and that blocks may move.

use crate::block::Block;
use crate::zone::Zone;

fn send<T: Send>() {}

fn sync<T: Sync>() {}

/// A zone is Sync: callers in threads may share it. The bound says so, and there is no result to speak of.
pub fn zones_are_sync() {
    sync::<Zone>();
}

/// A block is Send: it may move to another thread. The bound says so, and there is no result to speak of.
pub fn blocks_are_send() {
    send::<Block>();
}
