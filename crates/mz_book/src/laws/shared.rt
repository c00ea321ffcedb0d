//! That a plain book may be shared between threads, where its keepers may.

use crate::plain::PlainBook;
use mz_events::Keep;

fn send_and_sync<T: Send + Sync>() {}

/// A plain book of keepers that are Send and Sync is so too. Its bounds say so, and it has no result to speak of.
pub fn plain_books_are_send_and_sync<V: Keep + Send + Sync>() {
    send_and_sync::<PlainBook<V>>();
}
