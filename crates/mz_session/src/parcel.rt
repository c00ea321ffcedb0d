//! A block on its way.

use mz_words::GivenName;
use mz_zone::Block;

/// A block on its way to the caller, and the name that it is to have there.
#[derive(Drop)]
pub(crate) struct Parcel {
    pub(crate) name: GivenName,
    pub(crate) block: Block,
}
