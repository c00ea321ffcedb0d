//! The bytes of a space, and who has them.
//!
//! - `Space`: makes a space, all of whose bytes are one span.
//! - `Span`: bytes of one space, which can be parted and joined again.
//! - `Ground`: a span as quanta of one size, which lends spans of them and takes these back.
//! - `Estate`: a span parted from its bytes. These are parcels then.
//! - `Parcel`: bytes without an address at run time. To keep one takes no room.
//! - `Strip`: the bytes of a parcel, laid by its estate to be read and written.
//! - `raw`: what owns the bytes underneath. Raw pointers stand here alone.
//!
//! To the crates above, this one promises that a span's bytes are its own: what is written through
//! one span is read through it, and no other span of its space has any of these bytes. Parting,
//! joining, lending and giving back keep the bytes. Nothing frees a space's memory
//! before the span of all its bytes is dropped. That it goes back then is measured: no contract can
//! say it.
#![tactic(auto)]

mod estate;
mod ground;
mod parcel;
mod raw;
mod space;
mod span;
mod strip;

pub use estate::Estate;
pub use ground::Ground;
pub use parcel::Parcel;
pub use space::Space;
pub use span::Span;
pub use strip::Strip;
