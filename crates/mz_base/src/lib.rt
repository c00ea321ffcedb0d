//! Pages, ranges and sizes: the numbers that every other crate counts with.
//!
//! - `range`: which range serves a request, its unit, and the good size of a request.
//! - `profile`: the numbers that a space is made with, and their limits.
//! - `zone_name`: the name of a zone.
//! - `items`: a list of items of any type, as the contracts above see it.
//! - `laws`: what the definitions mean, as contracts of functions that do nothing.
//!
//! To the crates above, this one promises that each of its calls is the table of sizes, as the
//! definitions in `specs/Sizes.antt` give it. No call but `Items::push` takes memory.
#![tactic(auto)]

pub mod items;
pub mod laws;
pub mod profile;
pub mod range;
pub mod zone_name;

pub use items::Items;
pub use profile::Profile;
pub use range::{PAGE, Range, good_size, route, unit, units};
pub use zone_name::ZoneName;
