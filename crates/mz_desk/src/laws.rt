//! The register rule is kept by each kind of step: each function's contract is a law, and its body does nothing.
//!
//! - `steps`: a seat's own steps, on a word of the table.
//! - `seats`: a seat is cut from seat 0, and taken in again.
//! - `places`: each page is in one place.
//! - `histories`: the laws of lower crates on which these rest.

mod histories;
pub mod places;
pub mod seats;
pub mod steps;

pub use histories::of_histories;
