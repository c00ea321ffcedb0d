//! What holds of keeper numbers, of hands, of what is live, and of several calls: each function's contract is a law, and its body does
//! nothing.
//!
//! - `numbers`: keeper numbers and places, both ways.
//! - `hands`: a caller's hand after events, and that what is in it is live.
//! - `owners`: owners and hands after entries of callers.
//! - `slots`: slots of nano whose pairs are in the hand, and lights that are held.
//! - `live`: what is live after an event.
//! - `notes`: what an event leaves of hands, lights and classes.
//! - `growth`: what several calls add up to.
//! - `client`: a client of any book, which shows how its clauses are used.
//! - `shared`: when a plain book is Send and Sync.
//! - `histories`: the laws of histories on which these rest.

pub mod client;
pub mod growth;
pub mod hands;
mod histories;
pub mod live;
pub mod notes;
pub mod numbers;
pub mod owners;
pub mod shared;
pub mod slots;

pub(crate) use histories::of_histories;
