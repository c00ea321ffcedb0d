//! Nano: slots of 16 to 256 bytes, given and taken back by one exchange of one word.
//!
//! - `Nano`: the blocks, one for each page of its span, and the calls on them.
//! - `NanoSeat`: what a thread calls with. It has the hand, the slots that its thread was given.
//! - `SlotSpan`: one slot with its bytes.
//! - `Miss`, `Contended`: why a call gave no slot, or put none back.
//! - `Deal`: a move of a slot from one hand to another.
//! - `view`, `rule`: what a seat knows, and the rule over the words, the links and all views that
//!   every step keeps. They are for proofs alone.
//! - `steps`: the single steps, each one call of the table.
//!
//! A block is a page of 16,384 bytes. What is done to it goes through its word:
//!
//! ```text
//! word of block b      generation | state | free | next             one u64, changed by exchange
//!                                                    |
//! its links       ..   j: [ k + 1 ]  <---------------+              next is a slot's number plus 1;
//!                          |                                        so is each link, and 0 ends
//!                      k: [ l + 1 ]                                 the chain
//!                          |
//!                      l: [ 0 ]
//!
//! its places      | j: parcel | k: parcel | l: parcel | m: - | .. | rest of the page |
//!                      on the chain, at home               \
//!                                                           in the hand of a seat, with its bytes
//!
//! state   0  unassigned: the whole page is in place 0, and the word is 0
//!        17  being claimed by one seat, which cuts the page into slots
//!      1-16  ready: every slot has 16 bytes for each unit of the class, is on the chain or in just
//!            one hand, and was never in two
//! ```
//!
//! A pop moves `next` to the link of the first slot, a push sets the slot's link to `next` and then
//! `next` to the slot, each by one exchange that raises the generation. So a word that comes again is
//! a word that never went. At the greatest generation a block gives no slot out any more, and still
//! takes slots back.
//!
//! To the crates above, this one promises that a slot is in one hand at a time whatever the threads
//! do, that a miss has its cause, and that the whole span comes back once every hand is empty.
#![tactic(auto)]

mod close;
mod deal;
mod nano;
mod open;
mod pop;
mod push;
mod rule;
mod seat;
mod slot;
mod steps;
mod view;

pub use deal::Deal;
pub use nano::Nano;
pub use seat::{Contended, Miss, NanoSeat};
pub use slot::SlotSpan;
pub use view::Held;
