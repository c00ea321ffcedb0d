//! What threads do with nano and with the register, and what one client does with any book.
//!
//! - `nano`: two threads pop and push slots, a block retires, and hands are dealt.
//! - `toy`: keepers that stand for the places of a small profile, and a plain book of them.
//! - `book`: a client notes events at a plain book, and makes and ends a slot's block.
//! - `register`: two threads note entries under one keeper and take lights of one block.
//!
//! It stands apart so that the crates whose public calls it runs are proved once, without tests.
#![tactic(auto)]

#[cfg(test)]
mod book;
#[cfg(test)]
mod nano;
#[cfg(test)]
mod register;
#[cfg(test)]
mod toy;
