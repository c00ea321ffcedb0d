use crate::round::Round;
use mz_base::{Items, Profile};

/// What is to be run: the numbers of the space, and the rounds.
#[derive(Drop, Debug)]
pub struct Trace {
    pub profile: Profile,
    pub rounds: Items<Round>,
}
