ghost use Rattle.std.specs.Prelude.{◌≡◌, ◌↔◌, ◌<◌, ◌≤◌, IsSome, IfSome};

use std::marker::Model;

/// The most blocks of a batch.
pub const MOST_IN_BATCH: u64 = 4_096;

/// The number of a block within its batch, below the most. Contracts see the number.
#[derive(Clone, Copy, Debug, PartialEq, Eq, PartialOrd, Ord)]
pub struct BatchIndex {
    number: u16,
}

impl Model for BatchIndex {
    ghost use Rattle.std.specs.Prelude.{ℕ, ◌<◌};
    ghost use Rattle.mz_words.specs.declared.count.TheConstants.{MOST_IN_BATCH};

    ghost Value = { ℕ };

    ghost view = { λ i. i.number };

    ghost invariant = { λ i. i.number < MOST_IN_BATCH };

    ghost inverse = { λ v. record { number = v } };
}

impl BatchIndex {
    /// This number, or None where it isn't below the most.
    pub fn new(number: u64) -> Option<BatchIndex>
        ensures some { IsSome result ↔ (number < MOST_IN_BATCH) }
        ensures value { IfSome result (λ i. i ≡ number) }
    {
        if number < MOST_IN_BATCH {
            let number = number as u16;
            Some(BatchIndex { number })
        } else {
            None
        }
    }

    /// The number.
    pub fn number(self) -> u64
        ensures value { result ≡ self }
        ensures limit { result < MOST_IN_BATCH }
    {
        u64::from(self.number)
    }
}

/// How many blocks a batch is to have, from 1 to the most. Contracts see the number.
#[derive(Clone, Copy, Debug, PartialEq, Eq)]
pub struct BatchCount {
    number: u16,
}

impl Model for BatchCount {
    ghost use Rattle.std.specs.Prelude.{ℕ, ◌≤◌};
    ghost use Rattle.mz_words.specs.declared.count.TheConstants.{MOST_IN_BATCH};

    ghost Value = { ℕ };

    ghost view = { λ i. i.number };

    ghost invariant = { λ i. (1 ≤ i.number) × (i.number ≤ MOST_IN_BATCH) };

    ghost inverse = { λ v. record { number = v } };
}

impl BatchCount {
    /// This number, or None where it isn't from 1 to the most.
    pub fn new(number: u64) -> Option<BatchCount>
        ensures some { IsSome result ↔ ((1 ≤ number) × (number ≤ MOST_IN_BATCH)) }
        ensures value { IfSome result (λ i. i ≡ number) }
    {
        if 1 <= number && number <= MOST_IN_BATCH {
            let number = number as u16;
            Some(BatchCount { number })
        } else {
            None
        }
    }

    /// The number.
    pub fn number(self) -> u64
        ensures value { result ≡ self }
        ensures limits { (1 ≤ result) × (result ≤ MOST_IN_BATCH) }
    {
        u64::from(self.number)
    }
}

/// How many bytes of a block are to be shown, from 1 to 64. Contracts see the number.
#[derive(Clone, Copy, Debug, PartialEq, Eq)]
pub struct ShowCount {
    number: u8,
}

impl Model for ShowCount {
    ghost use Rattle.std.specs.Prelude.{ℕ, ◌≤◌};

    ghost Value = { ℕ };

    ghost view = { λ i. i.number };

    ghost invariant = { λ i. (1 ≤ i.number) × (i.number ≤ 64) };

    ghost inverse = { λ v. record { number = v } };
}

impl ShowCount {
    /// This number, or None where it isn't from 1 to 64.
    pub fn new(number: u64) -> Option<ShowCount>
        ensures some { IsSome result ↔ ((1 ≤ number) × (number ≤ 64)) }
        ensures value { IfSome result (λ i. i ≡ number) }
    {
        if 1 <= number && number <= 64 {
            let number = number as u8;
            Some(ShowCount { number })
        } else {
            None
        }
    }

    /// The number.
    pub fn number(self) -> u64
        ensures value { result ≡ self }
        ensures limits { (1 ≤ result) × (result ≤ 64) }
    {
        u64::from(self.number)
    }
}
