//! The fields of a block's word.
ghost use Rattle.std.specs.Prelude.{◌≡◌, ◌^◌, ◌≤◌, ◌<◌, MatchOption};
ghost use Rattle.mz_nanoword.specs.Words.{Fits, pack_of, word_of};

// What each field counts in, from its lowest bit on.
const FREE: u64 = 1 << 11;

const STATE: u64 = 1 << 22;

const GENERATION: u64 = 1 << 27;

/// What the word of a nano block says.
#[derive(Clone, Copy, PartialEq, Eq, Debug)]
pub struct NanoWord {
    /// The number of the first free slot plus 1, or 0 where no slot is free. 11 bits.
    pub next: u64,
    /// How many slots are free. 11 bits.
    pub free: u64,
    /// 0 where the block is unassigned, 1 to 16 where it is ready with that class, 17 while it is
    /// being claimed. 5 bits.
    pub state: u64,
    /// How often a slot was given out or taken back since the block was made ready. 36 bits.
    pub generation: u64,
}

impl NanoWord {
    /// The word with these fields. Its bit 63 is 0.
    pub fn pack(&self) -> u64
        requires { Fits self.now }
        ensures value { result ≡ pack_of self.now }
        ensures small { result < 2 ^ 63 }
        ensures fields { word_of result ≡ self.now }
    {
        self.next + self.free * FREE + self.state * STATE + self.generation * GENERATION
    }

    /// The fields of a word. None exactly where bit 63 is set.
    pub fn unpack(w: u64) -> Option<NanoWord>
        ensures { MatchOption result (2 ^ 63 ≤ w) (λ x. (w < 2 ^ 63) × (x ≡ word_of w) × Fits x × (pack_of x ≡ w)) }
    {
        if w >> 63 == 1 {
            return None;
        }
        Some(NanoWord {
            next: w % FREE,
            free: w / FREE % (STATE / FREE),
            state: w / STATE % (GENERATION / STATE),
            generation: w / GENERATION,
        })
    }
}
