//! A caller's right to use the register.
ghost use Rattle.std.specs.Prelude.{◌≡◌, ◌≢◌, ◌+◌, ◌-◌, ◌^◌, ◌<◌, ◌≤◌, true, length, reverse, take, drop, ◌++◌};
ghost use Rattle.std.specs.Vec.{vec_capacity};
ghost use Rattle.mz_book.specs.Keepers.{keeper_count};
ghost use Rattle.mz_register.specs.Passes.{keys, bare, keeps_zones, IsRested, IsKnowing, rested_once, knowing_once};

use atomic_table::Seat;
use mz_book::Asked;
use mz_desk::view::View;
use mz_events::Entry;
use std::alloc::AllocError;

/// A caller's right to use a register, with its record. `limit` bounds the record, for which there is room. If it is dropped, the keepers
/// and lights that it holds stay held.
#[derive(Drop)]
pub struct Pass<V> {
    pub(crate) caller: u32,
    pub(crate) noted: Vec<Entry>,
    pub(crate) limit: usize,
    pub(crate) held: Vec<usize>,
    pub(crate) holds: u64,
    pub(crate) founds: u64,
    pub(crate) found: Option<Asked>,
    pub(crate) seat: Seat<Option<V>, View>,
    ghost rested: { IsRested seat.me.0 caller noted.items held.items } by { rested_once seat.me.0 caller noted.items held.items },
    ghost knowing: { IsKnowing seat.me.0 } by { knowing_once seat.me.0 },
    ghost carried: { keys seat.me.1 ≡ reverse held.items },
    ghost none_inside: { bare seat.me.1 ≡ true },
    ghost zones: { keeps_zones noted.items ≡ true },
    ghost room: { keeper_count seat.me.0.profile ≤ vec_capacity held },
    ghost within: { length noted.items ≤ limit },
    ghost limited: { limit ≤ vec_capacity noted },
    ghost few: { limit ≤ 2 ^ 58 },
}

/// The word that `try_hold` found in place of 0: 1 and the caller who has the keeper.
#[derive(Clone, Copy, Debug, PartialEq, Eq)]
pub struct Taken {
    pub word: u64,
}

impl<V> Pass<V> {
    ghost use Rattle.std.specs.Prelude.{OnOk, OnErr};
    ghost use Rattle.mz_book.specs.Plain.{Reserves};
    ghost use Rattle.mz_register.specs.Accounts.{pass_account};

    /// The number of the caller.
    pub fn caller(&self) -> u32
        ensures { result ≡ (pass_account self.now).caller }
    {
        self.caller
    }

    /// The entries that the caller noted since the register was opened, in order of ticket.
    pub fn record(&self) -> &[Entry]
        ensures { result.now ≡ (pass_account self.now).noted }
    {
        self.noted.as_slice()
    }

    /// Makes room for `n` entries more. Pairs need none. A record has at most 2^58 entries: for more there is no memory.
    pub fn reserve(&mut self, n: u64) -> Result<(), AllocError>
        ensures ok { OnOk result (Reserves (pass_account self.old) n (pass_account self.new)) }
        ensures err { OnErr result (pass_account self.new ≡ pass_account self.old) }
    {
        let len = self.noted.len();
        if n > (1 << 58) - len as u64 {
            return Err(AllocError);
        }
        let n = n as usize;
        if n > self.limit - len {
            self.noted.reserve(n)?;
            self.limit = len + n;
        }
        Ok(())
    }

    // The record, the numbers of the keepers that are held, and the seat.
    pub(crate) fn into_record(self) -> (Vec<Entry>, Vec<usize>, Seat<Option<V>, View>)
        ensures { result ≡ (self.noted, self.held, self.seat) }
    {
        let Pass {
            caller: _,
            noted,
            limit: _,
            held,
            holds: _,
            founds: _,
            found: _,
            seat,
        } = self;
        (noted, held, seat)
    }
}
