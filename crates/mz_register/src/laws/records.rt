//! What callers noted, one caller behind the other.

ghost use Rattle.std.specs.Prelude.{◌≡◌, ◌<◌, ◌+◌, ℕ, List, ◌++◌, Some, slice_get};
ghost use Rattle.std.specs.List.{All};
ghost use Rattle.mz_events.specs.declared.entry.Entry.{Entry as entry};
ghost use Rattle.mz_events.specs.History.{by_ticket};
ghost use Rattle.mz_register.specs.Records.{records_from};

/// The records of n callers, one behind the other, are by ticket the entries of which they are the records, where these are the callers'
/// and their tickets go on by one. And lists of which all tickets of one are below all of the next are sorted each by itself.
pub fn records_by_ticket()
    ensures sorted { (n t : ℕ) (entries : List entry) → All (λ e. e.caller < n) entries → ((i : ℕ) (e : entry) → slice_get entries i ≡ Some e → e.ticket ≡ t + i) →
        by_ticket (records_from 0 n entries) ≡ entries }
    ensures joined { (xs ys : List entry) → All (λ x. All (λ y. x.ticket < y.ticket) ys) xs → by_ticket (xs ++ ys) ≡ by_ticket xs ++ by_ticket ys }
{}
