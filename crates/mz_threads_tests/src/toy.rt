//! Keepers that stand for the places of a small profile, and a plain book of them.
ghost use Rattle.std.specs.Prelude.{◌≡◌, map, [], ◌∷◌, IfOk};
ghost use Rattle.mz_book.specs.Plain.{opening_account};
ghost use Rattle.mz_threads_tests.specs.Toys.{toy_profile, toy_site};

use mz_base::Profile;
use mz_book::{Book, PlainBook};
use mz_events::Keep;
use std::alloc::{AllocError, Global};

/// A keeper, by its number.
#[derive(Drop)]
pub struct Toy {
    pub number: u64,
}

impl Keep for Toy {
    ghost use Rattle.mz_threads_tests.specs.Toys.{toy};

    ghost keeping = { λ v. toy v.number };
}

/// Two pages of nano behind two others; two callers; zone 0 alone, with one magazine of each range.
fn profile() -> Profile
    ensures { result ≡ toy_profile }
{
    Profile {
        pages: 4,
        callers: 2,
        magazines: 1,
        nano: 2,
        most_gen: 1,
        zones: 1,
    }
}

/// One for each number.
fn toys(alloc: Global) -> Result<Vec<Toy>, AllocError>
    ensures { IfOk result (λ v. map (λ t. t.number) v.items ≡ 0 ∷ 1 ∷ 2 ∷ 3 ∷ 4 ∷ 5 ∷ []) }
{
    Ok(vec![in alloc;
        Toy { number: 0 },
        Toy { number: 1 },
        Toy { number: 2 },
        Toy { number: 3 },
        Toy { number: 4 },
        Toy { number: 5 },
    ]?)
}

/// A book of toys of which nothing was asked yet.
pub fn book_of_toys(alloc: Global) -> Result<PlainBook<Toy>, AllocError>
    ensures { IfOk result (λ b. ⟦<PlainBook<Toy> as Book<Toy>>⟧.account b ≡ opening_account toy_profile toy_site) }
{
    let p = profile();
    PlainBook::new(alloc, &p, toys(alloc)?)
}
