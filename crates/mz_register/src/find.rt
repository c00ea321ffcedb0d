//! Where a number stands.
ghost use Rattle.std.specs.Prelude.{◌≡◌, ◌<◌, length, slice_index, true};
ghost use Rattle.mz_book.specs.Keepers.{is_among};

/// The place of `k` in the list.
pub(crate) fn find(held: &[usize], k: usize) -> usize
    requires { is_among held.now k ≡ true }
    ensures within { result < length held.now }
    ensures found { slice_index held.now result ≡ k }
{
    for (i, x) in held.iter().enumerate() {
        if *x == k {
            return i;
        }
    }
    unreachable!()
}
